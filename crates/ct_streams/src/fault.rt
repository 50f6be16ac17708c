//! How programs end.

ghost use Rattle.std.specs.Prelude.{◌≡◌, ℕ};
ghost use Rattle.ct_streams.specs.Statuses.{unless_broken};

use crate::status::Status;

/// Why a program ends without what it was asked for. Its text is the line for standard error.
pub trait Fault {
    // The status of the fault.
    ghost ends_with: { Self → ℕ };

    /// The status that a program ends with, one of `Status`.
    fn status(&self) -> u8
        ensures { result ≡ ends_with self.now };
}

/// What a program makes of how a command ended that writes: a stream that failed is nothing wrong where the writer broke, as nobody
/// reads any more what it writes.
pub fn unless_broken<T, F: Fault + Drop>(
    ended: Result<T, F>,
    is_broken: bool,
) -> Result<Option<T>, F>
    ensures { result ≡ unless_broken F.ends_with ended is_broken }
{
    match ended {
        Ok(done) => Ok(Some(done)),
        Err(fault) => {
            if is_broken && fault.status() == Status::Stream.code() {
                Ok(None)
            } else {
                Err(fault)
            }
        }
    }
}
