//! What checking a file comes to.

ghost use Rattle.std.specs.Prelude.{◌≡◌};
ghost use Rattle.ct_views.specs.Checking.{status_of};

use ct_streams::{Fault, FileFault, Status};
use ct_told::ShowFault;

/// What checking a file comes to.
#[derive(Debug, Drop)]
pub enum Checked {
    /// Its record is replayed, and where a report is expected, to that report.
    Good,
    /// Its record is replayed to another report than the one beside it.
    OtherReport,
    /// Its record is replayed, and the report beside it can't be read.
    NoReport(FileFault),
    /// It can't be opened.
    NoFile(FileFault),
    /// It can't be read to its end, is no record, or a step of its record is refused; or memory was refused.
    Fault(ShowFault),
}

impl Checked {
    /// The status that it stands for: 0 for a good one, 1 for another report, 4 for one that can't be read, else the fault's.
    pub fn status(&self) -> u8
        ensures { result ≡ status_of self.now }
    {
        match self {
            Checked::Good => Status::Done.code(),
            Checked::OtherReport => Status::Refused.code(),
            Checked::NoReport(_) | Checked::NoFile(_) => Status::Stream.code(),
            Checked::Fault(fault) => fault.status(),
        }
    }
}
