//! Files that are not read or made.

ghost use Rattle.std.specs.Prelude.{Some};
ghost use Rattle.ct_streams.specs.FileFaults.{named_text};

use crate::fault::Fault;
use crate::file_fault::FileFault;
use crate::status::Status;
use std::fmt;

/// A file that is not read or not made. Its text is the line for standard error: the name of the file, but of standard input,
/// whose name is `-`, and why.
#[derive(Clone, Copy, Debug, Drop)]
pub struct NamedFault<'a> {
    /// The name of the file.
    pub name: &'a str,
    /// Why.
    pub fault: FileFault,
}

impl Fault for NamedFault<'_> {
    ghost use Rattle.ct_streams.specs.Statuses.{code};
    ghost use Rattle.ct_streams.specs.declared.status.Status.TheVariants.{Stream};

    ghost ends_with = { λ _. code Stream };

    fn status(&self) -> u8 {
        Status::Stream.code()
    }
}

impl fmt::Display for NamedFault<'_> {
    ghost output = { λ named. Some (named_text named.name.now named.fault) };

    fn fmt<W: fmt::Write>(&self, f: &mut fmt::Formatter<W>) -> fmt::Result {
        if self.name == "-" {
            write!(f, "{}", self.fault)
        } else {
            write!(f, "{}: {}", self.name, self.fault)
        }
    }
}
