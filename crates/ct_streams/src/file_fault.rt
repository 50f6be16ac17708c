//! Why files are not read or made.

ghost use Rattle.std.specs.Prelude.{◌≡◌, Some};
ghost use Rattle.ct_streams.specs.FileFaults.{fault_of_kind, fault_text};

use std::fmt;
use std::io::ErrorKind;

/// Why a file is not read or not made.
#[derive(Clone, Copy, Debug, Drop, PartialEq, Eq)]
pub enum FileFault {
    /// There is none of that name.
    Missing,
    /// It is a folder.
    Folder,
    /// It may not be read.
    Barred,
    /// A read failed, or it could not be opened for another reason.
    Read,
    /// It could not be made, or a write failed.
    Write,
}

impl FileFault {
    /// Why a file is not opened, by the kind of the error.
    pub fn of_kind(kind: ErrorKind) -> FileFault
        ensures { result ≡ fault_of_kind kind }
    {
        match kind {
            ErrorKind::NotFound => FileFault::Missing,
            ErrorKind::IsADirectory => FileFault::Folder,
            ErrorKind::PermissionDenied => FileFault::Barred,
            _ => FileFault::Read,
        }
    }
}

impl fmt::Display for FileFault {
    ghost output = { λ fault. Some (fault_text fault) };

    fn fmt<W: fmt::Write>(&self, f: &mut fmt::Formatter<W>) -> fmt::Result {
        match self {
            FileFault::Missing => f.write_str("no such file"),
            FileFault::Folder => f.write_str("is a folder"),
            FileFault::Barred => f.write_str("not readable"),
            FileFault::Read => f.write_str("read failed"),
            FileFault::Write => f.write_str("write failed"),
        }
    }
}
