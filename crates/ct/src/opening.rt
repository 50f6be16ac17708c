//! The file that is replayed.

ghost use Rattle.std.specs.Prelude.{◌≡◌, IfOk};
ghost use Rattle.ct_streams.specs.Counted.{failures_of};

use ct_streams::{Counted, FileFault};
use either::{Either, Left, Right};
use std::fs::{self, File};
use std::io::StdinLock;

// Opens the file of this name, `-` for standard input.
pub(crate) fn open(
    rt: &HostRuntime,
    name: &str,
) -> Result<Counted<Either<StdinLock<'static>, File>>, FileFault>
    ensures { IfOk result (λ reader. failures_of reader ≡ 0) }
{
    if name == "-" {
        return Ok(Counted::new(Left(rt.reader())));
    }
    match fs::open(rt, name) {
        Ok(file) if is_folder(&file) => Err(FileFault::Folder),
        Ok(file) => Ok(Counted::new(Right(file))),
        Err(error) => Err(FileFault::of_kind(error.kind())),
    }
}

// Whether the open file is a folder, as far as the machine tells.
fn is_folder(file: &File) -> bool {
    match file.metadata() {
        Ok(metadata) => metadata.is_dir(),
        Err(_) => false,
    }
}
