//! The files of the machine.

use ct_streams::{Counted, Failed, FileFault, Files, NewFiles, write_all};
use either::{Either, Left, Right};
use std::fs::{self, File, OpenOptions};
use std::io::StdinLock;

// Opens and makes files where the program runs; a file `-` that is read is standard input. Their bytes are not known.
#[derive(Drop)]
pub(crate) struct Host<'a> {
    rt: &'a HostRuntime,
    failures: u64,
}

impl<'a> Host<'a> {
    ghost use Rattle.std.specs.Prelude.{◌≡◌};

    // No file was made yet.
    pub(crate) fn new(rt: &'a HostRuntime) -> Host<'a>
        ensures { result.failures ≡ 0 }
    {
        Host { rt, failures: 0 }
    }
}

impl Files for Host<'_> {
    ghost use Rattle.std.specs.Prelude.{None};

    type Reader = Counted<Either<StdinLock<'static>, File>>;

    ghost bytes = { λ _ _. None };

    fn open(&self, name: &str) -> Result<Self::Reader, FileFault> {
        if name == "-" {
            return Ok(Counted::new(Left(self.rt.reader())));
        }
        match fs::open(self.rt, name) {
            Ok(file) => {
                if is_folder(&file) {
                    return Err(FileFault::Folder);
                }
                Ok(Counted::new(Right(file)))
            }
            Err(error) => Err(FileFault::of_kind(error.kind())),
        }
    }
}

// Whether the open file is a folder, as far as the machine tells.
fn is_folder(file: &File) -> bool {
    match file.metadata() {
        Ok(metadata) => metadata.is_dir(),
        Err(_) => false,
    }
}

impl NewFiles for Host<'_> {
    ghost use Rattle.std.specs.Prelude.{None};

    ghost made = { λ _. None };

    ghost failures = { λ host. host.failures };

    fn make(&mut self, name: &str, bytes: &[u8]) -> Result<(), Failed> {
        if has_made(self.rt, name, bytes) {
            Ok(())
        } else {
            self.failures += 1;
            Err(Failed)
        }
    }
}

// Makes the file, with these bytes, and tells whether it is whole.
fn has_made(rt: &HostRuntime, name: &str, bytes: &[u8]) -> bool {
    match fs::create(rt, name) {
        Ok(file) => write_all(&mut Counted::new(file), bytes).is_ok(),
        Err(_) => false,
    }
}

// Whether the file of this name can be written. It is made where there is none, and stays as it is where there is one.
pub(crate) fn can_write(rt: &HostRuntime, name: &str) -> bool {
    let mut options = OpenOptions::new();
    options.append(true).create(true);
    options.open(rt, name).is_ok()
}
