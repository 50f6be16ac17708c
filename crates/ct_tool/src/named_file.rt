//! The file that a command's words name.

ghost use Rattle.std.specs.Prelude.{◌≡◌, IfOk};
ghost use Rattle.ct_streams.specs.Counted.{failures_of};

use crate::ending::{close, done, refuse, written};
use crate::host::Host;
use clap::ArgMatches;
use ct_program::CommandFault;
use ct_streams::{Counted, Fault, FileFault, Files, NamedFault};
use either::Either;
use std::fmt::Display;
use std::fs::File;
use std::io::StdinLock;
use std::process::ExitCode;

// The open file of a name, `-` for standard input.
#[derive(Drop)]
pub(crate) struct NamedFile<'a> {
    name: &'a str,
    pub(crate) reader: Counted<Either<StdinLock<'static>, File>>,
}

impl<'a> NamedFile<'a> {
    // Opens the file that the words name.
    pub(crate) fn open(
        rt: &HostRuntime,
        found: &'a ArgMatches<'_>,
    ) -> Result<NamedFile<'a>, ExitCode>
        ensures { IfOk result (λ file. failures_of file.reader ≡ 0) }
    {
        let Some(name) = found.get_str("file") else {
            let fault = CommandFault::NoFile;
            return Err(close(rt, fault, fault.status()));
        };
        match Host::new(rt).open(name) {
            Ok(reader) => Ok(NamedFile { name, reader }),
            Err(fault) => Err(refuse(rt, NamedFault { name, fault })),
        }
    }

    // What a command came to that read the file and wrote; None where nobody reads any more what it wrote.
    pub(crate) fn written<T: Drop, F: Fault + Display + Drop>(
        &self,
        rt: &HostRuntime,
        ended: Result<T, F>,
        is_broken: bool,
    ) -> Result<Option<T>, ExitCode> {
        if self.reader.has_failed() {
            let (name, fault) = (self.name, FileFault::Read);
            return Err(refuse(rt, NamedFault { name, fault }));
        }
        written(rt, ended, is_broken)
    }
}
