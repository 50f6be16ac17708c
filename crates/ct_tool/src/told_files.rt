//! Files of which is told how much was read.

use crate::host::Host;
use crate::terminal::Terminal;
use ct_streams::{Counted, Failed, FileFault, Files, Source};
use either::Either;
use std::fmt;
use std::fs::File;
use std::io::StdinLock;

// How many bytes a million are.
const MILLION: u64 = 1_000_000;

// Opens files as `Host` does.
#[derive(Drop)]
pub(crate) struct ToldFiles<'a> {
    rt: &'a HostRuntime,
    terminal: Terminal<'a>,
}

impl<'a> ToldFiles<'a> {
    pub(crate) fn new(rt: &'a HostRuntime) -> ToldFiles<'a> {
        ToldFiles {
            rt,
            terminal: Terminal::new(rt, false),
        }
    }

    // Takes the line away that tells of a file which was not read to its end.
    pub(crate) fn clear(&mut self) {
        if let Some(seconds) = self.terminal.due() {
            self.terminal.write(seconds, "");
        }
    }
}

impl<'a> Files for ToldFiles<'a> {
    ghost use Rattle.std.specs.Prelude.{None};

    type Reader = ToldFile<'a>;

    ghost bytes = { λ _ _. None };

    fn open(&self, name: &str) -> Result<ToldFile<'a>, FileFault> {
        match Host::new(self.rt).open(name) {
            Ok(reader) => Ok(ToldFile {
                reader,
                terminal: Terminal::new(self.rt, false),
                bytes: 0,
                is_told: false,
            }),
            Err(fault) => Err(fault),
        }
    }
}

// An open file, of which so many bytes were read.
#[derive(Drop)]
pub(crate) struct ToldFile<'a> {
    reader: Counted<Either<StdinLock<'static>, File>>,
    terminal: Terminal<'a>,
    bytes: u64,
    // A line tells of it.
    is_told: bool,
}

impl Source for ToldFile<'_> {
    ghost use Rattle.std.specs.Prelude.{None};
    ghost use Rattle.ct_streams.specs.Counted.{failures_of};

    ghost left = { λ _. None };

    ghost failures = { λ file. failures_of file.reader };

    fn read(&mut self, buffer: &mut [u8]) -> Result<usize, Failed> {
        let count = self.reader.read(buffer)?;
        self.bytes = self.bytes.saturating_add(count as u64);
        if count == 0 {
            clear(&self.terminal, &mut self.is_told);
        } else if let Some(seconds) = self.terminal.due() {
            let bytes = self.bytes;
            self.terminal.write(seconds, Read { bytes });
            self.is_told = true;
        }
        Ok(count)
    }
}

// Takes the line away, where there is one.
fn clear(terminal: &Terminal<'_>, is_told: &mut bool) {
    if *is_told {
        terminal.clear();
        *is_told = false;
    }
}

// How much was read of a file.
#[derive(Clone, Copy, Drop)]
struct Read {
    bytes: u64,
}

impl fmt::Display for Read {
    fn fmt<W: fmt::Write>(&self, f: &mut fmt::Formatter<W>) -> fmt::Result {
        write!(f, "{} MB read", self.bytes / MILLION)
    }
}
