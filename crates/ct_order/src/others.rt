//! Logs behind one that stops.

ghost use Rattle.std.specs.Prelude.{◌≡◌, ◌<◌, ◌⊎◌, length};

use crate::reading::read_file;
use crate::stop::Stop;
use crate::table::Table;
use ct_streams::Files;
use std::alloc::{AllocError, Global};

/// Where logs stop behind the first that does.
#[derive(Drop)]
pub(crate) struct Others {
    // Whether they are asked for.
    all: bool,
    /// A line of each that stands in no log, or contradicts one before it.
    pub stops: Vec<Stop>,
}

impl Others {
    pub(crate) fn new(alloc: Global, all: bool) -> Others {
        Others {
            all,
            stops: Vec::new(alloc),
        }
    }

    // Reads the logs behind that of this place, which stops so, where they are asked for. It is why no log is read on, or memory is.
    pub(crate) fn read<F: Files>(
        &mut self,
        alloc: Global,
        files: &F,
        names: &[&str],
        log: u32,
        table: &mut Table,
        piece: &mut [u8],
        stop: Stop,
    ) -> Stop
        requires { 0 < length piece.old }
        ensures { (result ≡ stop) ⊎ (result ≡ Stop.Memory) }
    {
        if !self.all || !is_of_line(&stop) {
            return stop;
        }
        match self.read_rest(alloc, files, names, log, table, piece) {
            Ok(()) => stop,
            Err(_) => {
                drop(stop);
                Stop::Memory
            }
        }
    }

    fn read_rest<F: Files>(
        &mut self,
        alloc: Global,
        files: &F,
        names: &[&str],
        log: u32,
        table: &mut Table,
        piece: &mut [u8],
    ) -> Result<(), AllocError>
        requires { 0 < length piece.old }
    {
        let mut place = 0u32;
        for name in names {
            if place > log {
                self.read_one(alloc, files, name, place, table, piece)?;
            }
            place = place.saturating_add(1);
        }
        Ok(())
    }

    fn read_one<F: Files>(
        &mut self,
        alloc: Global,
        files: &F,
        name: &str,
        log: u32,
        table: &mut Table,
        piece: &mut [u8],
    ) -> Result<(), AllocError>
        requires { 0 < length piece.old }
    {
        match read_file(alloc, files, name, table, log, piece) {
            Err(Stop::Memory) => Err(AllocError),
            Err(stop) if is_of_line(&stop) => Ok(self.stops.push(stop)?),
            _ => Ok(()),
        }
    }
}

// Whether a line is told of.
fn is_of_line(stop: &Stop) -> bool {
    matches!(stop, Stop::Line(_) | Stop::Clash(_))
}
