//! Logs that grow.

ghost use Rattle.std.specs.Prelude.{◌≡◌, IfSome};
ghost use Rattle.std.proofs.Props.{props};
ghost use Rattle.std.specs.Io.{ReadsAtMost};

use crate::reading::{Judged, LogEnd, piece};
use crate::scan::Scan;
use crate::stop::Stop;
use crate::table::Table;
use ct_streams::{Failed, FileChange, FileFault, Files, Pace, Source};
use std::alloc::{AllocError, Global};

/// Why logs are not followed on.
#[derive(Drop)]
pub(crate) enum Halt {
    /// One of them stops.
    Stop(Stop),
    /// The file of the log of this place, from 0, is another now.
    Change(u32, FileChange),
}

impl From<AllocError> for Halt {
    fn from(_error: AllocError) -> Halt {
        Halt::Stop(Stop::Memory)
    }
}

/// A log that grows.
#[derive(Drop)]
struct Tail<R: Source + Drop> {
    // None where a read failed.
    reader: Option<R>,
    scan: Scan,
    // How many bytes were read.
    count: usize,
    ghost unfailed: { IfSome reader (λ r. R.failures r ≡ 0) } by { Prim.hlevel props },
}

// Reads the files of these names as logs, as they grow, until each says that it is whole, or for as long as the pace says.
pub(crate) fn follow_logs<F: Files, P: Pace>(
    alloc: Global,
    files: &F,
    names: &[&str],
    pace: &mut P,
) -> Result<Judged, Halt> {
    let mut tails = Vec::new(alloc);
    let mut table = Table::new(alloc);
    let read = read_all(alloc, files, names, pace, &mut tails, &mut table);
    let ends = ends_of(alloc, &tails);
    drop(tails);
    match (read, ends) {
        (Ok(()), Ok(ends)) => Ok(Judged { table, ends }),
        (Err(halt), _) => Err(halt),
        (_, Err(_)) => Err(Halt::Stop(Stop::Memory)),
    }
}

// Where the logs end.
fn ends_of<R: Source + Drop>(alloc: Global, tails: &[Tail<R>]) -> Result<Vec<LogEnd>, AllocError> {
    let mut ends = Vec::new(alloc);
    for tail in tails {
        ends.push(LogEnd {
            standing: tail.scan.standing(),
            is_torn: tail.scan.is_torn(),
        })?;
    }
    Ok(ends)
}

// Opens the files and reads what they have.
fn read_all<F: Files, P: Pace>(
    alloc: Global,
    files: &F,
    names: &[&str],
    pace: &mut P,
    tails: &mut Vec<Tail<F::Reader>>,
    table: &mut Table,
) -> Result<(), Halt> {
    let mut log = 0u32;
    for name in names {
        let tail = match files.open(name) {
            Ok(reader) => Tail {
                reader: Some(reader),
                scan: Scan::new(alloc),
                count: 0,
            },
            Err(fault) => return Err(Halt::Stop(Stop::File(log, fault))),
        };
        if tails.push(tail).is_err() {
            return Err(Halt::Stop(Stop::Memory));
        }
        log = log.saturating_add(1);
    }
    let mut piece = piece(alloc)?;
    watch(alloc, names, pace, tails, table, &mut piece)
}

// Reads what the files have, so many bytes of each at a time as the piece has.
fn watch<R: Source + Drop, P: Pace>(
    alloc: Global,
    names: &[&str],
    pace: &mut P,
    tails: &mut [Tail<R>],
    table: &mut Table,
    piece: &mut [u8],
) -> Result<(), Halt> {
    for _ in 0..u64::MAX {
        let (bytes, lines) = look(alloc, tails, table, piece)?;
        if tails.iter().all(|tail| tail.scan.standing().is_whole) {
            return Ok(());
        }
        if bytes == 0 {
            see_changes(names, pace, tails)?;
        }
        if !pace.goes_on(bytes, lines) {
            return Ok(());
        }
    }
    Ok(())
}

// A file that is another now.
fn see_changes<R: Source + Drop, P: Pace>(
    names: &[&str],
    pace: &P,
    tails: &[Tail<R>],
) -> Result<(), Halt> {
    let mut log = 0u32;
    for (name, tail) in names.iter().zip(tails) {
        if let Some(change) = pace.change(log as usize, name, tail.count) {
            return Err(Halt::Change(log, change));
        }
        log = log.saturating_add(1);
    }
    Ok(())
}

// Reads some bytes of each. How many came, and how many lines.
fn look<R: Source + Drop>(
    alloc: Global,
    tails: &mut [Tail<R>],
    table: &mut Table,
    piece: &mut [u8],
) -> Result<(usize, usize), Halt> {
    let mut bytes = 0usize;
    let mut lines = 0usize;
    let mut log = 0u32;
    for tail in tails {
        let before = tail.scan.standing().count;
        match tail.read(alloc, table, log, piece) {
            Ok(count) => {
                bytes = bytes.saturating_add(count);
                let more = tail.scan.standing().count.saturating_sub(before);
                lines = lines.saturating_add(more as usize);
            }
            Err(stop) => return Err(Halt::Stop(stop)),
        }
        log = log.saturating_add(1);
    }
    Ok((bytes, lines))
}

impl<R: Source + Drop> Tail<R> {
    // Reads some bytes more, as the log of this place. How many came.
    fn read(
        &mut self,
        alloc: Global,
        table: &mut Table,
        log: u32,
        piece: &mut [u8],
    ) -> Result<usize, Stop> {
        let Ok(count) = self.read_bytes(piece) else {
            return Err(Stop::File(log, FileFault::Read));
        };
        self.scan.take(alloc, table, log, &piece[..count])?;
        self.count = self.count.saturating_add(count);
        Ok(count)
    }

    // Reads some bytes. How many came.
    fn read_bytes(&mut self, piece: &mut [u8]) -> Result<usize, Failed>
        ensures { ReadsAtMost result piece.new }
    {
        let Some(mut reader) = self.reader.take() else {
            return Err(Failed);
        };
        let count = reader.read(piece)?;
        self.reader = Some(reader);
        Ok(count)
    }
}
