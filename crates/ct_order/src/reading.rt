//! From files to what their logs say.

ghost use Rattle.std.specs.Prelude.{◌≡◌, ◌<◌, ◌^◌, ℕ, IfOk, List, Some, length, map, vec_len};
ghost use Rattle.ct_order.specs.Reading.{AreRead, AreTexts, EndsAs, IsScanned};

use crate::others::Others;
use crate::scan::Scan;
use crate::standing::Standing;
use crate::stop::Stop;
use crate::table::Table;
use ct_streams::{FileFault, Files, Source};
use std::alloc::{AllocError, Global};

// How many bytes are read at a time.
pub(crate) const PIECE: usize = 65_536;

/// Where a log ends.
#[derive(Clone, Copy, Debug, Drop)]
pub struct LogEnd {
    pub standing: Standing,
    /// Its last line has no line feed, and is left out.
    pub is_torn: bool,
}

/// What logs say, all of which were read.
#[derive(Drop)]
pub struct Judged {
    pub table: Table,
    /// Where each ends, in the order of the logs.
    pub ends: Vec<LogEnd>,
}

/// Reads the files of these names as logs, in their order. Where one stops, the others are read all the same if all stops are asked for,
/// and theirs are put among the others.
pub(crate) fn read_logs<F: Files>(
    alloc: Global,
    files: &F,
    names: &[&str],
    others: &mut Others,
) -> Result<Judged, Stop>
    requires { length names.now < 2 ^ 31 }
    ensures { (texts : List (List ℕ)) → AreTexts (F.bytes files.now) (map (λ name. name.now) names.now) texts → AreRead texts result }
{
    match piece(alloc) {
        Ok(mut piece) => read_by(alloc, files, names, others, &mut piece),
        Err(_) => Err(Stop::Memory),
    }
}

// Room for one read.
pub(crate) fn piece(alloc: Global) -> Result<Vec<u8>, AllocError>
    ensures { IfOk result (λ piece. 0 < vec_len piece) }
{
    match vec![in alloc; 0u8; PIECE] {
        Ok(piece) => Ok(piece),
        Err(_) => Err(AllocError),
    }
}

// Reads the files, so many bytes at a time as the piece has.
fn read_by<F: Files>(
    alloc: Global,
    files: &F,
    names: &[&str],
    others: &mut Others,
    piece: &mut [u8],
) -> Result<Judged, Stop>
    requires few { length names.now < 2 ^ 31 }
    requires room { 0 < length piece.old }
    ensures { (texts : List (List ℕ)) → AreTexts (F.bytes files.now) (map (λ name. name.now) names.now) texts → AreRead texts result }
{
    let mut table = Table::new(alloc);
    let mut ends = Vec::new(alloc);
    for name in names {
        let log = ends.len() as u32;
        match read_file(alloc, files, name, &mut table, log, piece) {
            Ok(end) => match ends.push(end) {
                Ok(()) => {}
                Err(_) => return Err(Stop::Memory),
            },
            Err(stop) => {
                return Err(others.read(alloc, files, names, log, &mut table, piece, stop));
            }
        }
    }
    Ok(Judged { table, ends })
}

// Reads the file of this name, as the log of this place.
pub(crate) fn read_file<F: Files>(
    alloc: Global,
    files: &F,
    name: &str,
    table: &mut Table,
    log: u32,
    piece: &mut [u8],
) -> Result<LogEnd, Stop>
    requires { 0 < length piece.old }
    ensures { (text : List ℕ) → F.bytes files.now name.now ≡ Some text → EndsAs log table.old text table.new result }
{
    match files.open(name) {
        Ok(mut reader) => match read_log(alloc, table, log, &mut reader, piece) {
            Ok(scan) => Ok(LogEnd {
                standing: scan.standing(),
                is_torn: scan.is_torn(),
            }),
            Err(stop) => Err(stop),
        },
        Err(fault) => Err(Stop::File(log, fault)),
    }
}

// Reads what the reader has, as the log of this place.
fn read_log<R: Source>(
    alloc: Global,
    table: &mut Table,
    log: u32,
    reader: &mut R,
    piece: &mut [u8],
) -> Result<Scan, Stop>
    requires count { R.failures reader.old < 2 ^ 63 }
    requires room { 0 < length piece.old }
    ensures { (text : List ℕ) → R.left reader.old ≡ Some text → IsScanned log table.old text table.new result }
{
    let mut scan = Scan::new(alloc);
    for turn in 0..u64::MAX {
        // The loop is named by it.
        let _ = turn;
        let Ok(count) = reader.read(piece) else {
            return Err(Stop::File(log, FileFault::Read));
        };
        if count == 0 {
            return Ok(scan);
        }
        match scan.take(alloc, table, log, &piece[..count]) {
            Ok(()) => {}
            Err(stop) => return Err(stop),
        }
    }
    Err(Stop::File(log, FileFault::Read))
}
