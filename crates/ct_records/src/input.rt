//! A source, read in pieces.

ghost use Rattle.std.specs.Prelude.{◌≡◌, ◌≤◌, ◌<◌, ◌+◌, ◌^◌, [], false, true, Err, length, take, vec_len, OnErr, IfOk, OnOk};
ghost use Rattle.std.specs.Io.KnownBytes.{IsAtEnd};
ghost use Rattle.ct_streams.specs.Streams.{FailsOnce};
ghost use Rattle.ct_records.specs.Front.{Advances, IsEnough};

use ct_streams::{InputFault, Source};
use std::alloc::Global;

// How many bytes are read at a time.
const PIECE: usize = 65_536;

/// Room for one read, and for what an earlier one left.
pub(crate) fn piece(alloc: Global) -> Result<Vec<u8>, InputFault>
    ensures room { IfOk result (λ piece. 1024 < vec_len piece) }
    ensures err { OnErr result (result ≡ Err InputFault.Memory) }
{
    match vec![in alloc; 0u8; PIECE] {
        Ok(piece) => Ok(piece),
        Err(_) => Err(InputFault::Memory),
    }
}

/// What was read of a source and not used yet, and how many bytes were read in all.
#[derive(Drop)]
pub(crate) struct Input {
    pub bytes: Vec<u8>,
    pub count: usize,
}

impl Input {
    /// Nothing was read.
    pub(crate) fn new(alloc: Global) -> Input
        ensures bytes { result.bytes.items ≡ [] }
        ensures count { result.count ≡ 0 }
    {
        Input {
            bytes: Vec::new(alloc),
            count: 0,
        }
    }

    /// Reads once behind what is not used yet; how long both are, which stand at the front of the piece.
    pub(crate) fn read_behind<R: Source>(
        &mut self,
        reader: &mut R,
        piece: &mut [u8],
    ) -> Result<usize, InputFault>
        requires few { self.old.count ≤ 67108864 }
        requires count { R.failures reader.old < 2 ^ 63 }
        requires room { vec_len self.old.bytes < length piece.old }
        ensures within { IfOk result (λ end. end ≤ length piece.new) }
        ensures read { IfOk result (λ end. Advances (R.left reader.old) (R.left reader.new) self.old.bytes.items
            (take end piece.new) self.old.count self.new.count) }
        ensures end { IfOk result (λ end. end ≤ vec_len self.old.bytes → IsAtEnd (R.left reader.new)) }
        ensures same { self.new.bytes ≡ self.old.bytes }
        ensures failures { FailsOnce result InputFault.Reader (R.failures reader.old) (R.failures reader.new) }
    {
        let kept = self.bytes.len();
        piece[..kept].copy_from_slice(&self.bytes);
        let Ok(n) = reader.read(&mut piece[kept..]) else {
            return Err(InputFault::Reader);
        };
        self.count += n;
        Ok(kept + n)
    }

    /// Only these bytes are not used yet.
    pub(crate) fn keep(&mut self, bytes: &[u8]) -> Result<(), InputFault>
        ensures bytes { OnOk result (self.new.bytes.items ≡ bytes.now) }
        ensures count { self.new.count ≡ self.old.count }
        ensures err { OnErr result (result ≡ Err InputFault.Memory) }
    {
        self.bytes.clear();
        match self.bytes.extend_from_slice(bytes) {
            Ok(()) => Ok(()),
            Err(_) => Err(InputFault::Memory),
        }
    }

    /// Reads until so many bytes were read and no more, or to the end.
    pub(crate) fn read_up_to<R: Source>(
        &mut self,
        reader: &mut R,
        piece: &mut [u8],
        wanted: usize,
    ) -> Result<(), InputFault>
        requires few { wanted ≤ 67108865 }
        requires count { R.failures reader.old < 2 ^ 63 }
        requires room { 0 < length piece.old }
        ensures read { OnOk result (Advances (R.left reader.old) (R.left reader.new) self.old.bytes.items self.new.bytes.items
            self.old.count self.new.count) }
        ensures enough { OnOk result (IsEnough wanted (R.left reader.new) self.new.count) }
        ensures most { self.old.count ≤ wanted → OnOk result (self.new.count ≤ wanted) }
        ensures failures { FailsOnce result InputFault.Reader (R.failures reader.old) (R.failures reader.new) }
    {
        while self.count < wanted {
            let most = piece.len().min(wanted - self.count);
            if !self.read_more(reader, &mut piece[..most])? {
                return Ok(());
            }
        }
        Ok(())
    }

    // Reads once; whether that was any byte.
    fn read_more<R: Source>(&mut self, reader: &mut R, piece: &mut [u8]) -> Result<bool, InputFault>
        requires few { self.old.count + length piece.old ≤ 67108865 }
        requires count { R.failures reader.old < 2 ^ 63 }
        requires room { 0 < length piece.old }
        ensures read { OnOk result (Advances (R.left reader.old) (R.left reader.new) self.old.bytes.items self.new.bytes.items
            self.old.count self.new.count) }
        ensures more { IfOk result (λ more. more ≡ true → self.old.count < self.new.count) }
        ensures most { OnOk result (self.new.count ≤ self.old.count + length piece.old) }
        ensures end { IfOk result (λ more. more ≡ false → IsAtEnd (R.left reader.new)) }
        ensures failures { FailsOnce result InputFault.Reader (R.failures reader.old) (R.failures reader.new) }
    {
        let Ok(n) = reader.read(piece) else {
            return Err(InputFault::Reader);
        };
        let before = self.bytes.len();
        if self.bytes.extend_from_slice(&piece[..n]).is_err() {
            return Err(InputFault::Memory);
        }
        self.count += self.bytes.len() - before;
        Ok(n > 0)
    }
}
