//! What the program reads from.

ghost use Rattle.std.specs.Prelude.{◌≡◌, ◌+◌, ◌<◌, ◌^◌, ℕ, List, Option, OnOk, OnErr};
ghost use Rattle.std.specs.Io.{ReadsAtMost};
ghost use Rattle.std.specs.Io.KnownBytes.{ReadConsumes};

use crate::failed::Failed;

/// What gives bytes, and counts the reads that failed.
pub trait Source {
    // The bytes that are left. None: they are not known.
    ghost left: { Self → Option (List ℕ) };

    // How many reads failed.
    ghost failures: { Self → ℕ };

    /// Reads bytes into the buffer and answers how many; 0 at the end, or for an empty buffer.
    fn read(&mut self, buffer: &mut [u8]) -> Result<usize, Failed>
        requires { failures self.old < 2 ^ 63 }
        ensures bound { ReadsAtMost result buffer.new }
        ensures bytes { ReadConsumes (left self.old) (left self.new) result buffer.new }
        ensures ok { OnOk result (failures self.new ≡ failures self.old) }
        ensures err { OnErr result (failures self.new ≡ failures self.old + 1) };
}
