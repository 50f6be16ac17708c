//! What the program writes to.

ghost use Rattle.std.specs.Prelude.{◌≡◌, ◌+◌, ◌<◌, ◌^◌, ℕ, List, Option, length, IfOk, OnOk, OnErr};
ghost use Rattle.std.specs.Io.{WritesAtMost};
ghost use Rattle.std.specs.Io.KnownBytes.{WriteAppends};

use crate::failed::Failed;

/// What takes bytes, and counts the writes that failed.
pub trait Sink {
    // The bytes that it holds. None: they are not known.
    ghost written: { Self → Option (List ℕ) };

    // How many writes failed.
    ghost failures: { Self → ℕ };

    /// Writes some of the bytes, the first ones, and answers how many: at least one where there are any. A write that
    /// fails has written none.
    fn write(&mut self, bytes: &[u8]) -> Result<usize, Failed>
        requires { failures self.old < 2 ^ 63 }
        ensures bound { WritesAtMost result bytes.now }
        ensures some { IfOk result (λ n. 0 < length bytes.now → 0 < n) }
        ensures bytes { WriteAppends (written self.old) (written self.new) result bytes.now }
        ensures ok { OnOk result (failures self.new ≡ failures self.old) }
        ensures err { OnErr result (failures self.new ≡ failures self.old + 1) };
}
