//! Files that the program makes.

ghost use Rattle.std.specs.Prelude.{◌≡◌, ◌+◌, ◌<◌, ◌^◌, ℕ, List, Option, OnOk, OnErr};
ghost use Rattle.ct_streams.specs.NewFiles.{Makes, MakesPart};

use crate::failed::Failed;

/// What makes files, and counts those that could not be made.
pub trait NewFiles {
    // The files that were made, in order, each with its name and its bytes. None: they are not known.
    ghost made: { Self → Option (List (List ℕ × List ℕ)) };

    // How many could not be made.
    ghost failures: { Self → ℕ };

    /// Makes the file of this name, with these bytes; what a file of that name had is gone. Where that fails, no file was
    /// made, or one with some first ones of the bytes.
    fn make(&mut self, name: &str, bytes: &[u8]) -> Result<(), Failed>
        requires { failures self.old < 2 ^ 63 }
        ensures bytes { OnOk result (Makes (made self.old) (made self.new) name.now bytes.now) }
        ensures part { OnErr result (MakesPart (made self.old) (made self.new) name.now bytes.now) }
        ensures ok { OnOk result (failures self.new ≡ failures self.old) }
        ensures err { OnErr result (failures self.new ≡ failures self.old + 1) };
}
