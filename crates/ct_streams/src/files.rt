//! What the program opens.

ghost use Rattle.std.specs.Prelude.{◌≡◌, ℕ, List, Option, Some, IfOk, IfSome};

use crate::file_fault::FileFault;
use crate::source::Source;

/// What opens files by their names.
pub trait Files {
    /// What is read of an open file.
    type Reader: Source + Drop;

    // The bytes of the file of a name. None: they are not known.
    ghost bytes: { Self → List ℕ → Option (List ℕ) };

    /// Opens the file of this name, to be read from its first byte.
    fn open(&self, name: &str) -> Result<Self::Reader, FileFault>
        ensures bytes { IfOk result (λ reader. IfSome (bytes self.now name.now) (λ all. Self.Reader.left reader ≡ Some all)) }
        ensures unfailed { IfOk result (λ reader. Self.Reader.failures reader ≡ 0) };
}
