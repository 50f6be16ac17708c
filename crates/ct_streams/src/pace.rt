//! How long files are followed.

use crate::file_change::FileChange;

/// Who says how long files that grow are followed, and sees what becomes of them.
pub trait Pace {
    /// So many bytes and lines came since this was asked last. Whether to look again; where nothing came, a while later.
    fn goes_on(&mut self, bytes: usize, lines: usize) -> bool;

    /// What became of the file at this place among those that are followed, counted from 0, and of this name, of which so many bytes were
    /// read; None where it goes on. It is asked where nothing came.
    fn change(&self, place: usize, name: &str, bytes: usize) -> Option<FileChange>;
}
