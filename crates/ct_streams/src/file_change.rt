//! What becomes of files that are followed.

/// What became of a file that is followed.
#[derive(Clone, Copy, Debug, PartialEq, Eq)]
pub enum FileChange {
    /// Another file has its name.
    Replaced,
    /// No file has its name.
    Removed,
    /// It is shorter than what was read of it.
    Shorter,
}

impl FileChange {
    /// What is told behind the file's name.
    pub fn told(self) -> &'static str {
        match self {
            FileChange::Replaced => "replaced",
            FileChange::Removed => "removed",
            FileChange::Shorter => "shorter than what was read of it",
        }
    }
}
