//! Why runs fail.

/// Why a run did not make all its turns.
#[derive(Clone, Copy, Debug, PartialEq, Eq)]
pub enum RunFault {
    /// Memory for the run itself was refused; no thread was started.
    Memory,
    /// A thread could not be started; those that were started made their turns and were taken in.
    Start,
}
