//! What is asked of logs.

/// What is asked of logs besides, and how it is told.
#[derive(Clone, Copy, Debug, Drop)]
pub struct Asked {
    /// Each process that did not crash has delivered all that one of them broadcast or delivered.
    pub settled: bool,
    /// Messages of one process are delivered in the order in which it broadcast them.
    pub fifo: bool,
    /// What they come to is written as JSON.
    pub json: bool,
    /// What is wrong first is told of each log.
    pub all: bool,
}
