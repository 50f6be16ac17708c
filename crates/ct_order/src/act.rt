//! What lines of logs say.

/// What a line of a log says that its process did; the word of the line is that of a message, or of a state.
#[derive(Clone, Copy, Debug, Drop, PartialEq, Eq)]
pub enum Act {
    /// It broadcast the message.
    Broadcast,
    /// It delivered the message.
    Deliver,
    /// This is its state behind the deliveries so far.
    State,
    /// It took over a snapshot of so many deliveries.
    From(u32),
    /// It goes on behind so many deliveries.
    Restart(u32),
    /// It crashed.
    Crash,
    /// The log is whole.
    End,
}
