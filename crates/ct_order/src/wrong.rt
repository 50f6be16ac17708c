//! What is wrong with logs.

/// What is wrong with logs.
#[derive(Clone, Copy, Debug, Drop)]
pub enum Wrong {
    /// A line stands in no log.
    NoLog,
    /// A log has too many lines, or its process too many deliveries.
    Limit,
    /// They are not those of one atomic broadcast.
    Refused,
    /// A message is delivered whose broadcast may stand in a log that is cut.
    Incomplete,
    /// A process that did not crash lacks a message.
    Unsettled,
    /// A message is delivered before another that its process broadcast before it.
    Overtaken,
}

impl Wrong {
    // The word for it.
    pub(crate) fn word(self) -> &'static str {
        match self {
            Wrong::NoLog => "no log",
            Wrong::Limit => "limit",
            Wrong::Refused => "refused",
            Wrong::Incomplete => "incomplete",
            Wrong::Unsettled => "unsettled",
            Wrong::Overtaken => "overtaken",
        }
    }
}
