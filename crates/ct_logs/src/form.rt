//! The forms in which a run is written.

/// As what a merged run is written.
#[derive(Clone, Copy, Debug, PartialEq, Eq)]
pub enum Form {
    /// A schedule.
    Schedule,
    /// A record.
    Record,
}
