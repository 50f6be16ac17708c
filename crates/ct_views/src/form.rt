//! How steps and states are written.

/// How steps and states are written.
#[derive(Clone, Copy, Debug, Drop, PartialEq, Eq)]
pub enum Form {
    /// As text for people.
    Text,
    /// As JSON, an object a line.
    Json,
}
