//! The messages of a value, as a line lists them.

use super::names::Names;

/// The messages of a value: these, as `{1.1,2.1}`, or these and so many more, as `{1.1,2.1 and 3 more}`.
#[derive(Drop)]
pub struct Listed {
    /// The messages that are named.
    pub names: Names,
    /// How many others there are.
    pub more: u32,
}
