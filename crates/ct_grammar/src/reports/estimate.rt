//! Estimates, by the names of their messages.

use super::names::Names;
use ct_names::Round;

/// An estimate, as `{1.1,3.1} ts 2`.
#[derive(Drop)]
pub struct Estimate {
    /// The messages of the value.
    pub names: Names,
    /// The round in which it was adopted, 0 where it was in none.
    pub ts: Round,
}
