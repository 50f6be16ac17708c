//! What one step sends.

use crate::wire::Wire;
use ct_names::{Member, ValueId};

/// What one step sends.
#[derive(Clone, Copy, Debug, PartialEq, Eq)]
pub enum Mail<V = ValueId> {
    /// Nothing.
    Nobody,
    /// One envelope, to this member.
    One(Member, Wire<V>),
    /// One envelope to each member of the group.
    All(Wire<V>),
}
