//! Which members a line is about.

use ct_names::{Member, MemberSet};

/// Which members a line is about.
#[derive(Clone, Copy, Debug, PartialEq, Eq)]
pub enum Who {
    /// `2`
    One(Member),
    /// `1,3`: each of these, rising.
    Some(MemberSet),
    /// `all`: each member that is up at its turn, rising.
    All,
}
