//! Where logs stand.

use crate::verdict::Why;
use ct_names::Member;

/// Why the next line of a log is not taken.
#[derive(Drop)]
pub enum Stand {
    /// For this reason, whatever the other logs go on with.
    Own(Why),
    /// It receives what was not sent; the log of this member, which may still send it, is not over.
    For(Member),
}
