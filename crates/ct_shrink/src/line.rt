//! Lines of runs that are made smaller.

use ct_grammar::Act;
use ct_names::Member;

/// A step of a run, so named that it can be taken in another run too: an envelope goes by what it carries and its sender.
#[derive(Clone, Copy, Debug, PartialEq, Eq)]
pub struct Line {
    /// Who takes it.
    pub member: Member,
    /// What the member does.
    pub act: Act,
}
