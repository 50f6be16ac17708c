//! What goals are made of.

use crate::claim::Claim;
use ct_names::{Member, MemberSet};

/// A term of a goal: `any round >= 4`, `never 2 crashed`.
#[derive(Drop)]
pub struct Term {
    /// At which of the beginnings of the run.
    pub when: When,
    /// Of whom it has to hold.
    pub whom: Whom,
    /// What has to hold.
    pub claim: Claim,
}

/// At which of the beginnings of a run a claim holds; the whole run and the one without steps are two of them.
#[derive(Clone, Copy, Debug, PartialEq, Eq)]
pub enum When {
    /// At the whole run: its last state, or its last step.
    Now,
    /// `ever`: at one of them.
    Ever,
    /// `never`: at none of them.
    Never,
}

/// Of whom a claim has to hold.
#[derive(Clone, Copy, Debug, PartialEq, Eq)]
pub enum Whom {
    /// `2`
    One(Member),
    /// `1,3`: of each of these.
    Some(MemberSet),
    /// `all`: of each member of the group.
    All,
    /// `any`: of one member of the group.
    Any,
    /// `up`: of each member of the group that has not crashed.
    Up,
}
