//! A number for each member.

ghost use Rattle.std.specs.Prelude.{◌≡◌, ◌≢◌, ◌≤◌, ℕ};
ghost use Rattle.ct_names.specs.declared.limit.TheConstants.{MAX_MEMBERS};
ghost use Rattle.ct_merge.specs.Merging.{count_of};

use crate::progress::MEMBERS;
use ct_names::{MAX_MEMBERS, Member};
use std::marker::Model;

/// A number for each member that a group can have.
#[derive(Drop)]
pub(crate) struct Tally {
    counts: [usize; MEMBERS],
}

// Contracts see the numbers.
impl Model for Tally {
    ghost use Rattle.std.specs.Prelude.{ℕ, List};

    ghost Value = { List ℕ };

    ghost view = { λ t. t.counts };
}

impl Tally {
    /// 0 for each.
    pub(crate) fn new() -> Tally
        ensures { (p : ℕ) → count_of result p ≡ 0 }
    {
        Tally {
            counts: [0; MEMBERS],
        }
    }

    /// The member's number.
    pub(crate) fn get(&self, member: Member) -> usize
        ensures { result ≡ count_of self.now member }
    {
        match self.counts.get(usize::from(member).saturating_sub(1)) {
            Some(count) => *count,
            None => 0,
        }
    }

    /// The member's number is this.
    pub(crate) fn set(&mut self, member: Member, count: usize)
        requires some { 1 ≤ member }
        requires few { member ≤ MAX_MEMBERS }
        ensures here { count_of self.new member ≡ count }
        ensures elsewhere { (q : ℕ) → 1 ≤ q → q ≢ member → count_of self.new q ≡ count_of self.old q }
    {
        self.counts[usize::from(member) - 1] = count;
    }
}
