//! Groups of members.

ghost use Rattle.std.specs.Prelude.{◌≡◌, ◌≤◌, ◌↔◌, IsSome, IfSome};
ghost use Rattle.ct_names.specs.Group.{is_member, majority, coordinator};

use crate::limit::MAX_MEMBERS;
use crate::numbers::{Member, Round};
use std::marker::Model;

/// A group of 1 to [`MAX_MEMBERS`] members, numbered from 1.
#[derive(Clone, Copy, Debug, PartialEq, Eq)]
pub struct Group {
    members: u8,
}

// Contracts see the number of members.
impl Model for Group {
    ghost use Rattle.std.specs.Prelude.{ℕ, ◌≤◌};
    ghost use Rattle.ct_names.specs.declared.limit.TheConstants.{MAX_MEMBERS};

    ghost Value = { ℕ };

    ghost view = { λ group. group.members };

    ghost invariant = { λ group. (1 ≤ group.members) × (group.members ≤ MAX_MEMBERS) };

    ghost inverse = { λ n. record { members = n } };
}

impl Group {
    /// The group of the members 1 to `n`. None unless `n` is 1 to [`MAX_MEMBERS`].
    pub fn new(n: u8) -> Option<Group>
        ensures valid { IsSome result ↔ ((1 ≤ n) × (n ≤ MAX_MEMBERS)) }
        ensures value { IfSome result (λ group. group ≡ n) }
    {
        if n >= 1 && n <= MAX_MEMBERS {
            Some(Group { members: n })
        } else {
            None
        }
    }

    /// The number of members.
    pub fn n(self) -> u8
        ensures value { result ≡ self }
        ensures at_least_one { 1 ≤ result }
        ensures at_most { result ≤ MAX_MEMBERS }
    {
        self.members
    }

    /// How many members make a majority: more than half (Chandra and Toueg, section 6.2).
    pub fn majority(self) -> u8
        ensures { result ≡ majority self }
    {
        self.n() / 2 + 1
    }

    /// Whether the member is one of the group's.
    pub fn has(self, member: Member) -> bool
        ensures { result ≡ is_member self member }
    {
        1 <= member && member <= self.members
    }

    /// The member that coordinates a round: each in its turn (Chandra and Toueg, section 6.2).
    pub fn coordinator(self, round: Round) -> Member
        ensures coordinator { result ≡ coordinator self round }
        ensures at_least_one { 1 ≤ result }
        ensures at_most_n { result ≤ self }
    {
        (round % u32::from(self.members)) as u8 + 1
    }
}
