//! Sets of members.

ghost use Rattle.std.specs.Prelude.{◌≡◌, ◌≤◌, ◌==◌, [], length, filter};
ghost use Rattle.ct_names.specs.Group.{everyone, IsMember};
ghost use Rattle.ct_names.specs.MemberSet.{has_member, with_member};

use crate::limit::MAX_MEMBERS;
use crate::numbers::Member;
use std::marker::Model;

/// A set of the members 1 to 16, as 16 bits.
#[derive(Clone, Copy, Debug, PartialEq, Eq)]
pub struct MemberSet {
    // Member 1 has the lowest bit.
    bits: u16,
}

// Contracts see the members in rising order.
impl Model for MemberSet {
    ghost use Rattle.std.specs.Prelude.{◌≡◌, ℕ, List};
    ghost use Rattle.ct_names.specs.MemberSet.{members_of, bits_of};

    ghost Value = { List ℕ };

    ghost view = { λ set. members_of set.bits };

    ghost invariant = { λ set. bits_of (members_of set.bits) ≡ set.bits };

    ghost inverse = { λ set. record { bits = bits_of set } };

    ghost inverse_ok = { λ set h i. record { bits = h i } };
}

impl MemberSet {
    /// The set with no members.
    pub fn new() -> MemberSet
        ensures { result ≡ [] }
    {
        MemberSet { bits: 0 }
    }

    /// Adds the member, 1 to 16, if it isn't there.
    pub fn insert(&mut self, member: Member)
        requires { IsMember MAX_MEMBERS member }
        ensures { self.new ≡ with_member self.old member }
    {
        self.bits |= 1 << (member - 1);
    }

    /// Whether the member is in the set: false of 0 and of 17 on.
    pub fn contains(&self, member: Member) -> bool
        ensures value { result ≡ has_member self.now member }
        ensures members { self.now ≡ filter (has_member self.now) everyone }
    {
        let bits = self.bits;
        match member {
            1..=MAX_MEMBERS => (bits >> (member - 1)) & 1 == 1,
            _ => false,
        }
    }

    /// The number of members, 0 to 16.
    pub fn len(&self) -> u8
        ensures value { result ≡ length self.now }
        ensures at_most { result ≤ MAX_MEMBERS }
        ensures members { self.now ≡ filter (has_member self.now) everyone }
    {
        self.bits.count_ones() as u8
    }

    /// Whether it has no members.
    pub fn is_empty(&self) -> bool
        ensures { result ≡ (length self.now == 0) }
    {
        self.len() == 0
    }
}

impl Default for MemberSet {
    fn default() -> MemberSet
        ensures { result ≡ [] }
    {
        MemberSet::new()
    }
}
