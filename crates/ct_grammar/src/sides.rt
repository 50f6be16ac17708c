//! The sides of a group that is cut.

ghost use Rattle.std.specs.Prelude.{◌≡◌};
ghost use Rattle.ct_names.specs.Group.{IsMember};
ghost use Rattle.ct_grammar.specs.Sides.{whole, side_of, together, with_member_on};

use ct_names::{MAX_MEMBERS, Member};
use std::marker::Model;

/// On which side of a cut each of the members 1 to 16 is.
#[derive(Clone, Copy, Debug, PartialEq, Eq)]
pub struct Sides {
    sides: [u8; MAX_MEMBERS as usize],
}

// Contracts see the list of the sides of the members 1 to 16.
impl Model for Sides {
    ghost use Rattle.std.specs.Prelude.{ℕ, List};

    ghost Value = { List ℕ };

    ghost view = { λ sides. sides.sides };

    ghost inverse = { λ numbers. record { sides = numbers } };
}

impl Sides {
    /// No cut: all members are on side 0.
    pub fn whole() -> Sides
        ensures { result ≡ whole }
    {
        Sides {
            sides: [0; MAX_MEMBERS as usize],
        }
    }

    /// The member's side: the number of the first member that its set names; 0 for those that no set names, and for a member
    /// that no group has.
    pub fn side(&self, member: Member) -> u8
        ensures { result ≡ side_of self.now member }
    {
        match member {
            1..=MAX_MEMBERS => self.sides[(member - 1) as usize],
            _ => 0,
        }
    }

    /// Whether the two are on the same side.
    pub fn together(&self, p: Member, q: Member) -> bool
        ensures { result ≡ together self.now p q }
    {
        self.side(p) == self.side(q)
    }

    // The sides, where also this member is on that one; None where the member is on a side already.
    pub(crate) fn with(self, member: Member, side: u8) -> Option<Sides>
        requires { IsMember MAX_MEMBERS member }
        ensures { result ≡ with_member_on side self member }
    {
        if self.side(member) != 0 {
            return None;
        }
        let mut sides = self.sides;
        sides[(member - 1) as usize] = side;
        Some(Sides { sides })
    }
}
