//! Which steps are drawn, and what of them.

ghost use Rattle.std.specs.Prelude.{◌≡◌, ◌<◌, ◌+◌, ◌-◌, ◌^◌, ◌&&◌, ◌||◌, not};
ghost use Rattle.std.specs.Prelude.{find};
ghost use Rattle.ct_names.specs.Group.{everyone, is_member};
ghost use Rattle.ct_names.specs.MemberSet.{has_member};
ghost use Rattle.ct_diagram.specs.Window.{is_drawn, has_named, is_data, is_sent_asked, stranger_of};

use ct_names::{Group, MAX_MEMBERS, Member, MemberSet};
use ct_world::Wire;

/// How many steps a diagram has at most.
pub const MOST_STEPS: usize = 400;

// The numbers that a member may have.
const EVERYONE: [Member; MAX_MEMBERS as usize] = [
    1, 2, 3, 4, 5, 6, 7, 8, 9, 10, 11, 12, 13, 14, 15, 16,
];

/// The steps from one number to another, counted from 1, both of them drawn, in rows.
#[derive(Clone, Copy, Debug, Drop, PartialEq, Eq)]
pub struct Window {
    /// The number of the first step.
    pub from: u32,
    /// The number of the last step.
    pub to: u32,
    /// How many columns a row has; 0 as 1.
    pub columns: u16,
    /// The members whose steps and envelopes are drawn, where not all are.
    pub members: Option<MemberSet>,
    /// Whether messages alone, and what is done with them, are left out.
    pub consensus: bool,
}

impl Window {
    // Whether the step of this number is one of them.
    pub(crate) fn has(&self, number: usize) -> bool
        ensures { result ≡ is_drawn self.now number }
    {
        self.from as usize <= number && number <= self.to as usize
    }

    // How many of them a record has whose steps up to the window's last one are so many.
    pub(crate) fn steps(&self, end: usize) -> usize
        requires { end < 2 ^ 63 }
        ensures { result ≡ (end + 1) - self.now.from }
    {
        (end + 1).saturating_sub(self.from as usize)
    }

    // Whether the steps of the member are drawn.
    pub(crate) fn names(&self, member: Member) -> bool
        ensures { result ≡ has_named self.now.members member }
    {
        match self.members {
            None => true,
            Some(set) => set.contains(member),
        }
    }

    // The first member that is named and that the group lacks.
    pub(crate) fn stranger(&self, group: Group) -> Option<Member>
        ensures { result ≡ stranger_of group self.now.members }
    {
        match self.members {
            None => None,
            Some(set) => stranger(group, set),
        }
    }

    // Whether the envelope with this wire from one member to another is drawn.
    pub(crate) fn has_wire(&self, from: Member, to: Member, wire: &Wire) -> bool
        ensures { result ≡ is_sent_asked self.now from to wire.now }
    {
        (self.names(from) || self.names(to)) && !(self.consensus && is_data(wire))
    }
}

// The first member of the set that the group lacks.
#[tactic(auto, unfolding(ct_names::specs::Group::members))]
fn stranger(group: Group, set: MemberSet) -> Option<Member>
    ensures { result ≡ find (λ p. has_member set p && not (is_member group p)) everyone }
{
    EVERYONE
        .iter()
        .copied()
        .find(|member| set.contains(*member) && !group.has(*member))
}

// Whether the wire is a message alone.
pub(crate) fn is_data(wire: &Wire) -> bool
    ensures { result ≡ is_data wire.now }
{
    match wire {
        Wire::Data(_) => true,
        _ => false,
    }
}
