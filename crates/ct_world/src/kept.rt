//! What a world keeps.

ghost use Rattle.std.specs.Prelude.{◌≡◌, ◌≤◌, length, map, is_some, IfSome};
ghost use Rattle.ct_names.specs.Group.{is_member};
ghost use Rattle.ct_model.specs.Cause.{order};
ghost use Rattle.ct_model.specs.Rehearsal.{state_of};
ghost use Rattle.ct_world.specs.Kept.{IsSeatOf, IsSound, rehearsal_of};

use crate::seat::Seat;
use ct_model::Step;
use ct_names::{Book, Group, MAX_CELLS, Member};
use ct_network::Network;
use std::alloc::Global;

mod begin;
mod closing;
mod crash;
mod enabling;
mod line;
mod preparing;
mod receive;
mod repeat;
mod round;
mod steps;
mod submit;

/// What a world keeps: what is fixed, the record of its steps, and what they led to.
#[derive(Drop)]
pub(crate) struct Kept {
    /// The group.
    pub group: Group,
    /// The number of cells for batches.
    pub cells: u16,
    /// How many messages a member proposes at most.
    pub bound: u32,
    /// The record.
    pub steps: Vec<Step>,
    /// What was sent, and what waits at each member.
    pub network: Network,
    /// The values proposed, in order.
    pub book: Book,
    /// What is kept of each member.
    pub seats: Vec<Seat>,
    /// Where memory comes from.
    pub alloc: Global,
}

impl Kept {
    /// What is kept of a member.
    pub(crate) fn seat(&self, member: Member) -> Option<&Seat>
        requires { IsSound self.now }
        ensures there { is_some result ≡ is_member self.now.group member }
        ensures seat { IfSome result (λ seat. IsSeatOf (rehearsal_of self.now) member seat.now) }
    {
        let place = (member as usize).checked_sub(1)?;
        self.seats.get(place)
    }

    /// The seat of the least of the members that delivered most batches.
    pub(crate) fn foremost(&self) -> &Seat
        requires { IsSound self.now }
        ensures value { result.now.caster.batches ≡ map (λ b. b.messages) (order (state_of (rehearsal_of self.now))) }
        ensures few { length result.now.caster.batches ≤ MAX_CELLS }
    {
        let mut best = 0;
        for i in 1..usize::from(self.group.n()) {
            if self.seats[best].caster.batches() < self.seats[i].caster.batches() {
                best = i;
            }
        }
        &self.seats[best]
    }
}
