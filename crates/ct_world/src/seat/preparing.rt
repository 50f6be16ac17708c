//! Room at a seat, the only calls that take memory. What is kept stays, also where memory is refused.

ghost use Rattle.std.specs.Prelude.{◌≡◌, ◌+◌, ◌≤◌, true, take, IfOk, OnOk};
ghost use Rattle.ct_abcast.specs.Cast.{undelivered};
ghost use Rattle.ct_instances.specs.Kept.{has_room_open};
ghost use Rattle.ct_world.specs.Seats.{CanReceive, content, is_new};

use crate::seat::Seat;
use ct_names::{MAX_INSTANCES, MsgSet};
use ct_rounds::Wire;
use std::alloc::{AllocError, Global};

impl Seat {
    /// Room to receive the wire, which is new to the member or not. A message or a decision that came before needs none at
    /// the relay.
    #[inline(always)]
    pub(crate) fn prepare_receive(&mut self, wire: &Wire, new: bool) -> Result<(), AllocError>
        requires { new ≡ is_new self.old.relay wire.now }
        ensures same { content self.new ≡ content self.old }
        ensures ok { OnOk result (CanReceive self.new wire.now) }
    {
        if new {
            self.relay.prepare()?;
            self.caster.prepare(1)?;
        }
        self.instances.prepare(wire)
    }

    /// Room to begin the next instance. It answers the set that the member proposes then, of so many messages at most.
    pub(crate) fn prepare_begin(&mut self, alloc: Global, bound: u32) -> Result<MsgSet, AllocError>
        requires few { self.old.instances.last ≤ MAX_INSTANCES }
        ensures same { content self.new ≡ content self.old }
        ensures room { OnOk result (has_room_open self.new.instances (self.new.instances.last + 1) ≡ true) }
        ensures proposal { IfOk result (λ set. set ≡ take bound (undelivered self.new.caster)) }
    {
        let next = self.instances.last() + 1;
        self.instances.prepare_open(next)?;
        self.caster.undelivered(alloc, bound)
    }
}
