//! What is kept of one member.

ghost use Rattle.std.specs.Prelude.{◌≡◌, IfOk};
ghost use Rattle.ct_world.specs.Seats.{content, new_seat};

use ct_abcast::Caster;
use ct_instances::Instances;
use ct_names::{Group, Member};
use ct_relay::Relay;
use ct_table::Table;
use std::alloc::{AllocError, Global};

mod delivering;
mod preparing;
mod receiving;

/// What is kept of one member, apart from its waiting line.
#[derive(Drop)]
pub(crate) struct Seat {
    /// How many messages it submitted.
    pub submitted: u32,
    /// Whether it crashed.
    pub crashed: bool,
    /// Which messages and decisions it received.
    pub relay: Relay,
    /// What it got for each instance of consensus, and the one that it has open.
    pub instances: Instances,
    /// What it received and delivered.
    pub caster: Caster,
    /// The registers after what it delivered.
    pub table: Table,
}

impl Seat {
    /// A member that has done nothing.
    pub(crate) fn new(alloc: Global, group: Group, me: Member) -> Seat
        ensures { content result ≡ content (new_seat group me) }
    {
        Seat {
            submitted: 0,
            crashed: false,
            relay: Relay::new(alloc, me),
            instances: Instances::new(alloc, group, me),
            caster: Caster::new(alloc),
            table: Table::new(),
        }
    }

    /// A seat that keeps the same. Only memory can be refused.
    pub(crate) fn copy(&self, alloc: Global) -> Result<Seat, AllocError>
        ensures { IfOk result (λ seat. content seat ≡ content self.now) }
    {
        Ok(Seat {
            submitted: self.submitted,
            crashed: self.crashed,
            relay: self.relay.copy(alloc)?,
            instances: self.instances.copy(alloc)?,
            caster: self.caster.copy(alloc)?,
            table: self.table,
        })
    }
}
