//! The instances of one member.

ghost use Rattle.std.specs.Prelude.{◌≡◌, ◌+◌, [], IsTrue, IsSome, None};
ghost use Rattle.ct_instances.specs.Kept.{decision_at, has_room_open};
ghost use Rattle.ct_instances.specs.Steps.{opened};

mod copying;
mod deciding;
mod noting;
mod preparing;
mod reading;
mod refusing;
mod steps;

use crate::entry::Entry;
use ct_names::{Group, Instance, Member, ValueId};
use ct_rounds::Consensus;
use indexmap::IndexMap;
use std::alloc::Global;
use std::marker::Model;

/// The instances of consensus of one member (Chandra and Toueg, section 7): what it got for each, begun or not, and
/// the one that it has open. Each call but `copy` and `last_decided` takes constant time.
#[derive(Drop)]
pub struct Instances {
    group: Group,
    me: Member,
    // The last instance that was begun, 0 before the first.
    last: Instance,
    part: Option<Consensus>,
    entries: IndexMap<Instance, Entry>,
    alloc: Global,
}

impl Model for Instances {
    ghost use Rattle.std.specs.Prelude.{IfSome};
    ghost use Rattle.ct_instances.specs.Kept.{Kept};
    ghost use Rattle.ct_instances.specs.Opened.{FitInstances, IsPart};

    ghost Value = { Kept };

    ghost view = { λ i. record { members = i.group; me = i.me; last = i.last; part = i.part; entries = i.entries.entries } };

    ghost invariant = { λ i. IfSome i.part (IsPart i.group i.me i.last i.entries.entries) × FitInstances i.entries.entries };
}

impl Instances {
    /// The instances of the member `me` of the group: nothing was got, and none is open.
    pub fn new(alloc: Global, group: Group, me: Member) -> Instances
        ensures { result ≡ record { members = group; me = me; last = 0; part = None; entries = [] } }
    {
        Instances {
            group,
            me,
            last: 0,
            part: None,
            entries: IndexMap::new(alloc),
            alloc,
        }
    }

    /// Opens the next instance with this estimate. No round of it is running.
    pub fn open(&mut self, instance: Instance, estimate: ValueId)
        requires idle { self.old.part ≡ None }
        requires next { instance ≡ self.old.last + 1 }
        requires room { IsTrue (has_room_open self.old instance) }
        ensures { self.new ≡ opened self.old estimate }
    {
        self.last = instance;
        self.part = Some(Consensus::new(self.group, self.me, instance, estimate));
    }

    /// Closes the open instance. What was got for it stays.
    pub fn close(&mut self)
        requires { IsSome self.old.part }
        ensures { self.new ≡ record self.old { part = None } }
    {
        self.part = None;
    }

    /// Begins the next instance, whose decision is there, and closes it at once.
    pub fn follow(&mut self)
        requires idle { self.old.part ≡ None }
        requires decided { IsSome (decision_at self.old (self.old.last + 1)) }
        ensures { self.new ≡ record self.old { last = self.old.last + 1 } }
    {
        self.last += 1;
    }
}
