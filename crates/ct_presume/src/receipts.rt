//! What logs say that members received.

use ct_grammar::{Carried, Statement};
use ct_merge::{FullName, LogAct, LogLine, Merger};
use ct_names::{Group, Instance, MAX_MEMBERS, Member, Round};
use indexmap::IndexMap;
use std::alloc::{AllocError, Global};
use std::hash::Hash;

// The receiver of an envelope, and its name.
#[derive(Clone, Copy, Drop, PartialEq, Eq, Hash)]
struct Receipt {
    member: Member,
    name: FullName,
}

// A member, in an instance.
#[derive(Clone, Copy, Drop, PartialEq, Eq, Hash)]
struct Part {
    member: Member,
    instance: Instance,
}

/// How far a member is in an instance: a round, and what it did of that.
pub(crate) fn stage_of(round: Round, done: u8) -> u64 {
    u64::from(round)
        .saturating_mul(8)
        .saturating_add(u64::from(done))
}

/// The numbers of what a member did of a round, in order.
pub(crate) const ENTERED: u8 = 1;

pub(crate) const PROPOSED: u8 = 2;

pub(crate) const REPLIED: u8 = 3;

pub(crate) const ENDED: u8 = 4;

/// What logs say that members received.
#[derive(Drop)]
pub(crate) struct Receipts {
    group: Group,
    // The place of a line in its log by what that receives; of several one that states it.
    places: IndexMap<Receipt, usize>,
    // How far a member came at least in an instance, by what others received from it.
    stages: IndexMap<Part, u64>,
    // A round in which an instance was decided.
    rounds: IndexMap<Instance, Round>,
}

impl Receipts {
    /// Those of which the logs tell.
    pub(crate) fn new(
        alloc: Global,
        group: Group,
        merger: &Merger,
    ) -> Result<Receipts, AllocError> {
        let mut receipts = Receipts {
            group,
            places: IndexMap::new(alloc),
            stages: IndexMap::new(alloc),
            rounds: IndexMap::new(alloc),
        };
        for i in 0..MAX_MEMBERS {
            receipts.take_log(i + 1, merger.log(i + 1))?;
        }
        Ok(receipts)
    }

    // Takes what the log of the member tells of.
    fn take_log(&mut self, member: Member, log: &[LogLine]) -> Result<(), AllocError> {
        for (place, line) in log.iter().enumerate() {
            if let LogAct::Receive(name) = line.act {
                self.take(member, name, place, line.said.is_some())?;
            }
        }
        Ok(())
    }

    // Takes a receipt of the member, at this place of its log, where it may be stated what came.
    fn take(
        &mut self,
        member: Member,
        name: FullName,
        place: usize,
        is_stated: bool,
    ) -> Result<(), AllocError> {
        let receipt = Receipt { member, name };
        if is_stated || self.places.get(&receipt).is_none() {
            put(&mut self.places, receipt, place)?;
        }
        self.take_stage(name)
    }

    // Takes what the receipt says of its sender.
    fn take_stage(&mut self, name: FullName) -> Result<(), AllocError> {
        let (instance, round, done) = match name.carried {
            Carried::Data(..) => return Ok(()),
            Carried::Est(instance, round) => (instance, round, ENTERED),
            Carried::Prop(instance, round) => (instance, round, PROPOSED),
            Carried::Ack(instance, round) | Carried::Nack(instance, round) => {
                (instance, round, REPLIED)
            }
            Carried::Dec(instance, round) => {
                put(&mut self.rounds, instance, round)?;
                if self.group.coordinator(round) != name.from {
                    return Ok(());
                }
                (instance, round, ENDED)
            }
        };
        let part = Part {
            member: name.from,
            instance,
        };
        let stage = stage_of(round, done).max(self.stage(name.from, instance).unwrap_or(0));
        put(&mut self.stages, part, stage)
    }

    /// How far the member came at least in the instance; None where nobody received what it sent there.
    pub(crate) fn stage(&self, member: Member, instance: Instance) -> Option<u64> {
        self.stages.get(&Part { member, instance }).copied()
    }

    /// A round in which the instance was decided, where somebody received that.
    pub(crate) fn decided(&self, instance: Instance) -> Option<Round> {
        self.rounds.get(&instance).copied()
    }

    /// Whether the member received the envelope of this name.
    pub(crate) fn has(&self, member: Member, name: FullName) -> bool {
        self.places.get(&Receipt { member, name }).is_some()
    }

    /// What is stated of the envelope of this name that the member received.
    pub(crate) fn said<'l>(
        &self,
        merger: &'l Merger,
        member: Member,
        name: FullName,
    ) -> Option<&'l Statement> {
        let place = self.places.get(&Receipt { member, name }).copied()?;
        said_at(merger.log(member), place)
    }
}

// What is stated by the line at this place.
fn said_at(log: &[LogLine], place: usize) -> Option<&Statement> {
    log.get(place)?.said.as_ref()
}

// Puts the value in its place.
fn put<K: Drop + Hash + Eq, V: Drop>(
    map: &mut IndexMap<K, V>,
    key: K,
    value: V,
) -> Result<(), AllocError> {
    match map.insert(key, value) {
        Ok(_) => Ok(()),
        Err(_) => Err(AllocError),
    }
}
