//! What lines of logs told, of each position and each message.

ghost use Rattle.std.specs.Prelude.{◌≡◌, ◌<◌, ◌≤◌, [], IfOk, MatchOption, None, nat_eq};
ghost use Rattle.std.specs.HashMap.{get};
ghost use Rattle.ct_order.specs.Knowing.{AreSent, IsUnsentAt, KnowsTable, Tells, is_said};

use crate::act::Act;
use crate::clash::Clash;
use crate::line::Line;
use crate::place::{Delivery, Place};
use crate::told::Told;
use std::alloc::{AllocError, Global};
use std::collections::HashMap;

/// What lines of logs told; what the first of them told stays.
#[derive(Drop)]
pub struct Table {
    /// The line that broadcasts a message.
    pub sent: HashMap<String, Place>,
    /// The line that delivers a message.
    pub placed: HashMap<String, Delivery>,
    /// The message behind so many deliveries.
    pub order: HashMap<u64, Told>,
    /// The state behind so many deliveries.
    pub states: HashMap<u64, Told>,
}

impl Table {
    // Nothing was told.
    pub(crate) fn new(alloc: Global) -> Table
        ensures { KnowsTable result [] }
    {
        Table {
            sent: HashMap::new(alloc),
            placed: HashMap::new(alloc),
            order: HashMap::new(alloc),
            states: HashMap::new(alloc),
        }
    }

    // Takes a line, or tells what it contradicts.
    pub(crate) fn take(
        &mut self,
        alloc: Global,
        line: Line<'_>,
    ) -> Result<Option<Clash>, AllocError>
        ensures { IfOk result (Tells self.old self.new (is_said line.entry)) }
    {
        match line.act {
            Act::Broadcast => self.broadcast(alloc, line),
            Act::Deliver => self.deliver(alloc, line),
            Act::State => self.state(alloc, line),
            Act::From(count) => Ok(backwards(count, line.at)),
            Act::Restart(_) => Ok(None),
            Act::Crash => Ok(None),
            Act::End => Ok(None),
        }
    }

    // Takes a line that broadcasts a message.
    fn broadcast(&mut self, alloc: Global, line: Line<'_>) -> Result<Option<Clash>, AllocError>
        requires { line.act ≡ Act.Broadcast }
        ensures { IfOk result (Tells self.old self.new (is_said line.entry)) }
    {
        match self.sent.get(line.word) {
            Some(_) => Ok(None),
            None => {
                let word = String::from_str(alloc, line.word)?;
                self.sent.insert(word, line.place)?;
                Ok(None)
            }
        }
    }

    // Takes a line that delivers a message.
    fn deliver(&mut self, alloc: Global, line: Line<'_>) -> Result<Option<Clash>, AllocError>
        requires { line.act ≡ Act.Deliver }
        ensures { IfOk result (Tells self.old self.new (is_said line.entry)) }
    {
        match self.order.get(&line.at) {
            Some(told) => told.differing(alloc, line.word),
            None => self.put(alloc, line),
        }
    }

    // Takes a line that delivers a message at a position of which none is told.
    fn put(&mut self, alloc: Global, line: Line<'_>) -> Result<Option<Clash>, AllocError>
        requires act { line.act ≡ Act.Deliver }
        requires free { get nat_eq self.old.order line.at ≡ None }
        ensures { IfOk result (Tells self.old self.new (is_said line.entry)) }
    {
        match self.placed.get(line.word) {
            Some(delivery) => Ok(Some(Clash::Again(*delivery))),
            None => {
                let key = String::from_str(alloc, line.word)?;
                let at = line.at;
                let place = line.place;
                self.placed.insert(key, Delivery { at, place })?;
                let word = String::from_str(alloc, line.word)?;
                self.order.insert(at, Told { place, word })?;
                Ok(None)
            }
        }
    }

    // Takes a line that tells of a state.
    fn state(&mut self, alloc: Global, line: Line<'_>) -> Result<Option<Clash>, AllocError>
        requires { line.act ≡ Act.State }
        ensures { IfOk result (Tells self.old self.new (is_said line.entry)) }
    {
        match self.states.get(&line.at) {
            Some(told) => told.differing(alloc, line.word),
            None => {
                let place = line.place;
                let word = String::from_str(alloc, line.word)?;
                self.states.insert(line.at, Told { place, word })?;
                Ok(None)
            }
        }
    }

    // The first line that delivers a message that none broadcasts.
    pub(crate) fn unsent(&self) -> Option<Delivery>
        ensures { MatchOption result (AreSent self.now) (λ delivery. IsUnsentAt self.now delivery) }
    {
        for (at, told) in &self.order {
            if self.sent.get(told.word.as_str()).is_none() {
                return Some(Delivery {
                    at: *at,
                    place: told.place,
                });
            }
        }
        None
    }
}

// What the line contradicts that takes over a snapshot of so many deliveries, with so many before it.
fn backwards(count: u32, at: u64) -> Option<Clash>
    ensures { MatchOption result (at ≤ count) (λ clash. (clash ≡ Clash.Back) × (count < at)) }
{
    if u64::from(count) < at {
        Some(Clash::Back)
    } else {
        None
    }
}
