//! The inbox of one member for one instance.

ghost use Rattle.std.specs.Prelude.{◌≡◌, ℕ, [], false, IsTrue, IfOk, IfSome, OnOk, OnErr, nat_eq, option_map, option_copied};
ghost use Rattle.std.specs.Map.{lookup};
ghost use Rattle.ct_model.specs.Received.{heard, estimate_from};
ghost use Rattle.ct_model.specs.Faults.{has_largest};
ghost use Rattle.ct_model.specs.Counted.{NamesSomebody, count_at};
ghost use Rattle.ct_model.specs.Wire.{vote_round};
ghost use Rattle.ct_rounds.specs.Best.{best};
ghost use Rattle.ct_rounds.specs.Inbox.{ballots_at, has_room};

use crate::lookup::{find, find_mut, index_in_order};
use crate::tally::Tally;
use ct_model::Wire;
use ct_names::{Member, MemberSet, Round, ValueId};
use indexmap::IndexMap;
use std::alloc::{AllocError, Global};
use std::marker::Model;

/// What one member got for the rounds of one instance, as tallies by round.
#[derive(Drop)]
pub struct Inbox {
    tallies: IndexMap<Round, Tally>,
}

// Contracts see the rounds that have a tally, each with its ballots.
impl Model for Inbox {
    ghost use Rattle.ct_rounds.specs.Inbox.{Rounds};

    ghost Value = { Rounds };

    ghost view = { λ inbox. inbox.tallies.entries };
}

impl Inbox {
    /// Nothing was got.
    pub fn new(alloc: Global) -> Inbox
        ensures { result ≡ [] }
    {
        Inbox {
            tallies: IndexMap::new(alloc),
        }
    }

    /// An inbox of the same notes, or the error where memory is refused.
    pub fn copy(&self, alloc: Global) -> Result<Inbox, AllocError>
        ensures { IfOk result (λ inbox. inbox ≡ self.now) }
    {
        let mut tallies = IndexMap::new(alloc);
        tallies.reserve(self.tallies.len())?;
        for (round, tally) in &self.tallies {
            tallies.insert(*round, tally.copy())?;
        }
        Ok(Inbox { tallies })
    }

    /// Makes room for notes of the round. What was got stays; where memory is refused that room was missing, and nothing
    /// changes.
    pub fn prepare(&mut self, round: Round) -> Result<(), AllocError>
        ensures ok { OnOk result (IsTrue (has_room self.new round)) }
        ensures err { OnErr result (self.new ≡ self.old) }
        ensures refused { OnErr result (has_room self.old round ≡ false) }
        ensures ballots { (r : ℕ) → ballots_at self.new r ≡ ballots_at self.old r }
        ensures rooms { (r : ℕ) → IsTrue (has_room self.old r) → IsTrue (has_room self.new r) }
    {
        if self.has_room(round) {
            return Ok(());
        }
        self.tallies.insert(round, Tally::new())?;
        Ok(())
    }

    /// Whether notes of the round can be made without memory.
    pub fn has_room(&self, round: Round) -> bool
        ensures { result ≡ has_room self.now round }
    {
        self.tally(round).is_some()
    }

    /// Counts the wire in, where it is a vote of a round. Takes no memory.
    pub fn note(&mut self, wire: &Wire)
        requires sender { NamesSomebody wire.now }
        requires room { IfSome (vote_round wire.now) (λ r. IsTrue (has_room self.old r)) }
        ensures ballots { (r : ℕ) → ballots_at self.new r ≡ count_at (ballots_at self.old r) r wire.now }
        ensures rooms { (r : ℕ) → has_room self.new r ≡ has_room self.old r }
    {
        let Some(round) = wire.vote_round() else {
            return;
        };
        match find_mut(&mut self.tallies, &round, index_in_order(round)) {
            Some(tally) => tally.take(wire),
            None => unreachable!(),
        }
    }

    /// The members whose estimate for the round was noted.
    pub fn heard(&self, round: Round) -> MemberSet
        ensures { result ≡ heard (ballots_at self.now round) }
    {
        match self.tally(round) {
            Some(tally) => tally.heard(),
            None => MemberSet::new(),
        }
    }

    /// The least member among the heard with the largest ts.
    pub fn best(&self, round: Round) -> Option<Member>
        ensures { result ≡ best (ballots_at self.now round) }
    {
        match self.tally(round) {
            Some(tally) => tally.best(),
            None => None,
        }
    }

    /// Whether `from` was heard, and nobody with a larger ts.
    pub fn largest(&self, round: Round, from: Member) -> bool
        ensures { result ≡ has_largest (ballots_at self.now round) from }
    {
        match self.tally(round) {
            Some(tally) => tally.largest(from),
            None => false,
        }
    }

    /// The value of the first estimate of `from` for the round.
    pub fn estimate(&self, round: Round, from: Member) -> Option<ValueId>
        ensures { result ≡ option_map (λ e. e.value) (estimate_from (ballots_at self.now round) from) }
    {
        match self.tally(round) {
            Some(tally) => tally.estimate(from),
            None => None,
        }
    }

    /// The ts of the first estimate of `from` for the round.
    pub fn ts(&self, round: Round, from: Member) -> Option<Round>
        ensures { result ≡ option_map (λ e. e.ts) (estimate_from (ballots_at self.now round) from) }
    {
        match self.tally(round) {
            Some(tally) => tally.ts(from),
            None => None,
        }
    }

    /// The value of the round's first proposal.
    pub fn proposal(&self, round: Round) -> Option<ValueId>
        ensures { result ≡ (ballots_at self.now round).proposal }
    {
        match self.tally(round) {
            Some(tally) => tally.proposal(),
            None => None,
        }
    }

    /// The members whose ack or nack of the round was noted.
    pub fn replied(&self, round: Round) -> MemberSet
        ensures { result ≡ (ballots_at self.now round).replied }
    {
        match self.tally(round) {
            Some(tally) => tally.replied(),
            None => MemberSet::new(),
        }
    }

    /// The members whose ack of the round was noted.
    pub fn acked(&self, round: Round) -> MemberSet
        ensures { result ≡ (ballots_at self.now round).acked }
    {
        match self.tally(round) {
            Some(tally) => tally.acked(),
            None => MemberSet::new(),
        }
    }

    // The tally of the round. Rounds mostly get theirs in order.
    fn tally(&self, round: Round) -> Option<&Tally>
        ensures { option_copied result ≡ lookup (nat_eq round) self.now }
    {
        find(&self.tallies, &round, index_in_order(round))
    }
}
