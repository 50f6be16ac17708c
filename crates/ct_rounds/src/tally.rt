//! What was got for one round.

ghost use Rattle.std.specs.Prelude.{◌≡◌, option_map};
ghost use Rattle.ct_names.specs.Group.{IsMember};
ghost use Rattle.ct_model.specs.Received.{heard, estimate_from};
ghost use Rattle.ct_model.specs.Faults.{has_largest};
ghost use Rattle.ct_model.specs.Counted.{NamesSomebody, no_ballots, count, count_estimate, count_proposal};
ghost use Rattle.ct_rounds.specs.Best.{best};
ghost use Rattle.ct_rounds.specs.Tally.{better, heard_as};

use ct_model::Wire;
use ct_names::{MAX_MEMBERS, Member, MemberSet, Round, ValueId};
use std::marker::Model;

/// An estimate that was heard: the number of its value, and the round in which its member took that over.
#[derive(Clone, Copy)]
pub(crate) struct Estimate {
    pub value: u32,
    pub ts: Round,
}

/// Whose estimate is the best so far, and its ts.
#[derive(Clone, Copy)]
pub(crate) struct Best {
    pub member: Member,
    pub ts: Round,
}

/// What was got for one round.
#[derive(Drop)]
pub(crate) struct Tally {
    heard: MemberSet,
    // By member, of those that were heard. The first entry is nobody's.
    estimates: [Estimate; 17],
    // The least member among the heard with the largest ts.
    best: Option<Best>,
    proposal: Option<ValueId>,
    replied: MemberSet,
    acked: MemberSet,
}

// Contracts see the ballots of the round, in which values go by their numbers.
impl Model for Tally {
    ghost use Rattle.std.specs.Prelude.{ℕ};
    ghost use Rattle.ct_model.specs.Received.{Ballots};

    ghost Value = { Ballots ℕ };

    ghost use Rattle.ct_rounds.specs.Tally.{ballots_of, IsTally};

    ghost view = { λ t. ballots_of t.heard t.estimates t.proposal t.acked t.replied };

    ghost invariant = { λ t. IsTally t.heard t.estimates t.acked t.replied t.best };
}

impl Tally {
    /// Nothing was got.
    pub(crate) fn new() -> Tally
        ensures { result ≡ no_ballots }
    {
        Tally {
            heard: MemberSet::new(),
            estimates: [Estimate { value: 0, ts: 0 }; 17],
            best: None,
            proposal: None,
            replied: MemberSet::new(),
            acked: MemberSet::new(),
        }
    }

    /// A tally of the same notes.
    pub(crate) fn copy(&self) -> Tally
        ensures { result ≡ self.now }
    {
        Tally {
            heard: self.heard,
            estimates: self.estimates,
            best: self.best,
            proposal: self.proposal,
            replied: self.replied,
            acked: self.acked,
        }
    }

    /// The members that were heard.
    pub(crate) fn heard(&self) -> MemberSet
        ensures { result ≡ heard self.now }
    {
        self.heard
    }

    /// The least member among the heard with the largest ts.
    pub(crate) fn best(&self) -> Option<Member>
        ensures { result ≡ best self.now }
    {
        match self.best {
            Some(best) => Some(best.member),
            None => None,
        }
    }

    /// Whether the member was heard, and nobody with a larger ts.
    pub(crate) fn largest(&self, from: Member) -> bool
        ensures { result ≡ has_largest self.now from }
    {
        match self.best {
            Some(best) => {
                self.heard.contains(from) && best.ts <= self.estimates[from as usize].ts
            }
            None => false,
        }
    }

    /// The value of the member's estimate.
    pub(crate) fn estimate(&self, from: Member) -> Option<ValueId>
        ensures { result ≡ option_map (λ e. e.value) (estimate_from self.now from) }
    {
        if self.heard.contains(from) {
            Some(ValueId::new(self.estimates[from as usize].value))
        } else {
            None
        }
    }

    /// The ts of the member's estimate.
    pub(crate) fn ts(&self, from: Member) -> Option<Round>
        ensures { result ≡ option_map (λ e. e.ts) (estimate_from self.now from) }
    {
        if self.heard.contains(from) {
            Some(self.estimates[from as usize].ts)
        } else {
            None
        }
    }

    /// The value of the proposal.
    pub(crate) fn proposal(&self) -> Option<ValueId>
        ensures { result ≡ self.now.proposal }
    {
        self.proposal
    }

    /// The members that replied.
    pub(crate) fn replied(&self) -> MemberSet
        ensures { result ≡ self.now.replied }
    {
        self.replied
    }

    /// The members that acked.
    pub(crate) fn acked(&self) -> MemberSet
        ensures { result ≡ self.now.acked }
    {
        self.acked
    }

    /// Counts a vote of this round in: the first estimate of each member, and the first proposal.
    pub(crate) fn take(&mut self, wire: &Wire)
        requires { NamesSomebody wire.now }
        ensures { self.new ≡ count wire.now self.old }
    {
        match *wire {
            Wire::Est {
                from,
                value,
                ts,
                ..
            } => self.hear(
                from,
                Estimate {
                    value: value.number(),
                    ts,
                },
            ),
            Wire::Prop { value, .. } => self.propose(value),
            Wire::Ack { from, .. } => {
                self.replied.insert(from);
                self.acked.insert(from);
            }
            Wire::Nack { from, .. } => self.replied.insert(from),
            Wire::Data(_) | Wire::Dec { .. } => {}
        }
    }

    fn hear(&mut self, from: Member, estimate: Estimate)
        requires { IsMember MAX_MEMBERS from }
        ensures { self.new ≡ count_estimate (heard_as from estimate) self.old }
    {
        if self.heard.contains(from) {
            return;
        }
        self.heard.insert(from);
        self.estimates[from as usize] = estimate;
        let new = Best {
            member: from,
            ts: estimate.ts,
        };
        self.best = Some(better(self.best, new));
    }

    fn propose(&mut self, value: ValueId)
        ensures { self.new ≡ count_proposal value self.old }
    {
        if self.proposal.is_none() {
            self.proposal = Some(value);
        }
    }
}

// The one with the larger ts, and of two alike that of the lesser member.
fn better(best: Option<Best>, new: Best) -> Best
    ensures { result ≡ better best new }
{
    match best {
        Some(best) => {
            if best.ts < new.ts || best.ts == new.ts && new.member < best.member {
                new
            } else {
                best
            }
        }
        None => new,
    }
}
