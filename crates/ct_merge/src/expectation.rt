//! What logs expect of their members.

ghost use Rattle.std.specs.Prelude.{◌≡◌, ◌<◌, ◌^◌, ◌+◌, [], OnOk, OnErr};
ghost use Rattle.ct_merge.specs.Expected.{AreOrdered, behind_act, nothing_expected, with_expectation};

use ct_grammar::Goal;
use std::alloc::{AllocError, Global};
use std::marker::Model;
use std::mem;

/// What a log expects of its member.
#[derive(Drop)]
pub struct Expectation {
    /// How many acts of the log stand before it.
    pub place: usize,
    /// The number of its line in the text, from 1.
    pub number: usize,
    /// A goal of one term, a fact of the member as it is there.
    pub goal: Goal,
}

/// What a log expects of its member, in its order.
#[derive(Drop)]
pub struct Expectations {
    list: Vec<Expectation>,
    // How many acts of the log are over.
    acts: usize,
}

// Contracts see both.
impl Model for Expectations {
    ghost use Rattle.ct_merge.specs.Expected.{AreWithin, Expecting};

    ghost Value = { Expecting };

    ghost view = { λ e. record { list = e.list.items; acts = e.acts } };

    ghost invariant = { λ e. AreWithin e.list.items e.acts };
}

impl Expectations {
    /// Nothing, before the first act.
    pub fn new(alloc: Global) -> Expectations
        ensures { result ≡ nothing_expected }
    {
        Expectations {
            list: Vec::new(alloc),
            acts: 0,
        }
    }

    /// What is expected, in the order of the log.
    pub fn list(&self) -> &[Expectation]
        ensures list { result.now ≡ self.now.list }
        ensures ordered { AreOrdered self.now.list }
    {
        &self.list
    }

    // One more act is over.
    pub(crate) fn pass_act(&mut self)
        requires { self.old.acts + 1 < 2 ^ 64 }
        ensures { self.new ≡ behind_act self.old }
    {
        self.acts += 1;
    }

    // The goal has to hold behind the acts that are over, by the line of this number.
    pub(crate) fn push(&mut self, number: usize, goal: Goal) -> Result<(), AllocError>
        ensures ok { OnOk result (self.new ≡ with_expectation self.old number goal) }
        ensures err { OnErr result (self.new ≡ self.old) }
    {
        let expectation = Expectation {
            place: self.acts,
            number,
            goal,
        };
        match self.list.push(expectation) {
            Ok(()) => Ok(()),
            Err(_) => Err(AllocError),
        }
    }

    // What is expected so far, which it has no more.
    pub(crate) fn take(&mut self, alloc: Global) -> Expectations
        ensures all { result ≡ self.old }
        ensures rest { self.new ≡ record self.old { list = [] } }
    {
        Expectations {
            list: mem::replace(&mut self.list, Vec::new(alloc)),
            acts: self.acts,
        }
    }
}
