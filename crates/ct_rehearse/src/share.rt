//! Shares of the steps that a desk counts.

ghost use Rattle.std.specs.Prelude.{◌≡◌, ◌+◌, ◌^◌, ◌<◌, ◌≤◌};
ghost use Rattle.ct_rehearse.specs.Shares.{whole_share};
ghost use Rattle.ct_rehearse.specs.declared.share.TheConstants.{PARTS};

use crate::pool::Pool;
use std::marker::Model;
use std::sync::ledger;
use std::sync::ledger::{Blank, Book, Ledger};

/// The parts of the whole share.
pub(crate) const PARTS: u64 = 1_000;

/// Some of the 1,000 parts of a desk's total, and how many of its steps were counted on them. The shares of one desk
/// have its total together, however they are split and joined; a share that is dropped takes its parts with it.
#[derive(Drop)]
pub struct Share<L: Ledger> {
    parts: u64,
    steps: u64,
    token: ledger::Share<L>,
}

// Contracts see the parts and the steps.
impl<L: Ledger> Model for Share<L> {
    ghost use Rattle.std.specs.Prelude.{◌≡◌, ◌<◌, ◌≤◌};
    ghost use Rattle.ct_rehearse.specs.Shares.{Held};
    ghost use Rattle.ct_rehearse.specs.declared.share.TheConstants.{PARTS};

    ghost Value = { Held };

    ghost view = { λ s. record { parts = s.parts; steps = s.steps } };

    ghost invariant = { λ s. (s.token.parts ≡ s.parts) × (s.token.amount ≡ s.steps) × (0 < s.parts) × (s.parts ≤ PARTS) };
}

impl<L: Ledger> Share<L> {
    /// The number of steps that were counted on these parts.
    pub fn steps(&self) -> u64
        ensures { result ≡ self.now.steps }
    {
        self.steps
    }

    /// The number of parts, 1 to 1,000.
    pub fn parts(&self) -> u64
        ensures value { result ≡ self.now.parts }
        ensures at_least_one { 1 ≤ result }
        ensures at_most_whole { result ≤ PARTS }
    {
        self.parts
    }

    /// Hands out one part without steps; the other parts and all steps stay.
    pub fn split(&mut self) -> Share<L>
        requires { 2 ≤ self.old.parts }
        ensures part { result ≡ record { parts = 1; steps = 0 } }
        ensures parts { self.new.parts + 1 ≡ self.old.parts }
        ensures steps { self.new.steps ≡ self.old.steps }
    {
        let token = self.cut(1);
        Share::with(1, token)
    }

    /// Takes the parts and the steps of another share of the same total.
    pub fn join(&mut self, other: Share<L>)
        requires steps { self.old.steps + other.steps < 2 ^ 64 }
        requires whole { L.parts ≡ PARTS }
        ensures parts { self.new.parts ≡ self.old.parts + other.parts }
        ensures steps { self.new.steps ≡ self.old.steps + other.steps }
    {
        let (parts, steps, mut token) = other.into_parts();
        // It gives nothing; two shares of one total have no more than all its parts.
        token.give(&mut self.token, 0, 0);
        self.gain(parts, steps, token);
    }

    // The whole share of a new total, beside its book, with some steps in it.
    pub(crate) fn open(blank: Blank, steps: u64) -> (Book<L>, Share<L>)
        requires name { blank.name ≡ L.name }
        requires parts { blank.parts ≡ L.parts }
        requires whole { L.parts ≡ PARTS }
        ensures total { result.0.total ≡ steps }
        ensures share { result.1 ≡ whole_share steps }
    {
        let (mut book, mut token) = blank.open::<L>();
        book.add(&mut token, steps);
        (
            book,
            Share {
                parts: PARTS,
                steps,
                token,
            },
        )
    }

    // These parts without steps.
    pub(crate) fn with(parts: u64, token: ledger::Share<L>) -> Share<L>
        requires some { 0 < parts }
        requires few { parts ≤ PARTS }
        requires parts { token.parts ≡ parts }
        requires none { token.amount ≡ 0 }
        ensures { result ≡ record { parts = parts; steps = 0 } }
    {
        Share {
            parts,
            steps: 0,
            token,
        }
    }

    // One step more in the book and in the share.
    pub(crate) fn count(&mut self, book: &mut Book<L>)
        requires { self.old.steps + 1 < 2 ^ 64 }
        ensures share { self.new ≡ record self.old { steps = self.old.steps + 1 } }
        ensures book { book.new.total ≡ book.old.total + 1 }
    {
        book.add(&mut self.token, 1);
        self.steps += 1;
    }

    // The whole share has the book's total.
    pub(crate) fn audit(&mut self, book: &mut Book<L>)
        requires { self.old.parts ≡ L.parts }
        ensures same { self.new ≡ self.old }
        ensures book { book.new.total ≡ book.old.total }
        ensures total { self.old.steps ≡ book.old.total }
    {
        book.audit(&mut self.token);
    }

    // Lends so many parts without steps.
    pub(crate) fn lend(&mut self, parts: u64) -> Pool<L>
        requires { parts < self.old.parts }
        ensures whole { self.old.parts ≤ PARTS }
        ensures pool { result ≡ record { parts = parts; steps = 0 } }
        ensures parts { self.new.parts + parts ≡ self.old.parts }
        ensures steps { self.new.steps ≡ self.old.steps }
    {
        let token = self.cut(parts);
        Pool::with(parts, token)
    }

    // Takes back what was lent, and the steps that were counted on it.
    pub(crate) fn restore(&mut self, pool: Pool<L>)
        requires steps { self.old.steps + pool.steps < 2 ^ 64 }
        requires parts { self.old.parts + pool.parts ≤ PARTS }
        ensures { self.new ≡ record { parts = self.old.parts + pool.parts; steps = self.old.steps + pool.steps } }
    {
        let (parts, steps, token) = pool.into_parts();
        self.gain(parts, steps, token);
    }

    // So many parts less.
    fn cut(&mut self, parts: u64) -> ledger::Share<L>
        requires { parts < self.old.parts }
        ensures whole { self.old.parts ≤ PARTS }
        ensures token_parts { result.parts ≡ parts }
        ensures token_steps { result.amount ≡ 0 }
        ensures parts { self.new.parts + parts ≡ self.old.parts }
        ensures steps { self.new.steps ≡ self.old.steps }
    {
        self.parts -= parts;
        self.token.split_off(parts, 0)
    }

    // So many parts and steps more.
    fn gain(&mut self, parts: u64, steps: u64, token: ledger::Share<L>)
        requires steps { self.old.steps + steps < 2 ^ 64 }
        requires parts { self.old.parts + parts ≤ PARTS }
        requires token_parts { token.parts ≡ parts }
        requires token_steps { token.amount ≡ steps }
        ensures { self.new ≡ record { parts = self.old.parts + parts; steps = self.old.steps + steps } }
    {
        self.token.merge(token);
        self.parts += parts;
        self.steps += steps;
    }

    // Its parts, its steps and the token that has both.
    pub(crate) fn into_parts(self) -> (u64, u64, ledger::Share<L>)
        ensures parts { result.0 ≡ self.parts }
        ensures some { 0 < result.0 }
        ensures steps { result.1 ≡ self.steps }
        ensures token_parts { result.2.parts ≡ self.parts }
        ensures token_steps { result.2.amount ≡ self.steps }
    {
        let Share {
            parts,
            steps,
            token,
        } = self;
        (parts, steps, token)
    }
}
