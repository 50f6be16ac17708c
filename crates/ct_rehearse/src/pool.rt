//! What a run lends of a share.

ghost use Rattle.std.specs.Prelude.{◌≡◌, ◌+◌, ◌^◌, ◌<◌, ◌≤◌};
ghost use Rattle.ct_rehearse.specs.declared.share.TheConstants.{PARTS};

use crate::share::Share;
use std::marker::Model;
use std::sync::ledger;
use std::sync::ledger::Ledger;

// Parts of a share that a run hands to its workers, and takes back with their steps. There may be none.
#[derive(Drop)]
pub(crate) struct Pool<L: Ledger> {
    parts: u64,
    steps: u64,
    token: ledger::Share<L>,
}

impl<L: Ledger> Model for Pool<L> {
    ghost use Rattle.std.specs.Prelude.{◌≡◌, ◌≤◌};
    ghost use Rattle.ct_rehearse.specs.Shares.{Held};
    ghost use Rattle.ct_rehearse.specs.declared.share.TheConstants.{PARTS};

    ghost Value = { Held };

    ghost view = { λ p. record { parts = p.parts; steps = p.steps } };

    ghost invariant = { λ p. (p.token.parts ≡ p.parts) × (p.token.amount ≡ p.steps) × (p.parts ≤ PARTS) };
}

impl<L: Ledger> Pool<L> {
    // These parts without steps.
    pub(crate) fn with(parts: u64, token: ledger::Share<L>) -> Pool<L>
        requires few { parts ≤ PARTS }
        requires parts { token.parts ≡ parts }
        requires none { token.amount ≡ 0 }
        ensures { result ≡ record { parts = parts; steps = 0 } }
    {
        Pool {
            parts,
            steps: 0,
            token,
        }
    }

    // Hands out one part.
    pub(crate) fn split(&mut self) -> Share<L>
        requires some { 0 < self.old.parts }
        requires none { self.old.steps ≡ 0 }
        ensures part { result ≡ record { parts = 1; steps = 0 } }
        ensures parts { self.new.parts + 1 ≡ self.old.parts }
        ensures steps { self.new.steps ≡ 0 }
    {
        let token = self.token.split_off(1, 0);
        self.parts -= 1;
        Share::with(1, token)
    }

    // Takes a share in.
    pub(crate) fn take(&mut self, share: Share<L>)
        requires steps { self.old.steps + share.steps < 2 ^ 64 }
        requires parts { self.old.parts + share.parts ≤ PARTS }
        ensures { self.new ≡ record { parts = self.old.parts + share.parts; steps = self.old.steps + share.steps } }
    {
        let (parts, steps, token) = share.into_parts();
        self.token.merge(token);
        self.parts += parts;
        self.steps += steps;
    }

    // Its parts, its steps and the token that has both.
    pub(crate) fn into_parts(self) -> (u64, u64, ledger::Share<L>)
        ensures parts { result.0 ≡ self.parts }
        ensures steps { result.1 ≡ self.steps }
        ensures token_parts { result.2.parts ≡ self.parts }
        ensures token_steps { result.2.amount ≡ self.steps }
    {
        let Pool {
            parts,
            steps,
            token,
        } = self;
        (parts, steps, token)
    }
}
