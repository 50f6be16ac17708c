//! Scripts, whose entries are made one after the other.

ghost use Rattle.std.specs.Prelude.{◌≡◌, slice_get, drop, length};

use ct_rehearse::Disturbance;
use std::marker::Model;

// A script, with how many of its entries were made.
#[derive(Drop)]
pub(crate) struct Script {
    entries: Vec<Disturbance>,
    made: usize,
}

// Contracts see the entries that are left.
impl Model for Script {
    ghost use Rattle.std.specs.Prelude.{List, drop};
    ghost use Rattle.ct_rehearse.specs.declared.disturbance.Disturbance.{Disturbance};

    ghost Value = { List Disturbance };

    ghost view = { λ s. drop s.made s.entries.items };
}

impl Script {
    pub(crate) fn new(entries: Vec<Disturbance>) -> Script
        ensures { result ≡ entries.items }
    {
        Script { entries, made: 0 }
    }

    // How many entries are left.
    pub(crate) fn len(&self) -> usize
        ensures { result ≡ length self.now }
    {
        self.entries.len().saturating_sub(self.made)
    }

    // Takes the next entry out.
    pub(crate) fn next(&mut self) -> Option<Disturbance>
        ensures next { result ≡ slice_get self.old 0 }
        ensures left { self.new ≡ drop 1 self.old }
    {
        let entry = *self.entries.get(self.made)?;
        self.made += 1;
        Some(entry)
    }
}
