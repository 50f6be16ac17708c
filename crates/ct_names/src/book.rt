//! Values by number.

ghost use Rattle.std.specs.Prelude.{◌≡◌, ◌+◌, ◌<◌, ◌≤◌, ◌++◌, ◌∷◌, [], length, nat_lt, ◌==◌, IsOk, IfOk, IfErr, OnOk, OnErr, option_copied};
ghost use Rattle.std.specs.Prelude.{slice_get};

use crate::msg_set::MsgSet;
use crate::value_id::ValueId;
use std::alloc::{AllocError, Global};
use std::marker::Model;

/// A list of sets of messages, each named by its number, from 0. Two numbers may name equal sets.
#[derive(Debug, Drop)]
pub struct Book {
    sets: Vec<MsgSet>,
}

// Contracts see the sets and the room for more.
impl Model for Book {
    ghost use Rattle.std.specs.Prelude.{◌-◌};
    ghost use Rattle.std.specs.Vec.{vec_len, vec_capacity};
    ghost use Rattle.ct_names.specs.Book.{Contents};

    ghost Value = { Contents };

    ghost view = { λ book. record { values = book.sets.items; room = vec_capacity book.sets - vec_len book.sets } };
}

impl Book {
    /// The book with no sets.
    pub fn new(alloc: Global) -> Book
        ensures { result.values ≡ [] }
    {
        Book {
            sets: Vec::new(alloc),
        }
    }

    /// A book of the same sets by the same numbers, or the error where memory is refused. Whether the copy has room is
    /// not said.
    pub fn copy(&self, alloc: Global) -> Result<Book, AllocError>
        ensures { IfOk result (λ book. book.values ≡ self.now.values) }
    {
        let mut sets = Vec::new(alloc);
        for set in &self.sets {
            sets.push(set.copy(alloc)?)?;
        }
        Ok(Book { sets })
    }

    /// Whether one more set can be added without memory.
    pub fn has_room(&self) -> bool
        ensures { result ≡ nat_lt 0 self.now.room }
    {
        self.sets.capacity() > self.sets.len()
    }

    /// Makes room for one more set. Where memory is refused the book stays as it was.
    pub fn prepare(&mut self) -> Result<(), AllocError>
        ensures values { self.new.values ≡ self.old.values }
        ensures ok { OnOk result (0 < self.new.room) }
        ensures room { self.old.room ≤ self.new.room }
        ensures err { OnErr result (self.new ≡ self.old) }
        ensures refused { OnErr result (self.old.room ≡ 0) }
    {
        self.sets.reserve(1)
    }

    /// Adds the set under the next number. Where there is room it is Ok and takes no memory; elsewhere, if memory is
    /// refused, the set comes back and the book stays as it was.
    pub fn add(&mut self, set: MsgSet) -> Result<ValueId, MsgSet>
        requires { length self.old.values < 4294967295 }
        ensures number { IfOk result (λ id. id ≡ length self.old.values) }
        ensures ok { OnOk result (self.new.values ≡ self.old.values ++ set ∷ []) }
        ensures room { OnOk result (self.old.room ≤ self.new.room + 1) }
        ensures back { IfErr result (λ returned. returned ≡ set) }
        ensures err { OnErr result (self.new ≡ self.old) }
        ensures succeeds { 0 < self.old.room → IsOk result }
    {
        let id = ValueId::new(self.sets.len() as u32);
        if self.sets.reserve(1).is_err() {
            return Err(set);
        }
        match self.sets.push(set) {
            Ok(()) => Ok(id),
            Err(refused) => Err(refused.value),
        }
    }

    /// The set of that number, or None where there is none.
    pub fn get(&self, id: ValueId) -> Option<&MsgSet>
        ensures { option_copied result ≡ slice_get self.now.values id }
    {
        self.sets.get(id.number() as usize)
    }

    /// How many sets there are.
    pub fn len(&self) -> usize
        ensures { result ≡ length self.now.values }
    {
        self.sets.len()
    }

    /// Whether there are no sets.
    pub fn is_empty(&self) -> bool
        ensures { result ≡ (length self.now.values == 0) }
    {
        self.sets.is_empty()
    }
}
