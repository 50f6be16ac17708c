//! The board.

ghost use Rattle.std.specs.Prelude.{◌≡◌, ◌<◌, ◌≤◌, length, slice_get, None, Some, IfOk, IfErr, IsErr, MatchOption};
ghost use Rattle.once_cell.specs.Once.{Agrees};

use crate::receipt::Receipt;
use ct_abcast::Batch;
use once_cell::race::{Note, OnceBox};
use std::alloc::{AllocError, Global};
use std::marker::Model;

/// A row of cells, numbered from 0, each empty at first and then set once, for good. Threads share it without a lock.
#[derive(Drop)]
pub struct Board {
    cells: Vec<OnceBox<Batch>>,
}

// Contracts see the names of the cells, place by place. They tell one board from another.
impl Model for Board {
    ghost use Rattle.std.specs.Prelude.{ℕ, List};
    ghost use Rattle.ct_board.specs.Board.{names_of};

    ghost Value = { List ℕ };

    ghost view = { λ board. names_of board.cells.items };
}

impl Board {
    /// A board with so many cells, all empty, or the error where memory is refused.
    pub fn new(alloc: Global, cells: usize) -> Result<Board, AllocError>
        ensures { IfOk result (λ board. length board ≡ cells) }
    {
        let mut row = Vec::with_capacity(alloc, cells)?;
        for _ in 0..cells {
            row.push(OnceBox::new(alloc))?;
        }
        Ok(Board { cells: row })
    }

    /// How many cells it has.
    pub fn cells(&self) -> usize
        ensures { result ≡ length self.now }
    {
        self.cells.len()
    }

    /// Sets the cell at the place to the batch, for good; the receipt reads it. The batch comes back where there is no such
    /// cell, or where the cell refused it, as one does that was set before.
    pub fn post(&self, place: usize, batch: Box<Batch>) -> Result<Receipt, Box<Batch>>
        ensures place { IfOk result (λ receipt. receipt.place ≡ place) }
        ensures cell { IfOk result (λ receipt. slice_get self.now place ≡ Some receipt.cell) }
        ensures batch { IfOk result (λ receipt. receipt.batch ≡ batch.value) }
        ensures back { IfErr result (λ back. back.value ≡ batch.value) }
        ensures no_cell { length self.now ≤ place → IsErr result }
    {
        if place >= self.cells.len() {
            return Err(batch);
        }
        let cell = &self.cells[place];
        let mut note = cell.note();
        cell.set_as(batch, &mut note)?;
        Ok(Receipt::of(place, note))
    }

    // A note of the cell at the place that knows nothing yet.
    pub(crate) fn note(&self, place: usize) -> Note<Batch>
        requires { place < length self.now }
        ensures cell { slice_get self.now place ≡ Some result.cell }
        ensures known { result.known ≡ None }
    {
        self.cells[place].note()
    }

    // The batch of the cell at the place, which the note then knows. None comes only where it knew nothing.
    pub(crate) fn look<'b>(&'b self, place: usize, note: &mut Note<Batch>) -> Option<&'b Batch>
        requires { slice_get self.now place ≡ Some note.old.cell }
        ensures cell { note.new.cell ≡ note.old.cell }
        ensures value { MatchOption result ((note.old.known ≡ None) × (note.new.known ≡ None))
            (λ batch. (note.new.known ≡ Some batch.now) × Agrees note.old.known batch.now) }
    {
        self.cells[place].get_as(note)
    }
}
