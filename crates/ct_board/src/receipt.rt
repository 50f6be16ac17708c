//! Receipts.

ghost use Rattle.std.specs.Prelude.{◌≡◌, Some, IsSome, slice_get, unwrap_or};
ghost use Rattle.ct_board.specs.Board.{no_batch};

use crate::board::Board;
use ct_abcast::Batch;
use once_cell::race::Note;
use std::marker::Model;

/// Where a batch was posted. Whoever holds it reads that batch there, whatever others do with the board.
#[derive(Drop)]
pub struct Receipt {
    place: usize,
    note: Note<Batch>,
}

// Contracts see the place, the name of its cell, and the batch.
impl Model for Receipt {
    ghost use Rattle.std.specs.Prelude.{IsSome, unwrap_or};
    ghost use Rattle.ct_board.specs.Board.{Posted, no_batch};

    ghost Value = { Posted };

    ghost view = { λ r. record { place = r.place; cell = r.note.cell; batch = unwrap_or r.note.known no_batch } };

    ghost invariant = { λ r. IsSome r.note.known };
}

impl Receipt {
    // The receipt of the place, whose note knows what was posted.
    pub(crate) fn of(place: usize, note: Note<Batch>) -> Receipt
        requires { IsSome note.known }
        ensures place { result.place ≡ place }
        ensures cell { result.cell ≡ note.cell }
        ensures batch { result.batch ≡ unwrap_or note.known no_batch }
    {
        Receipt { place, note }
    }

    /// The place that was posted.
    pub fn place(&self) -> usize
        ensures { result ≡ self.now.place }
    {
        self.place
    }

    /// The batch that was posted, always. The board has to be the one that it was posted on.
    pub fn read<'b>(&mut self, board: &'b Board) -> &'b Batch
        requires { slice_get board.now self.old.place ≡ Some self.old.cell }
        ensures batch { result.now ≡ self.old.batch }
        ensures same { self.new ≡ self.old }
    {
        match board.look(self.place, &mut self.note) {
            Some(batch) => batch,
            None => unreachable!(),
        }
    }
}
