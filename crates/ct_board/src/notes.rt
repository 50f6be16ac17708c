//! Notes of a board's cells, one for each.

ghost use Rattle.std.specs.Prelude.{◌≡◌, ◌<◌, length, replicate, slice_set, slice_index_or, None, Some, IfOk, IfNone, IfSome};
ghost use Rattle.ct_board.specs.Known.{Keeps, Knows, SameWhereKnown};
ghost use Rattle.ct_board.specs.Notes.{cells_of, known_of};

use crate::board::Board;
use ct_abcast::Batch;
use once_cell::race::Note;
use std::alloc::{AllocError, Global};

// A note of each cell, none of which knows anything.
pub(crate) fn note_each(alloc: Global, board: &Board) -> Result<Vec<Note<Batch>>, AllocError>
    ensures cells { IfOk result (λ notes. cells_of notes.items ≡ board.now) }
    ensures known { IfOk result (λ notes. known_of notes.items ≡ replicate (length board.now) None) }
{
    let mut notes = Vec::with_capacity(alloc, board.cells())?;
    for place in 0..board.cells() {
        notes.push(board.note(place))?;
    }
    Ok(notes)
}

// The batch of the cell at the place, which the note of the place then knows. None comes only where it knew nothing.
pub(crate) fn look_at<'b>(
    notes: &mut Vec<Note<Batch>>,
    board: &'b Board,
    place: usize,
) -> Option<&'b Batch>
    requires board { board.now ≡ cells_of notes.old.items }
    requires place { place < length notes.old.items }
    ensures cells { cells_of notes.new.items ≡ cells_of notes.old.items }
    ensures some { IfSome result (λ batch. known_of notes.new.items ≡ slice_set (known_of notes.old.items) place (Some batch.now)) }
    ensures none { IfNone result (notes.new.items ≡ notes.old.items) }
    ensures unknown { IfNone result (slice_index_or (known_of notes.old.items) place None ≡ None) }
    ensures known { IfSome result (λ batch. Knows (known_of notes.new.items) place batch.now) }
    ensures keeps { Keeps (known_of notes.old.items) (known_of notes.new.items) }
{
    board.look(place, &mut notes[place])
}

// Compares what both know, place by place. Notes of the same cells that know a batch know the same one.
pub(crate) fn compare_all(mine: &mut Vec<Note<Batch>>, theirs: &mut Vec<Note<Batch>>)
    requires { cells_of mine.old.items ≡ cells_of theirs.old.items }
    ensures mine { mine.new.items ≡ mine.old.items }
    ensures theirs { theirs.new.items ≡ theirs.old.items }
    ensures same { SameWhereKnown (known_of mine.old.items) (known_of theirs.old.items) }
{
    for place in 0..mine.len() {
        let copy = theirs[place].again();
        mine[place].compare(copy);
    }
}
