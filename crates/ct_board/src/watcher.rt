//! Watchers.

ghost use Rattle.std.specs.Prelude.{◌≡◌, ◌+◌, ◌<◌, ◌≤◌, ◌++◌, ◌∷◌, [], All, None, Some, length, replicate, slice_get, slice_set, take};
ghost use Rattle.std.specs.Prelude.{IfOk, IfNone, IfSome, IsSome, IsSomeAnd};
ghost use Rattle.ct_names.specs.Batch.{Batch as Plain};
ghost use Rattle.ct_table.specs.Table.{table as table_of};
ghost use Rattle.ct_board.specs.Known.{Keeps, Knows};
ghost use Rattle.ct_names.specs.Prefix.{IsPrefix, OneBegins};
ghost use Rattle.ct_board.specs.Watched.{batches_read, batches_told, messages_of};

use crate::board::Board;
use crate::notes::{compare_all, look_at, note_each};
use ct_abcast::Batch;
use ct_table::Table;
use once_cell::race::Note;
use std::alloc::{AllocError, Global};
use std::marker::Model;

/// Reads the batches of a board one after another, from place 0 on, and keeps the table that they make. It may also be told
/// how many batches were posted, and then finds those. Once it is made it takes neither memory nor a lock.
///
/// Wherever it is handed a board, that has to be the one that it was made with.
#[derive(Drop)]
pub struct Watcher {
    // What it knows of each cell.
    notes: Vec<Note<Batch>>,
    read: usize,
    told: usize,
    // What the batches that it read make.
    table: Table,
}

// Contracts see what it knows of each cell, and how many batches it read and was told of.
impl Model for Watcher {
    ghost use Rattle.std.specs.Prelude.{◌≡◌};
    ghost use Rattle.ct_table.specs.Table.{table as table_of};
    ghost use Rattle.ct_board.specs.Watched.{Watched, IsWatching, batches_read, messages_of};
    ghost use Rattle.ct_board.specs.Watching.{watched_of};

    ghost Value = { Watched };

    ghost view = { watched_of };

    ghost invariant = { λ w. IsWatching (watched_of w) × (w.table ≡ table_of (messages_of (batches_read (watched_of w)))) };
}

impl Watcher {
    /// A watcher of the board that read nothing and was told of nothing, or the error where memory is refused.
    pub fn new(alloc: Global, board: &Board) -> Result<Watcher, AllocError>
        ensures cells { IfOk result (λ watcher. watcher.cells ≡ board.now) }
        ensures notes { IfOk result (λ watcher. watcher.notes ≡ replicate (length board.now) None) }
        ensures read { IfOk result (λ watcher. watcher.read ≡ 0) }
        ensures told { IfOk result (λ watcher. watcher.told ≡ 0) }
    {
        Ok(Watcher {
            notes: note_each(alloc, board)?,
            read: 0,
            told: 0,
            table: Table::new(),
        })
    }

    /// How many batches it read.
    pub fn read(&self) -> usize
        ensures number { result ≡ self.now.read }
        ensures batches { result ≡ length (batches_read self.now) }
    {
        self.read
    }

    /// How many batches it was told of.
    pub fn told(&self) -> usize
        ensures number { result ≡ self.now.told }
        ensures batches { result ≡ length (batches_told self.now) }
    {
        self.told
    }

    /// The table of the batches that it read, always.
    pub fn table(&self) -> &Table
        ensures { result.now ≡ table_of (messages_of (batches_read self.now)) }
    {
        &self.table
    }

    /// Reads the next cell: its batch joins those that were read. None comes only where as many were read as it was told of,
    /// or more, and changes nothing.
    pub fn next<'b>(&mut self, board: &'b Board) -> Option<&'b Batch>
        requires { board.now ≡ self.old.cells }
        ensures read { IfSome result (λ batch. batches_read self.new ≡ batches_read self.old ++ batch.now ∷ []) }
        ensures below { self.old.read < self.old.told → IsSomeAnd result
            (λ batch. slice_get (batches_told self.old) self.old.read ≡ Some batch.now) }
        ensures told { batches_told self.new ≡ batches_told self.old }
        ensures cells { self.new.cells ≡ self.old.cells }
        ensures some { IfSome result (λ batch. self.new ≡ record self.old {
          notes =
              slice_set self.old.notes self.old.read (Some batch.now);
          read = self.old.read + 1;
        }) }
        ensures none { IfNone result (self.new ≡ self.old) }
    {
        if self.read >= self.notes.len() {
            return None;
        }
        let batch = look_at(&mut self.notes, board, self.read)?;
        self.table.apply_all(batch.messages());
        self.read += 1;
        Some(batch)
    }

    /// The batch of the cell at the place. The watcher knows it from then on, and is always given it again. None comes only
    /// where it knew no batch of that cell, as where there is no such cell. The batches that it read or was told of stay.
    pub fn look<'b>(&mut self, board: &'b Board, place: usize) -> Option<&'b Batch>
        requires { board.now ≡ self.old.cells }
        ensures some { IfSome result (λ batch. self.new ≡ record self.old { notes = slice_set self.old.notes place (Some batch.now) }) }
        ensures none { IfNone result (self.new ≡ self.old) }
        ensures known { IfSome result (λ batch. Knows self.new.notes place batch.now) }
        ensures again { (b : Plain) → Knows self.old.notes place b → IsSomeAnd result (λ batch. batch.now ≡ b) }
        ensures keeps { Keeps self.old.notes self.new.notes }
        ensures read { batches_read self.new ≡ batches_read self.old }
        ensures told { batches_told self.new ≡ batches_told self.old }
    {
        if place >= self.notes.len() {
            return None;
        }
        look_at(&mut self.notes, board, place)
    }

    /// Tells it of so many batches, no fewer than before. It has to know them, as it does once it looked at their cells.
    pub fn tell(&mut self, number: usize)
        requires more { self.old.told ≤ number }
        requires within { number ≤ length self.old.cells }
        requires known { All IsSome (take number self.old.notes) }
        ensures told { self.new ≡ record self.old { told = number } }
        ensures longer { IsPrefix (batches_told self.old) (batches_told self.new) }
    {
        self.told = number;
    }

    /// Compares what two watchers of one board know: of any two of their four lists, those of the batches that each read and
    /// was told of, one begins the other. Both watchers stay as they are.
    pub fn share(&mut self, other: &mut Watcher)
        requires { other.old.cells ≡ self.old.cells }
        ensures same { self.new ≡ self.old }
        ensures other_same { other.new ≡ other.old }
        ensures own { OneBegins (batches_read self.old) (batches_told self.old) }
        ensures other_own { OneBegins (batches_read other.old) (batches_told other.old) }
        ensures read_read { OneBegins (batches_read self.old) (batches_read other.old) }
        ensures read_told { OneBegins (batches_read self.old) (batches_told other.old) }
        ensures told_read { OneBegins (batches_told self.old) (batches_read other.old) }
        ensures told_told { OneBegins (batches_told self.old) (batches_told other.old) }
    {
        compare_all(&mut self.notes, &mut other.notes);
    }
}
