//! What a watcher is told.

ghost use Rattle.std.specs.Prelude.{◌≡◌, ◌<◌, length, IfErr, IsErr, OnErr, OnOk};
ghost use Rattle.ct_board.specs.Known.{Keeps};
ghost use Rattle.ct_board.specs.Watched.{batches_read, batches_told};
ghost use Rattle.ct_model.specs.Cause.{order};
ghost use Rattle.ct_model.specs.Rehearsal.{state_of};
ghost use Rattle.ct_names.specs.Prefix.{IsPrefix};

use crate::world::World;
use ct_board::{Board, Watcher};
use ct_names::{Instance, Refusal};

impl World {
    /// Tells the watcher how many batches were posted: those are then what it was told of. What it read, and what it was
    /// told of before, begins them. It is refused with Board where it read or was told of more, or where a cell below that
    /// number has no batch or another; what it read and was told of stays then. Met or refused, it knows what it knew, and
    /// may know more. Takes no memory.
    pub fn meet(&self, board: &Board, watcher: &mut Watcher) -> Result<(), Refusal>
        requires { board.now ≡ watcher.old.cells }
        ensures read { OnOk result (IsPrefix (batches_read watcher.old) (order (state_of self.now.rehearsal))) }
        ensures told { OnOk result (IsPrefix (batches_told watcher.old) (order (state_of self.now.rehearsal))) }
        ensures tells { OnOk result (batches_told watcher.new ≡ order (state_of self.now.rehearsal)) }
        ensures number { OnOk result (watcher.new.told ≡ length (order (state_of self.now.rehearsal))) }
        ensures reads { batches_read watcher.new ≡ batches_read watcher.old }
        ensures cells { watcher.new.cells ≡ watcher.old.cells }
        ensures keeps { Keeps watcher.old.notes watcher.new.notes }
        ensures err { OnErr result (batches_told watcher.new ≡ batches_told watcher.old) }
        ensures refusal { IfErr result (λ refusal. refusal ≡ Refusal.Board) }
        ensures read_more { length (order (state_of self.now.rehearsal)) < watcher.old.read → IsErr result }
        ensures told_more { length (order (state_of self.now.rehearsal)) < watcher.old.told → IsErr result }
    {
        // For its clause: the record is a run, so that the batch at each place is of the instance of that number.
        let _ = self.record();
        let first = self.foremost();
        let posted = first.caster.batches();
        if posted < watcher.read() || posted < watcher.told() || board.cells() < posted {
            return Err(Refusal::Board);
        }
        for place in 0..posted {
            let messages = first.caster.batch_at(place).unwrap();
            match watcher.look(board, place) {
                Some(batch) if batch.is_same(place as Instance + 1, messages) => {}
                _ => return Err(Refusal::Board),
            }
        }
        watcher.tell(posted);
        Ok(())
    }
}
