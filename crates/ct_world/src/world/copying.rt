//! A world once more.

ghost use Rattle.std.specs.Prelude.{◌≡◌, None, IfOk, IfErr};

use crate::kept::Kept;
use crate::seats;
use crate::world::World;
use ct_names::Refusal;
use std::alloc::{AllocError, Global};

impl World {
    /// A world with the same group, cells, bound and record, in which no step is prepared. Only memory can be refused.
    pub fn copy(&self, alloc: Global) -> Result<World, Refusal>
        ensures ok { IfOk result (λ world. world ≡ record self.now { prepared = None }) }
        ensures err { IfErr result (λ refusal. refusal ≡ Refusal.OutOfMemory) }
    {
        match self.copy_fields(alloc) {
            Ok(world) => Ok(world),
            Err(_) => Err(Refusal::OutOfMemory),
        }
    }

    fn copy_fields(&self, alloc: Global) -> Result<World, AllocError>
        ensures { IfOk result (λ world. world ≡ record self.now { prepared = None }) }
    {
        let kept = &self.kept;
        Ok(World {
            kept: Kept {
                group: kept.group,
                cells: kept.cells,
                bound: kept.bound,
                steps: Vec::from_slice(alloc, &kept.steps)?,
                network: kept.network.copy(alloc)?,
                book: kept.book.copy(alloc)?,
                seats: seats::copy_seats(alloc, &kept.seats)?,
                alloc,
            },
            prepared: None,
        })
    }
}
