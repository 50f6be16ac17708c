//! What C is told of a record.

ghost use Rattle.std.specs.Prelude.{◌≡◌, ◌≤◌};
ghost use Rattle.ct_embed.specs.Records.{not_opened, opened, unread};

use crate::numbers::{NO_RECORD, OUT_OF_MEMORY};
use crate::own_world::OwnWorld;
use ct_records::ReadFault;

/// Why no world was opened of a record, 0 where one was, and the step at which it was refused, counted from 1, 0 where that is no step;
/// and what the world is made of, zeros where there is none.
#[repr(C)]
#[derive(Clone, Copy)]
pub struct Opened {
    pub at: usize,
    pub refusal: u32,
    pub bound: u32,
    pub cells: u16,
    pub members: u8,
}

impl Opened {
    // The world was opened.
    pub(crate) fn of(own: &OwnWorld) -> Opened
        ensures { result ≡ opened own.now }
    {
        let world = own.world();
        Opened {
            at: 0,
            refusal: 0,
            bound: world.bound(),
            cells: world.cells(),
            members: world.group().n(),
        }
    }

    // None was, for this reason, at this step.
    pub(crate) fn refused(refusal: u32, at: usize) -> Opened
        ensures { result ≡ not_opened refusal at }
    {
        Opened {
            at,
            refusal,
            bound: 0,
            cells: 0,
            members: 0,
        }
    }

    // No record was read, for this reason.
    pub(crate) fn unread(fault: ReadFault) -> Opened
        ensures value { result ≡ unread fault }
        ensures some { 1 ≤ result.refusal }
    {
        match fault {
            ReadFault::TooLong | ReadFault::NotJson | ReadFault::Version => {
                Opened::refused(NO_RECORD, 0)
            }
            ReadFault::Shape { at } => Opened::refused(NO_RECORD, at),
            ReadFault::OutOfMemory => Opened::refused(OUT_OF_MEMORY, 0),
        }
    }
}
