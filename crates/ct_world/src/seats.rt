//! What is kept of all members.

ghost use Rattle.std.specs.Prelude.{IfOk};
ghost use Rattle.ct_world.specs.Seats.{AreNewSeats, AreSameSeats};

use crate::seat::Seat;
use ct_names::Group;
use std::alloc::{AllocError, Global};

/// The seats of the group's members, which have done nothing. Only memory can be refused.
pub(crate) fn new_seats(alloc: Global, group: Group) -> Result<Vec<Seat>, AllocError>
    ensures { IfOk result (λ seats. AreNewSeats group group seats.items) }
{
    let mut seats = Vec::new(alloc);
    for i in 0..group.n() {
        seats.push(Seat::new(alloc, group, i + 1))?;
    }
    Ok(seats)
}

/// Seats that keep the same. Only memory can be refused.
pub(crate) fn copy_seats(alloc: Global, seats: &[Seat]) -> Result<Vec<Seat>, AllocError>
    ensures { IfOk result (λ copies. AreSameSeats seats.now copies.items) }
{
    let mut copies = Vec::new(alloc);
    for i in 0..seats.len() {
        copies.push(seats[i].copy(alloc)?)?;
    }
    Ok(copies)
}
