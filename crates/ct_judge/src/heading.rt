//! The numbers of a group, as lines give them.

ghost use Rattle.std.specs.Prelude.{◌≡◌};
ghost use Rattle.ct_judging.specs.Standing.{given_in, with_batch, with_cells, with_members};

use ct_grammar::Given;
use ct_judging::Heading;
use ct_names::{Group, MAX_BOUND, MAX_CELLS, MAX_MEMBERS};

// The same with this number of the group.
pub(crate) fn given_in(heading: Heading, given: Given) -> Option<Heading>
    ensures { result ≡ given_in heading given }
{
    match given {
        Given::Members(members) => with_members(heading, members),
        Given::Cells(cells) => with_cells(heading, cells),
        Given::Batch(batch) => with_batch(heading, batch),
    }
}

// The same with so many members.
fn with_members(heading: Heading, members: u8) -> Option<Heading>
    ensures { result ≡ with_members heading members }
{
    if 1 <= members && members <= MAX_MEMBERS {
        Some(Heading {
            group: Group::new(members),
            ..heading
        })
    } else {
        None
    }
}

// The same with so many cells.
fn with_cells(heading: Heading, cells: u16) -> Option<Heading>
    ensures { result ≡ with_cells heading cells }
{
    if cells <= MAX_CELLS {
        Some(Heading { cells, ..heading })
    } else {
        None
    }
}

// The same with this bound.
fn with_batch(heading: Heading, batch: u32) -> Option<Heading>
    ensures { result ≡ with_batch heading batch }
{
    if 1 <= batch && batch <= MAX_BOUND {
        Some(Heading { batch, ..heading })
    } else {
        None
    }
}
