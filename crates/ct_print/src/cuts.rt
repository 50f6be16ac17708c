//! Cuts, as lines say them.

ghost use Rattle.std.specs.Prelude.{◌≡◌, ◌++◌, OnOk, string_bytes};
ghost use Rattle.ct_print.specs.Cuts.{is_other, side_text, sides_text};

use crate::members::push_between;
use ct_grammar::Sides;
use ct_names::{MAX_MEMBERS, Member};
use std::alloc::AllocError;

/// The sides, with bars between them.
pub(crate) fn push_sides(text: &mut String, sides: &Sides) -> Result<(), AllocError>
    ensures { OnOk result (string_bytes text.new ≡ string_bytes text.old ++ sides_text sides.now) }
{
    let mut later = false;
    for i in 0..MAX_MEMBERS {
        let member = i + 1;
        if sides.side(member) == member {
            push_between(text, " | ", later)?;
            push_side(text, sides, member)?;
            later = true;
        }
    }
    Ok(())
}

// The members on the side of this number, with commas between them: this one first.
fn push_side(text: &mut String, sides: &Sides, side: u8) -> Result<(), AllocError>
    ensures { OnOk result (string_bytes text.new ≡ string_bytes text.old ++ side_text sides.now side) }
{
    write!(text, "{side}")?;
    for i in 0..MAX_MEMBERS {
        let member = i + 1;
        if is_other(sides, side, member) {
            write!(text, ",{member}")?;
        }
    }
    Ok(())
}

// Whether the member is one more on the side of this number.
fn is_other(sides: &Sides, side: u8, member: Member) -> bool
    ensures { result ≡ is_other sides.now side member }
{
    member != side && sides.side(member) == side
}
