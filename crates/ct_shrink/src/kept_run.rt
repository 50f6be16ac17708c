//! Runs that are left of others.

ghost use Rattle.std.specs.Prelude.{◌≡◌, ◌++◌, ◌∷◌, [], OnOk};

use crate::line::Line;
use ct_grammar::Act;
use ct_names::Member;
use ct_world::World;
use std::alloc::AllocError;

// A run, with its lines.
#[derive(Drop)]
pub(crate) struct KeptRun {
    pub(crate) lines: Vec<Line>,
    pub(crate) world: World,
}

// Appends the line in which the member does this.
pub(crate) fn push_line(lines: &mut Vec<Line>, member: Member, act: Act) -> Result<(), AllocError>
    ensures { OnOk result (lines.new.items ≡ lines.old.items ++ record { member = member; act = act } ∷ []) }
{
    lines.push(Line { member, act })?;
    Ok(())
}
