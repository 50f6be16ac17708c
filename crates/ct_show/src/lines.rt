//! The lines of a run: one for each step.

ghost use Rattle.std.specs.Prelude.{◌≤◌, OnOk};
ghost use Rattle.ct_text.specs.Adds.{Adds};
ghost use Rattle.ct_model.specs.Actor.{actor};
ghost use Rattle.ct_show.specs.Lines.{head_text, line_text};

use crate::details::push_detail;
use crate::shapes::push_right;
use crate::wires::push_sent;
use ct_model::Step;
use ct_names::{MAX_ENVELOPES, Member};
use ct_world::World;
use std::alloc::AllocError;

// The number of a step, counted from 1, and its member, in two columns.
#[tactic(auto, unfolding(crate::specs::Lines::head_text))]
pub(crate) fn push_head(text: &mut String, number: usize, member: Member) -> Result<(), AllocError>
    ensures { OnOk result (Adds text.old text.new (head_text number member)) }
{
    push_right(text, number)?;
    push_right(text, usize::from(member))?;
    text.push_str("  ")
}

/// Appends the line of the world's last step, which has this number, counted from 1; so many envelopes had been sent before it.
#[tactic(auto, unfolding(crate::specs::Lines::line_text))]
pub fn push_line(
    text: &mut String,
    world: &World,
    before: u32,
    number: usize,
    step: Step,
) -> Result<(), AllocError>
    requires { before ≤ MAX_ENVELOPES }
    ensures { OnOk result (Adds text.old text.new (line_text world.now.rehearsal before number step)) }
{
    push_head(text, number, step.member())?;
    push_detail(text, world, before, step)?;
    push_sent(text, world, before)?;
    text.push_str("\n")
}
