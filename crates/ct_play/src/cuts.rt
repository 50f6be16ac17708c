//! What a member does not see of a group that is cut.

ghost use Rattle.std.specs.Prelude.{◌≡◌};
ghost use Rattle.ct_play.specs.Cuts.{barred, first_near, is_beside, is_near, near};

use crate::line_fault::LineFault;
use crate::picking::waiting_at;
use crate::stage::Stage;
use ct_grammar::Sides;
use ct_model::Step;
use ct_names::{Member, Serial};

// The step that a driver tries, where it sees nothing of the other sides.
pub(crate) fn near(stage: &Stage, step: Option<Step>) -> Option<Step>
    ensures { result ≡ near stage.now step }
{
    match step {
        Some(Step::Receive(member, _)) => {
            let serial = first_near(stage, member)?;
            Some(Step::Receive(member, serial))
        }
        _ => step,
    }
}

// Why the cut forbids the step.
pub(crate) fn barred(stage: &Stage, step: Step) -> Option<LineFault>
    ensures { result ≡ barred stage.now step }
{
    match step {
        Step::Receive(member, serial) if !is_near(stage, member, serial) => {
            Some(LineFault::Across(member, serial))
        }
        _ => None,
    }
}

/// The first serial that waits at the member and was sent on its side: the one that a driver receives.
#[tactic(auto, unfolding(crate::specs::Cuts::first_near))]
pub fn first_near(stage: &Stage, member: Member) -> Option<Serial>
    ensures { result ≡ first_near stage.now member }
{
    waiting_at(stage, member)
        .iter()
        .copied()
        .find(|serial| is_near(stage, member, *serial))
}

// Whether the envelope of the serial was sent on the member's side.
#[tactic(auto, unfolding(crate::specs::Cuts::is_near))]
fn is_near(stage: &Stage, member: Member, serial: Serial) -> bool
    ensures { result ≡ is_near stage.now member serial }
{
    is_beside(stage.sides(), member, stage.sender(serial))
}

fn is_beside(sides: Sides, member: Member, sender: Option<Member>) -> bool
    ensures { result ≡ is_beside sides member sender }
{
    match sender {
        None => true,
        Some(sender) => sides.together(member, sender),
    }
}
