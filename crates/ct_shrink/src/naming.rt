//! The lines of steps, and other lines in their place.

ghost use Rattle.std.specs.Prelude.{◌≡◌, Ok, None};
ghost use Rattle.ct_model.specs.Cause.{cause};
ghost use Rattle.ct_play.specs.Acting.{step_of};
ghost use Rattle.ct_shrink.specs.Lines.{best_choice, other_act, other_line, other_pick, other_repeat};
ghost use Rattle.ct_shrink.specs.Naming.{IsByContent};
ghost use Rattle.ct_shrink.specs.Playing.{line_of};

use crate::line::Line;
use ct_grammar::{Act, Pick};
use ct_listing::{Naming, act_of};
use ct_merge::law_names;
use ct_model::Step;
use ct_names::Member;
use ct_play::{Stage, picked, repeated};

// ---- the lines of steps

// The line of an allowed step that is taken next.
pub(crate) fn line_of(stage: &Stage, step: Step) -> Line
    requires { cause stage.now.rehearsal step ≡ None }
    ensures is { result ≡ line_of stage.now.rehearsal step }
    ensures step { step_of stage.now.rehearsal result.member result.act ≡ Ok step }
    ensures named { IsByContent result }
{
    // In a run each name is that of one envelope.
    let _ = stage.world().record();
    law_names();
    Line {
        member: step.member(),
        act: act_of(stage, step, Naming::Full),
    }
}

// ---- other lines

// The line that is tried where this one is refused.
#[tactic(auto, unfolding(crate::specs::Lines::other_line))]
pub(crate) fn other_line(stage: &Stage, line: &Line) -> Option<Line>
    ensures { result ≡ other_line stage.now.rehearsal line.now }
{
    let act = other_act(stage, line.member, line.act)?;
    Some(Line {
        member: line.member,
        act,
    })
}

fn other_act(stage: &Stage, member: Member, act: Act) -> Option<Act>
    ensures { result ≡ other_act stage.now.rehearsal member act }
{
    match act {
        Act::Receive(pick) => Some(Act::Receive(other_pick(stage, member, pick)?)),
        Act::Postpone(pick) => Some(Act::Postpone(other_pick(stage, member, pick)?)),
        Act::Lose(pick) => Some(Act::Lose(other_pick(stage, member, pick)?)),
        Act::Repeat(pick) => Some(Act::Repeat(other_repeat(stage, member, pick)?)),
        Act::Choose(_) => Some(Act::Choose(best_choice(stage, member)?)),
        Act::Adopt => Some(Act::Suspect),
        Act::Suspect => Some(Act::Adopt),
        Act::Deliver => Some(Act::Follow),
        Act::Follow => Some(Act::Deliver),
        _ => None,
    }
}

// The name with the sender of the first envelope that carries this and waits at the member.
fn other_pick(stage: &Stage, member: Member, pick: Pick) -> Option<Pick>
    ensures { result ≡ other_pick stage.now.rehearsal member pick }
{
    match pick {
        Pick::Serial(_) => None,
        Pick::First(carried, _) => {
            let serial = picked(stage, member, Pick::First(carried, None))?;
            Some(Pick::First(carried, stage.sender(serial)))
        }
    }
}

// The same of an envelope that the member gets again.
fn other_repeat(stage: &Stage, member: Member, pick: Pick) -> Option<Pick>
    ensures { result ≡ other_repeat stage.now.rehearsal member pick }
{
    match pick {
        Pick::Serial(_) => None,
        Pick::First(carried, _) => {
            let serial = repeated(stage, member, Pick::First(carried, None))?;
            Some(Pick::First(carried, stage.sender(serial)))
        }
    }
}

// The least member whose estimate the member may choose.
#[tactic(auto, unfolding(crate::specs::Lines::best_choice))]
fn best_choice(stage: &Stage, member: Member) -> Option<Member>
    ensures { result ≡ best_choice stage.now.rehearsal member }
{
    let world = stage.world();
    (1..world.group().n() + 1).find(|from| world.enabled(&Step::Choose(member, *from)).is_ok())
}
