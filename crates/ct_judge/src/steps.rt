//! The lines that steps are.

ghost use Rattle.std.specs.Prelude.{◌≡◌, ◌++◌, OnOk, flat_map};
ghost use Rattle.ct_text.specs.Adds.{Adds};
ghost use Rattle.ct_judging.specs.Steps.{act_of, named, named_by, step_line};
ghost use Rattle.ct_judge.specs.Steps.{step_lines};

use ct_grammar::{Act, Line, Pick, Play, Who};
use ct_model::Step;
use ct_names::{Member, Serial};
use ct_play::{Stage, carried_of};
use ct_print::push_line;
use ct_world::Letter;
use std::alloc::AllocError;

// ---- the line of a step

// Appends the line of the step.
#[tactic(auto, unfolding(ct_judging::specs::Steps::step_line))]
pub(crate) fn push_step(text: &mut String, stage: &Stage, step: Step) -> Result<(), AllocError>
    ensures { OnOk result (Adds text.old text.new (step_line stage.now.rehearsal step)) }
{
    let line = Line::Play(Play::Act(Who::One(step.member()), act_of(stage, step)));
    push_line(text, &line)
}

// What the member does in the step.
pub(crate) fn act_of(stage: &Stage, step: Step) -> Act
    ensures { result ≡ act_of stage.now.rehearsal step }
{
    match step {
        Step::Submit(_, command) => Act::Submit(command),
        Step::Receive(_, serial) => Act::Receive(named(stage, serial)),
        Step::Begin(_) => Act::Begin,
        Step::Enter(_) => Act::Enter,
        Step::Choose(_, from) => Act::Choose(from),
        Step::Adopt(_) => Act::Adopt,
        Step::Suspect(_) => Act::Suspect,
        Step::Conclude(_) => Act::Conclude,
        Step::Deliver(_) => Act::Deliver,
        Step::Follow(_) => Act::Follow,
        Step::Crash(_) => Act::Crash,
        Step::Postpone(_, serial) => Act::Postpone(named(stage, serial)),
        Step::Lose(_, serial) => Act::Lose(named(stage, serial)),
        Step::Repeat(_, serial) => Act::Repeat(named(stage, serial)),
    }
}

// The envelope, by what it carries and who sent it.
#[tactic(auto, unfolding(ct_judging::specs::Steps::named))]
fn named(stage: &Stage, serial: Serial) -> Pick
    ensures { result ≡ named stage.now.rehearsal serial }
{
    named_by(serial, stage.world().letter(serial), stage.sender(serial))
}

fn named_by(serial: Serial, letter: Option<Letter>, from: Option<Member>) -> Pick
    ensures { result ≡ named_by serial letter from }
{
    match letter {
        None => Pick::Serial(serial),
        Some(letter) => Pick::First(carried_of(&letter.wire), from),
    }
}

// ---- several

// Appends the lines of the steps, this text between each two; a dash where there is none.
pub(crate) fn push_steps(
    text: &mut String,
    stage: &Stage,
    between: &str,
    steps: &[Step],
) -> Result<(), AllocError>
    ensures { OnOk result (Adds text.old text.new (step_lines between.now stage.now.rehearsal steps.now)) }
{
    match steps {
        [] => text.push_str("-"),
        [first, rest @ ..] => {
            push_step(text, stage, *first)?;
            push_more(text, stage, between, rest)
        }
    }
}

fn push_more(
    text: &mut String,
    stage: &Stage,
    between: &str,
    steps: &[Step],
) -> Result<(), AllocError>
    ensures { OnOk result (Adds text.old text.new
        (flat_map (λ step. between.now ++ step_line stage.now.rehearsal step) steps.now)) }
{
    for step in steps {
        text.push_str(between)?;
        push_step(text, stage, *step)?;
    }
    Ok(())
}
