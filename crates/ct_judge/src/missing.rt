//! What is told of an envelope that is not there.

ghost use Rattle.std.specs.Prelude.{OnOk};
ghost use Rattle.ct_text.specs.Adds.{Adds};
ghost use Rattle.ct_play.specs.Picking.{waiting_at};
ghost use Rattle.ct_judging.specs.Missing.{across_text, gone_text, missing_text, none_from_text, taking_text, took_text};
ghost use Rattle.ct_judging.specs.Naming.{envelope_name, pick_name, shortened};
ghost use Rattle.ct_judging.specs.Wording.{behind};

use crate::naming::{push_envelope, push_pick, push_shortened};
use crate::wording::{push_member_number, push_number};
use ct_grammar::Pick;
use ct_model::Step;
use ct_names::{Member, Serial};
use ct_play::{Stage, repeated, waiting_at};
use ct_show::last_taking;
use ct_world::World;
use std::alloc::AllocError;

// Where the envelope went that the member's step names, and what waits at the member.
#[tactic(auto, unfolding(ct_judging::specs::Missing::missing_text))]
pub(crate) fn push_missing(
    text: &mut String,
    stage: &Stage,
    member: Member,
    pick: Pick,
) -> Result<(), AllocError>
    ensures { OnOk result (Adds text.old text.new (missing_text stage.now.rehearsal member pick)) }
{
    push_pick_behind(text, "not there: ", pick)?;
    push_gone(text, stage.world(), member, repeated(stage, member, pick))?;
    push_waits(text, "; waits: ", stage, member)
}

// Nothing that certain members sent waits at the member.
#[tactic(auto, unfolding(ct_judging::specs::Missing::none_from_text))]
pub(crate) fn push_none_from(
    text: &mut String,
    stage: &Stage,
    member: Member,
) -> Result<(), AllocError>
    ensures { OnOk result (Adds text.old text.new (none_from_text stage.now.rehearsal member)) }
{
    push_number(
        text,
        "not there: nothing from them waits at ",
        usize::from(member),
    )?;
    push_waits(text, "; waits: ", stage, member)
}

// The envelope was sent on another side.
#[tactic(auto, unfolding(ct_judging::specs::Missing::across_text))]
pub(crate) fn push_across(
    text: &mut String,
    stage: &Stage,
    serial: Serial,
) -> Result<(), AllocError>
    ensures { OnOk result (Adds text.old text.new (across_text stage.now.rehearsal serial)) }
{
    push_envelope_behind(text, "across the cut: ", stage, serial)
}

#[tactic(auto, unfolding(ct_judging::specs::Wording::behind))]
fn push_pick_behind(text: &mut String, words: &str, pick: Pick) -> Result<(), AllocError>
    ensures { OnOk result (Adds text.old text.new (behind words.now (pick_name pick))) }
{
    text.push_str(words)?;
    push_pick(text, pick)
}

#[tactic(auto, unfolding(ct_judging::specs::Wording::behind))]
fn push_envelope_behind(
    text: &mut String,
    words: &str,
    stage: &Stage,
    serial: Serial,
) -> Result<(), AllocError>
    ensures { OnOk result (Adds text.old text.new (behind words.now (envelope_name stage.now.rehearsal serial))) }
{
    text.push_str(words)?;
    push_envelope(text, stage, serial)
}

// What waits at the member.
#[tactic(auto, unfolding(ct_judging::specs::Wording::behind))]
fn push_waits(
    text: &mut String,
    words: &str,
    stage: &Stage,
    member: Member,
) -> Result<(), AllocError>
    ensures { OnOk result (Adds text.old text.new
        (behind words.now (shortened (envelope_name stage.now.rehearsal) (waiting_at stage.now.rehearsal member)))) }
{
    text.push_str(words)?;
    push_shortened(text, stage, waiting_at(stage, member))
}

// Where the last one went that was sent to the member and is so named.
fn push_gone(
    text: &mut String,
    world: &World,
    member: Member,
    last: Option<Serial>,
) -> Result<(), AllocError>
    ensures { OnOk result (Adds text.old text.new (gone_text world.now.rehearsal member last)) }
{
    match last {
        None => push_number(text, " was never sent to ", usize::from(member)),
        Some(serial) => push_taking(text, last_taking(world.record(), serial)),
    }
}

// What took an envelope out of its line.
fn push_taking(text: &mut String, taking: Option<(usize, Step)>) -> Result<(), AllocError>
    ensures { OnOk result (Adds text.old text.new (taking_text taking)) }
{
    match taking {
        None => Ok(()),
        Some((number, step)) => push_took(text, number, step),
    }
}

fn push_took(text: &mut String, number: usize, step: Step) -> Result<(), AllocError>
    ensures { OnOk result (Adds text.old text.new (took_text number step)) }
{
    match step {
        Step::Receive(member, _) => {
            push_member_number(text, " was received by ", member, " in step ", number)
        }
        Step::Lose(..) => push_number(text, " was lost in step ", number),
        _ => Ok(()),
    }
}
