//! What lines come to in a world.

ghost use Rattle.std.specs.Prelude.{◌≡◌, Ok, OnOk, OnErr, IfErr};
ghost use Rattle.ct_play.specs.Faults.{IsFaultOf, IsKept};
ghost use Rattle.ct_play.specs.Played.{IsLater};
ghost use Rattle.ct_play.specs.Playing.{asked, asked_of, played};
ghost use Rattle.ct_play.specs.Parts.{IsPartOf};

use crate::acting::act;
use crate::expecting::expect;
use crate::line_fault::LineFault;
use crate::stage::Stage;
use crate::stating::state;
use crate::turning::{reach, settle, turns};
use ct_grammar::{Play, Question, Sides};
use ct_names::Member;
use std::alloc::Global;

/// Plays the line. One that is refused changes nothing; where memory is refused, or the board, steps of its first members and
/// rounds may have joined the record.
#[tactic(auto, using(crate::proofs::Parts::back, crate::proofs::Faulty::kept))]
pub fn play(alloc: Global, stage: &mut Stage, play: &Play) -> Result<(), LineFault>
    ensures ok { OnOk result (played stage.old play.now ≡ Ok stage.new) }
    ensures err { IfErr result (IsFaultOf (played stage.old play.now)) }
    ensures same { IfErr result (IsKept stage.old stage.new) }
    ensures part { OnErr result (IsPartOf stage.old play.now stage.new) }
{
    let count = stage.world().record().len();
    let Err(fault) = play_on(alloc, stage, play) else {
        return Ok(());
    };
    if !fault.is_short() {
        stage.go_back(count)?;
    }
    Err(fault)
}

// The same, and the steps of a line that is refused stay.
fn play_on(alloc: Global, stage: &mut Stage, play: &Play) -> Result<(), LineFault>
    ensures ok { OnOk result (played stage.old play.now ≡ Ok stage.new) }
    ensures err { IfErr result (IsFaultOf (played stage.old play.now)) }
    ensures part { OnErr result (IsPartOf stage.old play.now stage.new) }
    ensures later { OnErr result (IsLater stage.old stage.new) }
{
    match play {
        Play::Act(who, what) => act(alloc, stage, *who, *what),
        Play::Stated(who, what, said) => state(alloc, stage, who, what, said),
        Play::Turns(who, count, _) => turns(alloc, stage, play, *who, *count),
        Play::Settle(who, _) => settle(alloc, stage, play, *who),
        Play::Until(who, _, goal) => reach(alloc, stage, play, *who, goal),
        Play::Cut(sides) => cut(stage, *sides),
        Play::Heal => cut(stage, Sides::whole()),
        Play::Expect(goal) => expect(stage, goal),
        Play::Ask(question) => ask(stage, *question),
    }
}

fn cut(stage: &mut Stage, sides: Sides) -> Result<(), LineFault>
    ensures ok { OnOk result (stage.new ≡ record stage.old { sides = sides }) }
    ensures never { OnErr result ⊥ }
{
    stage.cut(sides);
    Ok(())
}

// A question's member has to be one of the group's.
fn ask(stage: &Stage, question: Question) -> Result<(), LineFault>
    ensures ok { OnOk result (asked stage.now question ≡ Ok stage.now) }
    ensures err { IfErr result (IsFaultOf (asked stage.now question)) }
{
    match question {
        Question::Enabled(member) => ask_of(stage, member),
        Question::Next(member) => ask_of(stage, member),
        Question::State(member) => ask_of(stage, member),
        Question::Waiting(member) => ask_of(stage, member),
        Question::Report => Ok(()),
        Question::Record => Ok(()),
        Question::Limits => Ok(()),
    }
}

fn ask_of(stage: &Stage, member: Member) -> Result<(), LineFault>
    ensures ok { OnOk result (asked_of stage.now member ≡ Ok stage.now) }
    ensures err { IfErr result (IsFaultOf (asked_of stage.now member)) }
{
    if stage.world().group().has(member) {
        Ok(())
    } else {
        Err(LineFault::NoSuchMember(member))
    }
}
