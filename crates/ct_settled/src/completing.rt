//! How a run could end.

ghost use Rattle.std.specs.Prelude.{◌≡◌, IfErr, IfOk, None, Ok, OnErr, OnOk};
ghost use Rattle.ct_grammar.specs.declared.play.Play.TheVariants.{Turns};
ghost use Rattle.ct_grammar.specs.declared.who.Who.TheVariants.{All};
ghost use Rattle.ct_play.specs.Faults.{IsShort};
ghost use Rattle.ct_play.specs.Played.{IsLater};
ghost use Rattle.ct_play.specs.Playing.{played};
ghost use Rattle.ct_settled.specs.Completing.{completion, crashed};
ghost use Rattle.ct_settled.specs.Hindrance.{hindrance};
ghost use Rattle.ct_settled.specs.Settled.{AreDone};

use crate::hindering::hindrance_of;
use crate::hindrance::Hindrance;
use ct_grammar::{Play, Who};
use ct_names::{MAX_STEPS, MemberSet};
use ct_play::{LineFault, Stage, play};
use ct_world::World;
use std::alloc::Global;

/// How many rounds of turns a completion makes at most. In each but the last a step joins the record, and a record has no more steps.
const ROUNDS: u32 = MAX_STEPS as u32;

/// Takes turns of all members until nothing moves any more: those of the line `all 1000000 turns`, which suspects the members that
/// crashed and nobody else. What stands in the way of all being done then; None where all is done. Short of memory or of the board,
/// steps of such turns may have joined the record.
#[tactic(auto, using(crate::proofs::Turned::line_later, crate::proofs::Turned::only_short))]
pub fn complete(alloc: Global, stage: &mut Stage) -> Result<Option<Hindrance>, LineFault>
    ensures played { OnOk result (played stage.old (completion stage.old) ≡ Ok stage.new) }
    ensures rests { OnOk result (played stage.new (Turns All 1 (crashed stage.old.rehearsal)) ≡ Ok stage.new) }
    ensures told { IfOk result (λ h. h ≡ hindrance stage.new) }
    ensures done { IfOk result (λ h. h ≡ None → AreDone stage.new) }
    ensures err { IfErr result IsShort }
    ensures later { OnErr result (IsLater stage.old stage.new) }
{
    // For its clauses: the record is one that a world keeps.
    let _ = stage.world().record();
    let set = crashed(stage.world());
    play(alloc, stage, &Play::Turns(Who::All, ROUNDS, set))?;
    Ok(hindrance_of(alloc, stage)?)
}

// The members that crashed.
fn crashed(world: &World) -> MemberSet
    ensures { result ≡ crashed world.now.rehearsal }
{
    let mut set = MemberSet::new();
    for i in 0..world.group().n() {
        if world.crashed(i + 1) {
            set.insert(i + 1);
        }
    }
    set
}
