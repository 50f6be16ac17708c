//! The calls of runs that are made smaller, for C. `bindings/ct.h` has them as C sees them.

ghost use Rattle.std.specs.Prelude.{◌≡◌, ◌≢◌, ◌⊎◌, ◌↔◌, [], ◌∷◌, None, Some, IfErr, IfOk, IfSome, IsTrue, option_map};
ghost use Rattle.ct_shrink.specs.Making.{first_making};
ghost use Rattle.ct_shrink.specs.Playing.{lines_of};
ghost use Rattle.ct_embed.specs.Held.{shrinker_in, world_in};
ghost use Rattle.ct_embed.specs.Opening.{IsNumber};
ghost use Rattle.ct_embed.specs.ShrinkCodes.{InBoth, IsAsked, IsSettled, IsTold, asked_number, left_of, trial_after, trial_told, turn_by};

use crate::asked::asked;
use crate::held_shrinker::HeldShrinker;
use crate::held_world::HeldWorld;
use crate::numbers::{ALREADY_OPEN, NO_TRIAL, NOT_OPEN, OUT_OF_MEMORY};
use crate::turn_code::TurnCode;
use ct_model::Step;
use ct_play::{LineFault, Stage};
use ct_shrink::Shrinker;
use ct_walk::Turn;
use ct_world::World;
use std::alloc::Global;

/// Opens a shrinker before its first trial, of the run of this world.
#[unsafe(no_mangle)]
pub extern "C" fn ct_shrink_open(
    shrink: &mut HeldShrinker,
    world: &mut HeldWorld,
    names_members: bool,
    trials: u32,
    alloc: Global,
) -> u32
    ensures open { IfSome (shrinker_in shrink.old) (λ m. result ≡ ALREADY_OPEN) }
    ensures closed { shrinker_in shrink.old ≡ None → world_in world.old ≡ None → result ≡ NOT_OPEN }
    ensures ok { result ≡ 0 → IfSome (world_in world.old) (λ w.
        shrinker_in shrink.new ≡ Some (first_making (lines_of w) trials)) }
    ensures same { result ≢ 0 → shrinker_in shrink.new ≡ shrinker_in shrink.old }
    ensures err { IsNumber result (0 ∷ ALREADY_OPEN ∷ NOT_OPEN ∷ OUT_OF_MEMORY ∷ []) }
    ensures world { world_in world.new ≡ world_in world.old }
{
    if shrink.is_open {
        return ALREADY_OPEN;
    }
    asked!(own in world, alloc else NOT_OPEN => match boxed(own.world(), names_members, trials, alloc) {
        Ok(made) => {
            shrink.put(made);
            0
        }
        Err(_) => OUT_OF_MEMORY,
    })
}

// A shrinker of the world's run, in a box.
fn boxed(
    world: &World,
    names_members: bool,
    trials: u32,
    alloc: Global,
) -> Result<Box<Shrinker>, LineFault>
    ensures { IfOk result (λ own. own.value ≡ first_making (lines_of world.now.rehearsal) trials) }
{
    let shrinker = Shrinker::new(alloc, world, names_members, trials)?;
    Box::new(alloc, shrinker).map_err(|_| LineFault::OutOfMemory)
}

/// Closes the shrinker, if it is open.
#[unsafe(no_mangle)]
pub extern "C" fn ct_shrink_close(shrink: &mut HeldShrinker, alloc: Global)
    ensures { shrinker_in shrink.new ≡ None }
{
    drop(shrink.take(alloc));
}

/// Asks for the next trial; until it was told, that is asked for again.
#[unsafe(no_mangle)]
pub extern "C" fn ct_shrink_next(shrink: &mut HeldShrinker, alloc: Global) -> u32
    ensures closed { shrinker_in shrink.old ≡ None → result ≡ NOT_OPEN }
    ensures number { IfSome (shrinker_in shrink.old) (λ m. IsNumber result (asked_number m ∷ OUT_OF_MEMORY ∷ [])) }
    ensures asked { IsNumber result (0 ∷ NO_TRIAL ∷ []) → InBoth IsAsked (shrinker_in shrink.old) (shrinker_in shrink.new) }
    ensures same { IsNumber result (NOT_OPEN ∷ OUT_OF_MEMORY ∷ []) → shrinker_in shrink.new ≡ shrinker_in shrink.old }
{
    asked!(own in shrink, alloc else NOT_OPEN => match own.ask() {
        Ok(true) => 0,
        Ok(false) => NO_TRIAL,
        Err(_) => OUT_OF_MEMORY,
    })
}

/// What is tried next, in this world.
#[unsafe(no_mangle)]
pub extern "C" fn ct_shrink_turn(
    shrink: &mut HeldShrinker,
    world: &mut HeldWorld,
    alloc: Global,
) -> TurnCode
    ensures value { result ≡ trial_told (shrinker_in shrink.old) (world_in world.old) }
    ensures after { shrinker_in shrink.new ≡ trial_after (shrinker_in shrink.old) (world_in world.old) }
    ensures same { world_in world.new ≡ world_in world.old }
{
    asked!(own in world, alloc else TurnCode::none() => turn_in(shrink, own.stage(), alloc))
}

// The same in a world that is open.
fn turn_in(shrink: &mut HeldShrinker, stage: &Stage, alloc: Global) -> TurnCode
    ensures value { result ≡ trial_told (shrinker_in shrink.old) (Some stage.now.rehearsal) }
    ensures after { shrinker_in shrink.new ≡ trial_after (shrinker_in shrink.old) (Some stage.now.rehearsal) }
{
    asked!(own in shrink, alloc else TurnCode::none() => TurnCode::of(&turn_by(own.next(stage))))
}

fn turn_by(step: Option<Step>) -> Turn
    ensures { result ≡ turn_by step }
{
    match step {
        None => Turn::Over,
        Some(step) => Turn::Step(step),
    }
}

/// Tells what the trial that is asked for came to: whether the test is passed in this world, whose run is what it left then.
#[unsafe(no_mangle)]
pub extern "C" fn ct_shrink_told(
    shrink: &mut HeldShrinker,
    world: &mut HeldWorld,
    passed: bool,
    alloc: Global,
) -> u32
    ensures closed { shrinker_in shrink.old ≡ None → result ≡ NOT_OPEN }
    ensures world_closed { world_in world.old ≡ None → result ≡ NOT_OPEN }
    ensures none { IfSome (world_in world.old) (λ w. IfSome (shrinker_in shrink.old) (λ m. m.shrinking.asked ≡ None → result ≡ NO_TRIAL)) }
    ensures told { result ≡ 0 → InBoth (IsTold (left_of passed (world_in world.old))) (shrinker_in shrink.old) (shrinker_in shrink.new) }
    ensures same { result ≢ 0 → shrinker_in shrink.new ≡ shrinker_in shrink.old }
    ensures number { IsNumber result (0 ∷ NO_TRIAL ∷ NOT_OPEN ∷ OUT_OF_MEMORY ∷ []) }
    ensures world { world_in world.new ≡ world_in world.old }
{
    asked!(own in world, alloc else NOT_OPEN => told_in(shrink, own.world(), passed, alloc))
}

// The same of a world that is open.
fn told_in(shrink: &mut HeldShrinker, world: &World, passed: bool, alloc: Global) -> u32
    ensures closed { shrinker_in shrink.old ≡ None → result ≡ NOT_OPEN }
    ensures none { IfSome (shrinker_in shrink.old) (λ m. m.shrinking.asked ≡ None → result ≡ NO_TRIAL) }
    ensures told { result ≡ 0 →
        InBoth (IsTold (left_of passed (Some world.now.rehearsal))) (shrinker_in shrink.old) (shrinker_in shrink.new) }
    ensures same { result ≢ 0 → shrinker_in shrink.new ≡ shrinker_in shrink.old }
    ensures number { IsNumber result (0 ∷ NO_TRIAL ∷ NOT_OPEN ∷ OUT_OF_MEMORY ∷ []) }
{
    asked!(own in shrink, alloc else NOT_OPEN => tell(&mut own, world, passed, alloc))
}

// The same of a shrinker that is open.
fn tell(shrinker: &mut Shrinker, world: &World, passed: bool, alloc: Global) -> u32
    ensures none { shrinker.old.shrinking.asked ≡ None → result ≡ NO_TRIAL }
    ensures told { result ≡ 0 → IsTold (left_of passed (Some world.now.rehearsal)) shrinker.old shrinker.new }
    ensures same { result ≢ 0 → shrinker.new ≡ shrinker.old }
    ensures number { IsNumber result (0 ∷ NO_TRIAL ∷ OUT_OF_MEMORY ∷ []) }
{
    if !shrinker.is_asking() {
        return NO_TRIAL;
    }
    let left = if passed { Some(world) } else { None };
    match shrinker.tell(alloc, left) {
        Ok(_) => 0,
        Err(_) => OUT_OF_MEMORY,
    }
}

/// Whether no step of the run can be left out, as far as the trials were told; false where the shrinker is closed.
#[unsafe(no_mangle)]
pub extern "C" fn ct_shrink_is_least(shrink: &mut HeldShrinker, alloc: Global) -> bool
    ensures value { IsTrue result ↔ IsSettled (shrinker_in shrink.old) }
    ensures same { shrinker_in shrink.new ≡ shrinker_in shrink.old }
{
    asked!(own in shrink, alloc else false => own.is_least())
}
