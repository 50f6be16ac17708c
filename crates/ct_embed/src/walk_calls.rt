//! The calls of a walk, for C. `bindings/ct.h` has them as C sees them.

ghost use Rattle.std.specs.Prelude.{◌≡◌, ◌≢◌, ◌↔◌, [], ◌∷◌, None, Some, IfSome};
ghost use Rattle.ct_walk.specs.Turns.{first_turning};
ghost use Rattle.ct_embed.specs.Held.{walk_in, world_in};
ghost use Rattle.ct_embed.specs.Opening.{IsNumber};
ghost use Rattle.ct_embed.specs.WalkCodes.{IsWalk, options_of, turn_told, walk_after};

use crate::asked::asked;
use crate::held_walk::HeldWalk;
use crate::held_world::HeldWorld;
use crate::numbers::{ALREADY_OPEN, BAD_OPTIONS, OUT_OF_MEMORY};
use crate::options_code::OptionsCode;
use crate::turn_code::TurnCode;
use ct_play::Stage;
use ct_walk::Turns;
use std::alloc::Global;

/// Opens a walk before its first turn.
#[unsafe(no_mangle)]
pub extern "C" fn ct_walk_open(walk: &mut HeldWalk, options: &OptionsCode, alloc: Global) -> u32
    ensures open { IfSome (walk_in walk.old) (λ w. result ≡ ALREADY_OPEN) }
    ensures options { walk_in walk.old ≡ None → (result ≢ BAD_OPTIONS) ↔ IsWalk (options_of options.now) }
    ensures ok { result ≡ 0 → walk_in walk.new ≡ Some (first_turning (options_of options.now)) }
    ensures same { result ≢ 0 → walk_in walk.new ≡ walk_in walk.old }
    ensures err { IsNumber result (0 ∷ ALREADY_OPEN ∷ BAD_OPTIONS ∷ OUT_OF_MEMORY ∷ []) }
{
    if walk.is_open {
        return ALREADY_OPEN;
    }
    let Some(options) = options.walk() else {
        return BAD_OPTIONS;
    };
    let Ok(turns) = Turns::new(alloc, &options) else {
        return OUT_OF_MEMORY;
    };
    let Ok(own) = Box::new(alloc, turns) else {
        return OUT_OF_MEMORY;
    };
    walk.put(own);
    0
}

/// Closes the walk, if it is open.
#[unsafe(no_mangle)]
pub extern "C" fn ct_walk_close(walk: &mut HeldWalk, alloc: Global)
    ensures { walk_in walk.new ≡ None }
{
    drop(walk.take(alloc));
}

/// What the walk tries next, in this world.
#[unsafe(no_mangle)]
pub extern "C" fn ct_walk_turn(
    walk: &mut HeldWalk,
    world: &mut HeldWorld,
    alloc: Global,
) -> TurnCode
    ensures value { result ≡ turn_told (walk_in walk.old) (world_in world.old) }
    ensures after { walk_in walk.new ≡ walk_after (walk_in walk.old) (world_in world.old) }
    ensures same { world_in world.new ≡ world_in world.old }
{
    asked!(own in world, alloc else TurnCode::none() => turn_in(walk, own.stage(), alloc))
}

// The same in a world that is open.
fn turn_in(walk: &mut HeldWalk, stage: &Stage, alloc: Global) -> TurnCode
    ensures value { result ≡ turn_told (walk_in walk.old) (Some stage.now.rehearsal) }
    ensures after { walk_in walk.new ≡ walk_after (walk_in walk.old) (Some stage.now.rehearsal) }
{
    asked!(own in walk, alloc else TurnCode::none() => TurnCode::of(&own.next(stage)))
}
