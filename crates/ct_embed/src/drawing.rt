//! The diagram of a world.

ghost use Rattle.std.specs.Prelude.{◌≡◌, ◌<◌, [], ◌∷◌, Err, IfOk, IfErr};
ghost use Rattle.ct_diagram.specs.declared.window.TheConstants.{MOST_STEPS};
ghost use Rattle.ct_records.specs.View.{rehearsal_of};
ghost use Rattle.ct_embed.specs.Opening.{IsNumber};
ghost use Rattle.ct_embed.specs.Telling.{IsWhole, drawn_steps};

use crate::numbers::{OUT_OF_MEMORY, TOO_LONG};
use ct_diagram::{Window, diagram};
use ct_records::Script;
use ct_told::ShowFault;
use ct_world::World;
use std::alloc::{AllocError, Global};

// How many columns a row has, as `ct_tool diagram` has them.
const COLUMNS: u16 = 30;

// The diagram of all steps of the world's record, as SVG; or why there is none, by number.
pub(crate) fn drawn(alloc: Global, world: &World) -> Result<Vec<u8>, u32>
    ensures ok { IfOk result (λ text. IsWhole world.now.rehearsal text.items) }
    ensures err { IfErr result (λ n. IsNumber n (TOO_LONG ∷ OUT_OF_MEMORY ∷ [])) }
    ensures long { result ≡ Err TOO_LONG → MOST_STEPS < drawn_steps world.now.rehearsal }
{
    let Ok(script) = script_of(alloc, world) else {
        return Err(OUT_OF_MEMORY);
    };
    drawn_script(alloc, &script)
}

// The same of a record that was read.
#[tactic(auto, unfolding(crate::specs::Telling::IsWhole, crate::specs::Telling::drawn_steps))]
fn drawn_script(alloc: Global, script: &Script) -> Result<Vec<u8>, u32>
    ensures ok { IfOk result (λ text. IsWhole (rehearsal_of script.now) text.items) }
    ensures err { IfErr result (λ n. IsNumber n (TOO_LONG ∷ OUT_OF_MEMORY ∷ [])) }
    ensures long { result ≡ Err TOO_LONG → MOST_STEPS < drawn_steps (rehearsal_of script.now) }
{
    let everything = Window {
        from: 1,
        to: u32::MAX,
        columns: COLUMNS,
        members: None,
        consensus: false,
    };
    match diagram(alloc, script, &everything) {
        Ok(text) => Ok(text),
        Err(ShowFault::TooManySteps { .. }) => Err(TOO_LONG),
        Err(_) => Err(OUT_OF_MEMORY),
    }
}

// What the world's record says.
fn script_of(alloc: Global, world: &World) -> Result<Script, AllocError>
    ensures { IfOk result (λ script. rehearsal_of script ≡ world.now.rehearsal) }
{
    Ok(Script {
        group: world.group(),
        cells: world.cells(),
        batch: world.bound(),
        steps: Vec::from_slice(alloc, world.record())?,
    })
}
