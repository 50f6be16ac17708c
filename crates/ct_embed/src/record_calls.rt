//! A world of a record, for C. `bindings/ct.h` has the call as C sees it.

ghost use Rattle.std.specs.Prelude.{◌≡◌, ◌≢◌, ◌≤◌, None, Some, Ok, IfSome, IfOk, IfErr, option_map};
ghost use Rattle.ct_records.specs.Script.{script};
ghost use Rattle.ct_embed.specs.Held.{world_in};
ghost use Rattle.ct_embed.specs.Records.{IsUnopened, not_opened, opened};

use crate::held_world::HeldWorld;
use crate::numbers::{ALREADY_OPEN, OUT_OF_MEMORY};
use crate::opened::Opened;
use crate::own_world::OwnWorld;
use crate::refusal_number::refusal_number;
use ct_records::read_record;
use std::alloc::Global;

/// Opens a world with the setup and the steps of the record that the text is.
#[unsafe(no_mangle)]
pub extern "C" fn ct_open_record(world: &mut HeldWorld, text: &[u8], alloc: Global) -> Opened
    ensures open { IfSome (world_in world.old) (λ w. result ≡ not_opened ALREADY_OPEN 0) }
    ensures ok { result.refusal ≡ 0 → Some (script text.now) ≡ option_map Ok (world_in world.new) }
    ensures setup { result.refusal ≡ 0 → IfSome (world_in world.new) (λ w. result ≡ opened w) }
    ensures err { world_in world.old ≡ None → result.refusal ≢ 0 → IsUnopened (script text.now) result }
    ensures same { result.refusal ≢ 0 → world_in world.new ≡ world_in world.old }
{
    if world.is_open {
        return Opened::refused(ALREADY_OPEN, 0);
    }
    match world_of(alloc, text) {
        Ok(own) => {
            let opened = Opened::of(&own);
            world.put(own);
            opened
        }
        Err(opened) => opened,
    }
}

// The world of the record, or what is told where there is none.
#[tactic(auto, using(crate::proofs::Unopened::unread_is, crate::proofs::Unopened::stopped_is))]
fn world_of(alloc: Global, text: &[u8]) -> Result<Box<OwnWorld>, Opened>
    ensures ok { IfOk result (λ own. script text.now ≡ Ok own.value) }
    ensures err { IfErr result (IsUnopened (script text.now)) }
    ensures some { IfErr result (λ opened. 1 ≤ opened.refusal) }
{
    let script = match read_record(alloc, text) {
        Ok(script) => script,
        Err(fault) => return Err(Opened::unread(fault)),
    };
    let own = match OwnWorld::of_script(alloc, &script) {
        Ok(own) => own,
        Err(fault) => return Err(Opened::refused(refusal_number(fault.refusal), fault.at)),
    };
    Box::new(alloc, own).map_err(|_| Opened::refused(OUT_OF_MEMORY, 0))
}
