//! The full names of envelopes that were sent.

ghost use Rattle.std.specs.Prelude.{◌≡◌};
ghost use Rattle.ct_merge.specs.Names.{full_name};

use crate::full_name::FullName;
use ct_names::Serial;
use ct_play::{Stage, carried_of};

/// The full name of the envelope of a serial; None where that was not sent.
#[tactic(auto, unfolding(crate::specs::Names::full_name))]
pub fn full_name(stage: &Stage, serial: Serial) -> Option<FullName>
    ensures { result ≡ full_name stage.now.rehearsal serial }
{
    let letter = stage.world().letter(serial)?;
    let from = stage.sender(serial)?;
    Some(FullName {
        carried: carried_of(&letter.wire),
        from,
    })
}
