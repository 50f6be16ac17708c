//! A replay that notes whose step sent each envelope.

ghost use Rattle.std.specs.Prelude.{◌≡◌, ◌++◌, length, replicate, OnOk, IfOk, IfErr};
ghost use Rattle.ct_model.specs.Senders.{senders};
ghost use Rattle.ct_world.specs.Replay.{AllowsFirst, IsFaultOf};
ghost use Rattle.ct_world.specs.Setup.{record_of, setting_of};

use ct_model::Step;
use ct_names::{Member, Refusal};
use ct_world::{Replay, ReplayFault, Setup, World};
use std::alloc::{AllocError, Global};

/// A world, and whose steps sent its envelopes.
#[derive(Drop)]
pub struct Traced {
    /// The world.
    pub world: World,
    /// The member whose step sent each of its envelopes, in their order.
    pub senders: Vec<Member>,
}

/// The world that these steps lead to, with the senders of its envelopes; else the first step that is refused, or that memory is.
pub fn trace(alloc: Global, setup: Setup, steps: &[Step]) -> Result<Traced, ReplayFault>
    ensures world { IfOk result (λ traced. traced.world.rehearsal ≡ record_of setup steps.now) }
    ensures senders { IfOk result (λ traced. traced.senders.items ≡ senders (setting_of setup) steps.now) }
    ensures allowed { OnOk result (AllowsFirst (setting_of setup) setup.cells steps.now (length steps.now)) }
    ensures err { IfErr result (λ fault. IsFaultOf (setting_of setup) setup.cells steps.now fault.at fault.refusal) }
{
    let mut replay = Replay::new(alloc, setup, steps)?;
    let mut senders = Vec::new(alloc);
    while !replay.is_over() {
        let done = replay.step()?;
        let Ok(()) = note(&mut senders, done.step.member(), done.sent) else {
            return Err(no_memory());
        };
    }
    let (world, _board) = replay.into_parts();
    Ok(Traced { world, senders })
}

// Notes the sender of as many envelopes.
fn note(senders: &mut Vec<Member>, sender: Member, sent: u32) -> Result<(), AllocError>
    ensures { OnOk result (senders.new.items ≡ senders.old.items ++ replicate sent sender) }
{
    let count = senders.len() + sent as usize;
    senders.resize(count, sender)
}

// The fault of a replay that memory is refused to.
fn no_memory() -> ReplayFault
    ensures { result ≡ record { at = 0; refusal = Refusal.OutOfMemory } }
{
    ReplayFault {
        at: 0,
        refusal: Refusal::OutOfMemory,
    }
}
