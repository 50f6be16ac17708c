//! Room that every step needs, and the record that it joins.

ghost use Rattle.std.specs.Prelude.{◌≡◌, ◌<◌, ◌++◌, ◌∷◌, [], true, vec_len, vec_capacity, OnOk, IfErr};
ghost use Rattle.ct_world.specs.Kept.{IsSound, MakesRoom, NeedsNoMore, rehearsal_of};
ghost use Rattle.ct_world.specs.Prepared.{step_in};

use crate::kept::Kept;
use crate::prepared::Prepared;
use ct_model::Step;
use ct_names::Refusal;
use ct_network::Network;

impl Kept {
    // The room for a step that needs none of its own.
    pub(super) fn plain(&mut self, room: Prepared) -> Result<Prepared, Refusal>
        requires sound { IsSound self.old }
        requires plain { NeedsNoMore (rehearsal_of self.old) room }
        ensures { MakesRoom self.old (step_in room) self.new result }
    {
        reserve(&mut self.steps, &mut self.network)?;
        Ok(room)
    }
}

// Room for one more step, and for what a step may send.
#[inline(always)]
pub(super) fn reserve(steps: &mut Vec<Step>, network: &mut Network) -> Result<(), Refusal>
    ensures record { steps.new.items ≡ steps.old.items }
    ensures sent { network.new.sent ≡ network.old.sent }
    ensures lines { network.new.lines ≡ network.old.lines }
    ensures for_step { OnOk result (vec_len steps.new < vec_capacity steps.new) }
    ensures for_sending { OnOk result (network.new.has_room ≡ true) }
    ensures err { IfErr result (λ refusal. refusal ≡ Refusal.OutOfMemory) }
{
    let Ok(()) = steps.reserve(1) else {
        return Err(Refusal::OutOfMemory);
    };
    if network.has_room() {
        return Ok(());
    }
    match network.prepare() {
        Ok(()) => Ok(()),
        Err(_) => Err(Refusal::OutOfMemory),
    }
}

// The step joins the record, which has room for it.
pub(super) fn join(steps: &mut Vec<Step>, step: Step)
    requires { vec_len steps.old < vec_capacity steps.old }
    ensures { steps.new.items ≡ steps.old.items ++ step ∷ [] }
{
    let _ = steps.push(step);
}
