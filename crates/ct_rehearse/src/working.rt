//! What workers do.

ghost use Rattle.std.specs.Prelude.{◌≡◌, ◌<◌, ◌≤◌, length};
ghost use Rattle.ct_rehearse.specs.declared.plan.TheConstants.{MAX_ENTRIES};
ghost use Rattle.ct_rehearse.specs.Plans.{turns_made};
ghost use Rattle.ct_rehearse.specs.Works.{HasDriven, HasFollowed};

use crate::crew::Crew;
use crate::disturbance::Disturbance;
use crate::gate::Gate;
use crate::made::Made;
use crate::share::Share;
use crate::stride::Stride;
use crate::worked::Worked;
use ct_detect::Detector;
use ct_names::Member;
use std::sync::Wait;
use std::sync::ledger::Ledger;

// Makes turns of one member.
pub(crate) fn drive<L: Ledger, R: Wait, G: Gate>(
    crew: &Crew<'_, L, R, G>,
    member: Member,
    turns: u32,
    mut detector: Box<dyn Detector>,
    mut share: Share<L>,
) -> Worked<L>
    requires share { share ≡ record { parts = 1; steps = 0 } }
    requires member { 0 < member }
    ensures turns { HasDriven crew.now.hall.now.cells member turns result.made }
    ensures all { turns_made result.made ≡ turns }
{
    let mut stride = Stride::begin(crew.rt, crew.pace, u32::from(member));
    let mut made = Made::none();
    for number in 0..turns {
        stride.before(crew.rt, crew.gate, number + 1);
        let outcome = crew.hall.turn(crew.rt, &mut share, member, &mut *detector);
        stride.after(crew.rt, crew.gate, number + 1, &outcome);
        made.count(&outcome);
    }
    stride.end();
    Worked::new(made, share)
}

// Makes the entries of one script.
pub(crate) fn follow<L: Ledger, R: Wait, G: Gate>(
    crew: &Crew<'_, L, R, G>,
    worker: u32,
    script: &[Disturbance],
    mut share: Share<L>,
) -> Worked<L>
    requires share { share ≡ record { parts = 1; steps = 0 } }
    requires short { length script.now ≤ MAX_ENTRIES }
    requires worker { 0 < worker }
    ensures entries { HasFollowed crew.now.hall.now.cells script.now (length script.now) result.made }
    ensures all { turns_made result.made ≡ length script.now }
{
    let mut stride = Stride::begin(crew.rt, crew.pace, worker);
    let mut made = Made::none();
    let mut number = 0;
    for entry in script {
        number += 1;
        stride.before(crew.rt, crew.gate, number);
        let outcome = crew.hall.disturb(crew.rt, &mut share, entry);
        stride.after(crew.rt, crew.gate, number, &outcome);
        made.count(&outcome);
    }
    stride.end();
    Worked::new(made, share)
}
