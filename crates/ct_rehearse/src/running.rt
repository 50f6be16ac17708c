//! Workers in threads of their own.

ghost use Rattle.std.specs.Prelude.{◌≡◌, ◌<◌, ◌≤◌, IfOk, IfErr, vec_len};
ghost use Rattle.ct_rehearse.specs.declared.plan.TheConstants.{MAX_ENTRIES};
ghost use Rattle.ct_rehearse.specs.Plans.{turns_made};

use crate::crew::Crew;
use crate::disturbance::Disturbance;
use crate::gate::Gate;
use crate::pace::Admitted;
use crate::run_fault::RunFault;
use crate::share::Share;
use crate::worked::Worked;
use crate::working::{drive, follow};
use ct_detect::Detector;
use ct_names::Member;
use std::sync::Wait;
use std::sync::ledger::Ledger;
use std::thread::{Promise, PromisedHandle, Scope};

// The number of turns that a worker is to make.
#[derive(Clone, Copy)]
pub(crate) struct Turns(u64);

impl<L: Ledger> Promise<Worked<L>> for Turns {
    ghost use Rattle.ct_rehearse.specs.Plans.{turns_made};

    ghost kept_by = { λ p r. turns_made r.made ≡ p.0 };
}

// A worker that is still to be joined.
#[derive(Drop)]
pub(crate) struct Running<L: Ledger> {
    pub(crate) handle: PromisedHandle<Worked<L>, Turns>,
    pub(crate) turns: u64,
    ghost same: { handle.promise.0 ≡ turns },
}

impl<L: Ledger> Running<L> {
    // The worker of this handle, for which the others wait.
    fn new(handle: PromisedHandle<Worked<L>, Turns>, turns: u64, _admitted: Admitted) -> Running<L>
        requires { handle.promise.0 ≡ turns }
        ensures { result.turns ≡ turns }
    {
        Running { handle, turns }
    }
}

// Starts the worker of a member.
pub(crate) fn start_driver<'s, E, L: Ledger + Send + Sync, R: Wait + Sync, G: Gate>(
    scope: &Scope<'s, E>,
    crew: Crew<'s, L, R, G>,
    member: Member,
    turns: u32,
    detector: Box<dyn Detector>,
    share: Share<L>,
) -> Result<Running<L>, RunFault>
    requires share { share ≡ record { parts = 1; steps = 0 } }
    requires member { 0 < member }
    ensures ok { IfOk result (λ r. r.turns ≡ turns) }
    ensures err { IfErr result (λ f. f ≡ RunFault.Start) }
{
    let pace = crew.pace;
    let job = move || -> Worked<L>
        requires { (share ≡ record { parts = 1; steps = 0 }) × (0 < member) }
        ensures { turns_made result.made ≡ turns }
    { drive(&crew, member, turns, detector, share) };
    match scope.spawn_with(Turns(u64::from(turns)), job) {
        Ok(handle) => {
            let admitted = pace.admit(u32::from(member));
            Ok(Running::new(handle, u64::from(turns), admitted))
        }
        Err(_refused) => Err(RunFault::Start),
    }
}

// Starts the worker of a script.
pub(crate) fn start_script<'s, E, L: Ledger + Send + Sync, R: Wait + Sync, G: Gate>(
    scope: &Scope<'s, E>,
    crew: Crew<'s, L, R, G>,
    worker: u32,
    script: &'s Vec<Disturbance>,
    share: Share<L>,
) -> Result<Running<L>, RunFault>
    requires share { share ≡ record { parts = 1; steps = 0 } }
    requires short { vec_len script.now ≤ MAX_ENTRIES }
    requires worker { 0 < worker }
    ensures ok { IfOk result (λ r. r.turns ≡ vec_len script.now) }
    ensures err { IfErr result (λ f. f ≡ RunFault.Start) }
{
    let turns = script.len() as u64;
    let pace = crew.pace;
    let job = move || -> Worked<L>
        requires { (share ≡ record { parts = 1; steps = 0 }) × (vec_len script.now ≤ MAX_ENTRIES) × (0 < worker) }
        ensures { turns_made result.made ≡ vec_len script.entry.now }
    { follow(&crew, worker, script.as_slice(), share) };
    match scope.spawn_with(Turns(turns), job) {
        Ok(handle) => {
            let admitted = pace.admit(worker);
            Ok(Running::new(handle, turns, admitted))
        }
        Err(_refused) => Err(RunFault::Start),
    }
}
