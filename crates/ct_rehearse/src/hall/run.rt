//! Runs: one thread for each member, and one for each script.

ghost use Rattle.std.specs.Prelude.{◌≡◌, ◌+◌, ◌^◌, ◌<◌, ◌≤◌, Err, IfOk, OnErr, vec_len, vec_capacity};
ghost use Rattle.ct_rehearse.specs.Plans.{turns_made, turns_planned, workers, IsWithin, HasRisen, HasRun};
ghost use Rattle.ct_rehearse.specs.Shares.{risen_by};

use crate::crew::Crew;
use crate::gate::Gate;
use crate::hall::Hall;
use crate::made::Made;
use crate::pace::Pace;
use crate::plan::Plan;
use crate::pool::Pool;
use crate::run_fault::RunFault;
use crate::running::Running;
use crate::share::Share;
use crate::starting::{join_all, start_all};
use ct_detect::Detector;
use ct_names::MAX_MEMBERS;
use std::alloc::Global;
use std::sync::Wait;
use std::sync::ledger::Ledger;
use std::thread;
use std::thread::{Scope, Threads};

impl<L: Ledger + Send + Sync> Hall<L> {
    /// Makes the turns of a plan and takes all threads in. One worker for each member, number 1 to n, makes the plan's
    /// number of turns with its detector, the first detector being member 1's; one for each script, from number n + 1
    /// on, makes its entries. Each is a thread of its own that owns a part of the share. A turn is `before` of the gate, `turn` or
    /// `disturb` under the lock, and `after`; a worker goes on after a turn that was refused.
    ///
    /// The memory of the run itself is taken before the first thread starts; memory that is refused in a turn refuses
    /// that turn. On every exit the share has risen by the steps that the workers made, no thread is left, and
    /// the detectors are dropped. After `Start` one part is lost, that of the worker that could not be started; it has no steps.
    pub fn run_free<R: Threads + Wait + Sync, G: Gate>(
        &self,
        rt: &R,
        alloc: Global,
        plan: &Plan,
        detectors: Vec<Box<dyn Detector>>,
        gate: &G,
        share: &mut Share<L>,
    ) -> Result<Made, RunFault>
        requires plan { IsWithin plan.now }
        requires detectors { vec_len detectors ≡ self.now.members }
        requires parts { workers self.now.members plan.now < share.old.parts }
        requires steps { share.old.steps + turns_planned self.now.members plan.now < 2 ^ 64 }
        ensures made { IfOk result (λ made. turns_made made ≡ turns_planned self.now.members plan.now) }
        ensures share { IfOk result (λ made. share.new ≡ risen_by share.old made.steps) }
        ensures memory { result ≡ Err RunFault.Memory → share.new ≡ share.old }
        ensures steps { OnErr result (HasRisen share.old.steps share.new.steps (turns_planned self.now.members plan.now)) }
        ensures parts { result ≡ Err RunFault.Start → share.new.parts + 1 ≡ share.old.parts }
    {
        // For its clauses: there are at most 16 members.
        let _ = self.group.n();
        let count = detectors.len() + plan.scripts.len();
        let Ok(all) = Vec::with_capacity(alloc, count) else {
            return Err(RunFault::Memory);
        };
        let Ok(pace) = Pace::new(alloc, count) else {
            return Err(RunFault::Memory);
        };
        let pace = &pace;
        let pool = share.lend(count as u64);
        let (made, pool) = thread::scope(
            thread::scope_env(),
            rt,
            |scope| -> (Result<Made, RunFault>, Pool<L>)
                requires plan { IsWithin plan.now }
                requires few { vec_len detectors ≤ MAX_MEMBERS }
                requires pool { pool ≡ record { parts = workers (vec_len detectors) plan.now; steps = 0 } }
                requires steps { turns_planned (vec_len detectors) plan.now < 2 ^ 64 }
                requires empty { vec_len all ≡ 0 }
                requires room { workers (vec_len detectors) plan.now ≤ vec_capacity all }
                ensures { HasRun (vec_len detectors) plan.entry.now result.0 result.1 }
            { run_workers(scope, self, rt, gate, pace, plan, detectors, pool, all) },
        );
        share.restore(pool);
        made
    }
}

// Starts all workers, and takes in those that were started.
fn run_workers<'s, E, L: Ledger + Send + Sync, R: Threads + Wait + Sync, G: Gate>(
    scope: &Scope<'s, E>,
    hall: &'s Hall<L>,
    rt: &'s R,
    gate: &'s G,
    pace: &'s Pace,
    plan: &'s Plan,
    detectors: Vec<Box<dyn Detector>>,
    mut pool: Pool<L>,
    mut all: Vec<Running<L>>,
) -> (Result<Made, RunFault>, Pool<L>)
    requires plan { IsWithin plan.now }
    requires few { vec_len detectors ≤ MAX_MEMBERS }
    requires pool { pool ≡ record { parts = workers (vec_len detectors) plan.now; steps = 0 } }
    requires steps { turns_planned (vec_len detectors) plan.now < 2 ^ 64 }
    requires empty { vec_len all ≡ 0 }
    requires room { workers (vec_len detectors) plan.now ≤ vec_capacity all }
    ensures { HasRun (vec_len detectors) plan.now result.0 result.1 }
{
    let crew = Crew {
        hall,
        rt,
        gate,
        pace,
    };
    let started = start_all(scope, &crew, plan, detectors, &mut pool, &mut all);
    pace.begin(rt);
    let made = join_all(rt, all, &mut pool);
    match started {
        Ok(()) => (Ok(made), pool),
        Err(fault) => (Err(fault), pool),
    }
}
