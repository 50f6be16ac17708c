//! All workers of a run: they are started, and taken in.

ghost use Rattle.std.specs.Prelude.{◌≡◌, ◌+◌, ◌*◌, ◌^◌, ◌<◌, ◌≤◌, IfErr, OnOk, OnErr, All, length, sum_by, vec_len, vec_capacity};
ghost use Rattle.ct_rehearse.specs.declared.plan.TheConstants.{MAX_ENTRIES, MAX_SCRIPTS};
ghost use Rattle.ct_rehearse.specs.Plans.{turns_made, turns_planned, workers, IsWithin};
ghost use Rattle.ct_rehearse.specs.declared.share.TheConstants.{PARTS};

use crate::crew::Crew;
use crate::disturbance::Disturbance;
use crate::gate::Gate;
use crate::made::Made;
use crate::plan::Plan;
use crate::pool::Pool;
use crate::run_fault::RunFault;
use crate::running::{Running, start_driver, start_script};
use ct_detect::Detector;
use ct_names::MAX_MEMBERS;
use std::sync::Wait;
use std::sync::ledger::Ledger;
use std::thread::{Scope, Threads};

// Starts a worker for each member and for each script, until one cannot be started.
pub(crate) fn start_all<'s, E, L: Ledger + Send + Sync, R: Wait + Sync, G: Gate>(
    scope: &Scope<'s, E>,
    crew: &Crew<'s, L, R, G>,
    plan: &'s Plan,
    detectors: Vec<Box<dyn Detector>>,
    pool: &mut Pool<L>,
    all: &mut Vec<Running<L>>,
) -> Result<(), RunFault>
    requires plan { IsWithin plan.now }
    requires few { vec_len detectors ≤ MAX_MEMBERS }
    requires none { pool.old.steps ≡ 0 }
    requires parts { workers (vec_len detectors) plan.now ≤ pool.old.parts }
    requires empty { vec_len all.old ≡ 0 }
    requires room { workers (vec_len detectors) plan.now ≤ vec_capacity all.old }
    ensures turns { OnOk result (sum_by (λ (r : _). r.turns) all.new.items ≡ turns_planned (vec_len detectors) plan.now) }
    ensures parts { OnOk result (pool.new.parts + vec_len all.new ≡ pool.old.parts) }
    ensures steps { pool.new.steps ≡ pool.old.steps }
    ensures err { IfErr result (λ f. f ≡ RunFault.Start) }
    ensures less { sum_by (λ (r : _). r.turns) all.new.items ≤ turns_planned (vec_len detectors) plan.now }
    ensures lost { OnErr result (pool.new.parts + vec_len all.new + 1 ≡ pool.old.parts) }
{
    let members = detectors.len() as u32;
    start_drivers(scope, crew, plan.turns, detectors, pool, all)?;
    let scripts = plan.scripts.as_slice();
    start_scripts(scope, crew, members, scripts, pool, all)
}

// Starts a worker for each member, the last one first, until one cannot be started.
fn start_drivers<'s, E, L: Ledger + Send + Sync, R: Wait + Sync, G: Gate>(
    scope: &Scope<'s, E>,
    crew: &Crew<'s, L, R, G>,
    turns: u32,
    mut detectors: Vec<Box<dyn Detector>>,
    pool: &mut Pool<L>,
    all: &mut Vec<Running<L>>,
) -> Result<(), RunFault>
    requires few { vec_len detectors ≤ MAX_MEMBERS }
    requires none { pool.old.steps ≡ 0 }
    requires parts { vec_len detectors ≤ pool.old.parts }
    requires room { vec_len all.old + vec_len detectors ≤ vec_capacity all.old }
    ensures ok { OnOk result (vec_len all.new ≡ vec_len all.old + vec_len detectors) }
    ensures turns { OnOk result (sum_by (λ (r : _). r.turns) all.new.items ≡ sum_by (λ (r : _). r.turns) all.old.items
        + vec_len detectors * turns) }
    ensures parts { OnOk result (pool.new.parts + vec_len detectors ≡ pool.old.parts) }
    ensures steps { pool.new.steps ≡ pool.old.steps }
    ensures err { IfErr result (λ f. f ≡ RunFault.Start) }
    ensures fewer { OnErr result (vec_len all.new < vec_len all.old + vec_len detectors) }
    ensures less { sum_by (λ (r : _). r.turns) all.new.items ≤ sum_by (λ (r : _). r.turns) all.old.items + vec_len detectors * turns }
    ensures lost { OnErr result (pool.new.parts + vec_len all.new + 1 ≡ pool.old.parts + vec_len all.old) }
    ensures room { vec_capacity all.old ≤ vec_capacity all.new }
{
    while let Some(detector) = detectors.pop() {
        let member = detectors.len() as u8 + 1;
        let part = pool.split();
        let one = start_driver(scope, crew.again(), member, turns, detector, part)?;
        put(all, one);
    }
    Ok(())
}

// Starts a worker for each script, until one cannot be started.
fn start_scripts<'s, E, L: Ledger + Send + Sync, R: Wait + Sync, G: Gate>(
    scope: &Scope<'s, E>,
    crew: &Crew<'s, L, R, G>,
    members: u32,
    scripts: &'s [Vec<Disturbance>],
    pool: &mut Pool<L>,
    all: &mut Vec<Running<L>>,
) -> Result<(), RunFault>
    requires members { members ≤ MAX_MEMBERS }
    requires few { length scripts.now ≤ MAX_SCRIPTS }
    requires short { All (λ s. vec_len s ≤ MAX_ENTRIES) scripts.now }
    requires none { pool.old.steps ≡ 0 }
    requires parts { length scripts.now ≤ pool.old.parts }
    requires room { vec_len all.old + length scripts.now ≤ vec_capacity all.old }
    ensures ok { OnOk result (vec_len all.new ≡ vec_len all.old + length scripts.now) }
    ensures turns { OnOk result (sum_by (λ (r : _). r.turns) all.new.items ≡ sum_by (λ (r : _). r.turns) all.old.items
        + sum_by (λ s. vec_len s) scripts.now) }
    ensures parts { OnOk result (pool.new.parts + length scripts.now ≡ pool.old.parts) }
    ensures steps { pool.new.steps ≡ pool.old.steps }
    ensures err { IfErr result (λ f. f ≡ RunFault.Start) }
    ensures fewer { OnErr result (vec_len all.new < vec_len all.old + length scripts.now) }
    ensures less { sum_by (λ (r : _). r.turns) all.new.items ≤ sum_by (λ (r : _). r.turns) all.old.items
        + sum_by (λ s. vec_len s) scripts.now }
    ensures lost { OnErr result (pool.new.parts + vec_len all.new + 1 ≡ pool.old.parts + vec_len all.old) }
{
    let mut worker = members;
    for script in scripts {
        worker += 1;
        let part = pool.split();
        let one = start_script(scope, crew.again(), worker, script, part)?;
        put(all, one);
    }
    Ok(())
}

// Adds a worker, for which there is room.
fn put<L: Ledger>(all: &mut Vec<Running<L>>, one: Running<L>)
    requires { vec_len all.old < vec_capacity all.old }
    ensures len { vec_len all.new ≡ vec_len all.old + 1 }
    ensures turns { sum_by (λ (r : _). r.turns) all.new.items ≡ sum_by (λ (r : _). r.turns) all.old.items + one.turns }
    ensures room { vec_capacity all.old ≤ vec_capacity all.new }
{
    let Ok(()) = all.push(one) else {
        unreachable!()
    };
}

// Takes all workers in, with what they made and their parts.
pub(crate) fn join_all<L: Ledger, R: Threads>(
    rt: &R,
    mut all: Vec<Running<L>>,
    pool: &mut Pool<L>,
) -> Made
    requires steps { pool.old.steps + sum_by (λ (r : _). r.turns) all.items < 2 ^ 64 }
    requires parts { pool.old.parts + vec_len all ≤ PARTS }
    ensures turns { turns_made result ≡ sum_by (λ (r : _). r.turns) all.items }
    ensures pool { pool.new ≡ record { parts = pool.old.parts + vec_len all; steps = pool.old.steps + result.steps } }
{
    let mut made = Made::none();
    while let Some(running) = all.pop() {
        let worked = running.handle.join(rt);
        made.add(&worked.made);
        pool.take(worked.share);
    }
    made
}
