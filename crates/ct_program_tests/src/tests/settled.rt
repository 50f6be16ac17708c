ghost use Rattle.std.specs.Prelude.{IfOk};
ghost use Rattle.ct_rehearse.specs.Plans.{IsWithin};

use super::*;
use ct_detect::{Always, Ask, Detector, EveryNth, Listed, Never, Seeded};
use ct_names::MemberSet;
use ct_rehearse::{Disturbance, Gate, Plan, rehearse};
use std::sync::{Mutex, Wait};
use std::thread::Threads;

// A detector that says yes and no by turns.
#[derive(Drop)]
struct Alternating {
    last: Option<(Ask, bool)>,
}

impl Detector for Alternating {
    ghost last = { λ detector. detector.last };

    fn suspects(&mut self, ask: Ask) -> bool {
        let answer = !self.last.is_some_and(|(_, answer)| answer);
        self.last = Some((ask, answer));
        answer
    }

    fn last(&self) -> Option<(Ask, bool)> {
        self.last
    }
}

// 200 turns of each member, and a script of four submissions and a crash.
fn disturbed(alloc: Global) -> Result<Plan, AllocError>
    ensures { IfOk result IsWithin }
{
    let script = vec![in alloc;
        Disturbance::Submit(1, Command::Set(0, 1)),
        Disturbance::Submit(2, Command::Set(1, 2)),
        Disturbance::Submit(3, Command::Add(0, 3)),
        Disturbance::Submit(2, Command::Copy(2, 0)),
        Disturbance::Crash(1),
    ]?;
    let scripts = vec![in alloc; script]?;
    Ok(Plan {
        turns: 200,
        scripts,
    })
}

// A gate that counts how often it is called before turns and after them.
#[derive(Drop)]
struct Counting {
    calls: Mutex<(u32, u32)>,
}

impl Gate for Counting {
    fn before<R: Wait>(&self, rt: &R, _worker: u32, _turn: u32) {
        let mut calls = self.calls.lock(rt);
        calls.0 = calls.0.saturating_add(1);
    }

    fn after<R: Wait>(&self, rt: &R, _worker: u32, _turn: u32) {
        let mut calls = self.calls.lock(rt);
        calls.1 = calls.1.saturating_add(1);
    }
}

// A detector of this kind: it suspects nobody, all, the second member, at each third ask, at random, or by turns.
fn of_kind(alloc: Global, kind: u8) -> Option<Box<dyn Detector>> {
    Some(match kind {
        0 => Box::new(alloc, Never::new()).ok()?,
        1 => Box::new(alloc, Always::new()).ok()?,
        2 => Box::new(alloc, Listed::new(second())).ok()?,
        3 => Box::new(alloc, EveryNth::new(3)?).ok()?,
        4 => Box::new(alloc, Seeded::new(1, 64)).ok()?,
        _ => Box::new(alloc, Alternating { last: None }).ok()?,
    })
}

fn second() -> MemberSet {
    let mut set = MemberSet::new();
    set.insert(2);
    set
}

// What a rehearsal of three members with such detectors leaves.
fn ran<R: Threads + Wait + Sync>(
    rt: &R,
    alloc: Global,
    kind: u8,
    plan: &Plan,
    gate: &Counting,
) -> Option<World>
    requires { IsWithin plan.now }
{
    let mut detectors: Vec<Box<dyn Detector>> = Vec::new(alloc);
    for _ in 0..3u8 {
        detectors.push(of_kind(alloc, kind)?).ok()?;
    }
    let (world, board) = World::replay(alloc, Group::new(3)?, 64, MAX_BOUND, &[]).ok()?;
    if usize::from(world.group().n()) != detectors.len() {
        return None;
    }
    let done = rehearse(rt, alloc, world, board, plan, detectors, gate).ok()?;
    Some(done.world)
}

// Whether all 605 turns pass the gate, members take steps beside the script's, and the record is replayed.
fn settles<R: Threads + Wait + Sync>(rt: &R, alloc: Global, kind: u8) -> Option<bool> {
    let plan = disturbed(alloc).ok()?;
    let gate = Counting {
        calls: Mutex::new((0, 0)),
    };
    let world = ran(rt, alloc, kind, &plan, &gate)?;
    let Counting { calls } = gate;
    Some(calls.into_inner() == (605, 605) && world.record().len() > 5 && is_replayed(alloc, &world))
}

#[test]
fn a_settled_world_has_the_report_of_its_replay(rt: HostRuntime) {
    for kind in 0..6u8 {
        assert_eq!(rt; settles(&rt, rt.alloc(), kind), Some(true), "kind {kind}");
    }
}
