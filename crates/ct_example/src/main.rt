//! A rehearsal of one's own: a failure detector and a gate that the library doesn't have, a free run of three members, and
//! what a test would look at afterwards.
#![tactic(auto)]

ghost use Rattle.std.specs.Prelude.{◌≡◌, IfOk};
ghost use Rattle.ct_rehearse.specs.Plans.{IsWithin};

use ct_board::{Board, Watcher};
use ct_detect::{Ask, Detector};
use ct_names::{Command, Group, MAX_BOUND};
use ct_rehearse::{Disturbance, Gate, Plan, Rehearsed, rehearse};
use ct_world::World;
use std::alloc::{AllocError, Global};
use std::process::ExitCode;
use std::sync::{Mutex, Wait};
use std::thread::Threads;

/// Suspects whoever coordinates the first round of an instance, and nobody else.
#[derive(Drop)]
struct FirstRound {
    last: Option<(Ask, bool)>,
}

impl Detector for FirstRound {
    ghost last = { λ detector. detector.last };

    fn suspects(&mut self, ask: Ask) -> bool {
        let answer = ask.round == 1;
        self.last = Some((ask, answer));
        answer
    }

    fn last(&self) -> Option<(Ask, bool)> {
        self.last
    }
}

/// Counts the turns of all workers. A gate may also hold a worker back.
#[derive(Drop)]
struct Counter {
    turns: Mutex<u32>,
}

impl Gate for Counter {
    fn before<R: Wait>(&self, _rt: &R, _worker: u32, _turn: u32) {}

    fn after<R: Wait>(&self, rt: &R, _worker: u32, _turn: u32) {
        let mut turns = self.turns.lock(rt);
        *turns = turns.saturating_add(1);
    }
}

fn main(rt: HostRuntime) -> ExitCode {
    let gate = Counter {
        turns: Mutex::new(0),
    };
    let Some(done) = run(&rt, rt.alloc(), &gate) else {
        return ExitCode::FAILURE;
    };
    let Some(watcher) = followed(rt.alloc(), &done.world, &done.board) else {
        return ExitCode::FAILURE;
    };
    let Counter { turns } = gate;
    print(&rt, turns.into_inner(), &done.world, &watcher);
    ExitCode::SUCCESS
}

// What is printed is the same however the threads take their turns. Each member that is left delivers all four messages.
fn print(rt: &HostRuntime, turns: u32, world: &World, watcher: &Watcher) {
    let _ = println!(rt; "turns: {turns}");
    print_members(rt, world);
    print_batches(rt, watcher);
    let _ = println!(rt; "replayed: {}", replays(rt.alloc(), world));
}

fn print_members(rt: &HostRuntime, world: &World) {
    let _ = println!(rt; "member 1 delivered: {}", delivered(world, 1));
    let _ = println!(rt; "member 3 delivered: {}", delivered(world, 3));
    let _ = println!(rt; "their registers are the same: {}", are_level(world, 1, 3));
}

fn print_batches(rt: &HostRuntime, watcher: &Watcher) {
    let (read, told) = (watcher.read(), watcher.told());
    let _ = println!(rt; "batches were posted: {}", told > 0);
    let _ = println!(rt; "the watcher read all batches: {}", read == told);
}

// Whether the record leads to a world again.
fn replays(alloc: Global, world: &World) -> bool {
    World::replay(
        alloc,
        world.group(),
        world.cells(),
        world.bound(),
        world.record(),
    )
    .is_ok()
}

// Three members make 500 turns each, while a script submits four messages and then crashes member 2, which coordinates the
// first round of each instance.
fn run<R: Threads + Wait + Sync>(rt: &R, alloc: Global, gate: &Counter) -> Option<Rehearsed> {
    let (world, board) = begun(alloc)?;
    let mut detectors: Vec<Box<dyn Detector>> = Vec::new(alloc);
    for _ in 0..3u8 {
        let detector = Box::new(alloc, FirstRound { last: None }).ok()?;
        detectors.push(detector).ok()?;
    }
    if detectors.len() != usize::from(world.group().n()) {
        return None;
    }
    let plan = plan(alloc).ok()?;
    rehearse(rt, alloc, world, board, &plan, detectors, gate).ok()
}

// A world of three members, and its board.
fn begun(alloc: Global) -> Option<(World, Board)> {
    let world = World::new(alloc, Group::new(3)?, 16, MAX_BOUND).ok()?;
    let board = Board::new(alloc, 16).ok()?;
    Some((world, board))
}

fn plan(alloc: Global) -> Result<Plan, AllocError>
    ensures { IfOk result IsWithin }
{
    let script = vec![in alloc;
        Disturbance::Submit(1, Command::Set(0, 7)),
        Disturbance::Submit(2, Command::Add(0, 5)),
        Disturbance::Submit(3, Command::Copy(0, 1)),
        Disturbance::Submit(1, Command::Add(1, 1)),
        Disturbance::Crash(2),
    ]?;
    let scripts = vec![in alloc; script]?;
    Ok(Plan {
        turns: 500,
        scripts,
    })
}

// How many messages the member delivered.
fn delivered(world: &World, member: u8) -> usize {
    match world.outcome(member) {
        Some(outcome) => outcome.delivered.len(),
        None => 0,
    }
}

// Whether the two members have the same table. Those that delivered equally many messages always do: the contract of
// `World::outcome` says that the messages of one begin those of the other, and that a table is what its messages give.
fn are_level(world: &World, one: u8, other: u8) -> bool {
    match (world.outcome(one), world.outcome(other)) {
        (Some(one), Some(other)) => one.table == other.table,
        _ => false,
    }
}

// A new watcher of the board, which the world tells of the batches and which then reads them.
fn followed(alloc: Global, world: &World, board: &Board) -> Option<Watcher> {
    let mut watcher = Watcher::new(alloc, board).ok()?;
    world.meet(board, &mut watcher).ok()?;
    let told = watcher.told();
    Some(watch(board, watcher, told))
}

// Tries so many times to read the next batch, with neither a lock nor memory. A watcher that was told of a batch finds it;
// one that was not may find it too, as soon as it was posted.
fn watch(board: &Board, mut watcher: Watcher, tries: usize) -> Watcher
    requires { board.now ≡ watcher.cells }
    ensures { result.cells ≡ watcher.cells }
{
    for _ in 0..tries {
        let _ = watcher.next(board);
    }
    watcher
}
