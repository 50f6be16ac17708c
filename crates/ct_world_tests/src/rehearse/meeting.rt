ghost use Rattle.std.specs.Prelude.{◌≡◌, ◌≤◌, IfOk, vec_len};
ghost use Rattle.ct_rehearse.specs.Plans.{IsWithin, entries};

use super::*;
use std::sync::Mutex;

// How many workers came to their only turns, how often one found the record that it should, and whether one gave up waiting.
#[derive(Clone, Copy, Debug, PartialEq, Eq)]
struct Marks {
    came: usize,
    right: u32,
    gave_up: bool,
}

// A gate that lets none of the workers on before all have come. It looks at the hall's world.
#[derive(Drop)]
struct Meeting<'a, L: Ledger> {
    hall: &'a Hall<L>,
    alloc: Global,
    workers: usize,
    marks: Mutex<Marks>,
}

// The step that a worker makes in its only turn.
fn own_step(worker: u32) -> Step {
    match worker {
        1 => Step::Receive(1, 1),
        2 => Step::Receive(2, 2),
        _ => Step::Submit(2, SEVEN),
    }
}

impl<'a, L: Ledger> Meeting<'a, L> {
    // Whether the world's record begins with the submission and holds, or doesn't hold, the worker's own step.
    fn sees<R: Wait>(&self, rt: &R, worker: u32, own: bool) -> bool {
        match self.hall.snapshot(rt, self.alloc) {
            Ok(world) => {
                world.record().first() == Some(&Step::Submit(1, SEVEN))
                    && world.record().contains(&own_step(worker)) == own
            }
            Err(_) => false,
        }
    }

    // Waits until all came; false where they did not.
    fn wait<R: Wait>(&self, rt: &R) -> bool {
        for _ in 0..10_000_000u32 {
            if self.marks.lock(rt).came >= self.workers {
                return true;
            }
        }
        false
    }
}

impl<'a, L: Ledger + Send + Sync> Gate for Meeting<'a, L> {
    fn before<R: Wait>(&self, rt: &R, worker: u32, _turn: u32) {
        let right = u32::from(self.sees(rt, worker, false));
        let mut marks = self.marks.lock(rt);
        marks.right = marks.right.saturating_add(right);
        marks.came = marks.came.saturating_add(1);
        drop(marks);
        if !self.wait(rt) {
            self.marks.lock(rt).gave_up = true;
        }
    }

    fn after<R: Wait>(&self, rt: &R, worker: u32, _turn: u32) {
        let right = u32::from(self.sees(rt, worker, true));
        let mut marks = self.marks.lock(rt);
        marks.right = marks.right.saturating_add(right);
    }
}

// One turn of each member, and a script of one submission.
fn one_script(alloc: Global) -> Result<Plan, AllocError>
    ensures within { IfOk result IsWithin }
    ensures scripts { IfOk result (λ plan. vec_len plan.scripts ≡ 1) }
    ensures turns { IfOk result (λ plan. plan.turns ≡ 1) }
    ensures entries { IfOk result (λ plan. entries plan ≤ 100000) }
{
    let script = vec![in alloc; Disturbance::Submit(2, SEVEN)]?;
    let scripts = vec![in alloc; script]?;
    Ok(Plan { turns: 1, scripts })
}

// The marks of two members and the plan's scripts, which wait for one another in their only turns, and how many steps were made
// and envelopes sent in the end.
fn met_in<L: Ledger + Send + Sync, R: Threads + Wait + Sync>(
    rt: &R,
    alloc: Global,
    blank: Blank,
    plan: &Plan,
) -> Option<(Marks, usize, u32)>
    requires name { blank.name ≡ L.name }
    requires parts { blank.parts ≡ L.parts }
    requires whole { L.parts ≡ 1000 }
    requires plan { IsWithin plan.now }
    requires entries { entries plan.now ≤ 100000 }
{
    let (world, board) = after(alloc, 2, &[Step::Submit(1, SEVEN)])?;
    let (hall, mut share) = Hall::<L>::new(blank, world, board);
    let gate = Meeting {
        hall: &hall,
        alloc,
        workers: plan.scripts.len() + 2,
        marks: Mutex::new(Marks {
            came: 0,
            right: 0,
            gave_up: false,
        }),
    };
    let made = ran_in(rt, alloc, &hall, &mut share, plan, &gate);
    let Meeting {
        hall: _,
        alloc: _,
        workers: _,
        marks,
    } = gate;
    let _ = made?;
    let settled = hall.settled(rt, alloc, &mut share).ok()?;
    Some((marks.into_inner(), settled.record().len(), settled.sent()))
}

fn met<R: Threads + Wait + Sync>(rt: &R, alloc: Global, plan: &Plan) -> Option<(Marks, usize, u32)>
    requires plan { IsWithin plan.now }
    requires entries { entries plan.now ≤ 100000 }
{
    met_in::<Brand, R>(rt, alloc, Blank::new(1000), plan)
}

// All of so many workers met, and found the record that they should before and after.
fn all_met(workers: usize, right: u32) -> Marks {
    Marks {
        came: workers,
        right,
        gave_up: false,
    }
}

#[test]
fn members_and_a_script_run_at_the_same_time(rt: HostRuntime) -> Result<(), Fail> {
    let alone = Plan {
        turns: 1,
        scripts: Vec::new(rt.alloc()),
    };
    let scripted = one_script(rt.alloc())?;
    let two = met(&rt, rt.alloc(), &alone);
    let three = met(&rt, rt.alloc(), &scripted);
    assert_eq!(rt; two, Some((all_met(2, 4), 3, 4)));
    assert_eq!(rt; three, Some((all_met(3, 6), 4, 6)));
    Ok(())
}
