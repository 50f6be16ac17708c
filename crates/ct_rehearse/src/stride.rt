//! The pace of one worker.

ghost use Rattle.std.specs.Prelude.{◌≡◌, ◌-◌, ◌<◌, true};
ghost use Rattle.ct_rehearse.specs.Pace.{goes_on, gone, mark_of};

use crate::gate::Gate;
use crate::marks::{GONE, mark_at_gate, mark_of};
use crate::outcome::Turn;
use crate::pace::Pace;
use crate::patience::Patience;
use std::sync::{OnceToken, Wait};
use std::thread;

// The pace of one worker, which begins once all were started.
#[derive(Drop)]
pub(crate) struct Stride<'a> {
    pace: &'a Pace,
    begun: OnceToken<'a, ()>,
    worker: u32,
    // The mark that the worker shows.
    shown: u64,
    patience: Patience,
    ghost numbered: { 0 < worker },
    ghost since: { begun.of ≡ pace.now.begun.id },
}

impl<'a> Stride<'a> {
    // Waits until all workers begin.
    pub(crate) fn begin<R: Wait>(rt: &R, pace: &'a Pace, worker: u32) -> Stride<'a>
        requires { 0 < worker }
        ensures { result.shown ≡ mark_of 0 }
    {
        let begun = pace.wait(rt);
        Stride {
            pace,
            begun,
            worker,
            shown: mark_of(0),
            patience: Patience::new(),
        }
    }

    // What comes before a turn: the worker keeps in step, and the gate is called.
    pub(crate) fn before<R: Wait, G: Gate>(&mut self, rt: &R, gate: &G, turn: u32)
        requires { 0 < turn }
        ensures waited { goes_on self.new.patience (mark_of (turn - 1)) ≡ true }
        ensures shown { self.new.shown ≡ mark_of (turn - 1) }
    {
        let made = mark_of(turn - 1);
        self.patience = self.pace.give_way(made, self.patience);
        self.show(mark_at_gate(turn - 1));
        gate.before(rt, self.worker, turn);
        self.show(made);
    }

    // What comes after a turn: the gate is called, and the others see the turn. A worker whose turn rested gives way once,
    // as only the others' turns give it something to do.
    pub(crate) fn after<R: Wait, G: Gate>(&mut self, rt: &R, gate: &G, turn: u32, outcome: &Turn)
        requires { 0 < turn }
        ensures { self.new.shown ≡ mark_of turn }
    {
        self.show(mark_at_gate(turn - 1));
        gate.after(rt, self.worker, turn);
        self.show(mark_of(turn));
        if let Turn::Resting = outcome {
            thread::yield_now();
        }
    }

    // The worker made all its turns, so nobody waits for it.
    pub(crate) fn end(&mut self)
        ensures { self.new.shown ≡ gone }
    {
        self.show(GONE);
    }

    // Shows the mark to the others.
    fn show(&mut self, mark: u64)
        ensures shown { self.new.shown ≡ mark }
        ensures patience { self.new.patience ≡ self.old.patience }
    {
        self.pace.mark(self.worker, mark);
        self.shown = mark;
    }
}
