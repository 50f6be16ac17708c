//! Runs that are made smaller by trials in worlds of the caller's.

ghost use Rattle.std.specs.Prelude.{◌≡◌, ◌+◌, ◌<◌, ◌↔◌, None, IfErr, IfOk, IsSome, IsTrue, List, OnErr, OnOk, Option, is_some, length};
ghost use Rattle.std.specs.Prelude.{option_map};
ghost use Rattle.ct_play.specs.Faults.{IsShort};
ghost use Rattle.ct_shrink.specs.Making.{after_next, first_making, next_step, tried_lines};
ghost use Rattle.ct_shrink.specs.Playing.{lines_of};
ghost use Rattle.ct_shrink.specs.Shrinking.{Agrees, IsLeastBy, asks, smaller};
ghost use Rattle.ct_shrink.specs.declared.line.Line.{Line};

use crate::line::Line;
use crate::playing::{first_for, lines_of};
use crate::trials::Trials;
use ct_model::Step;
use ct_play::{LineFault, Stage};
use ct_world::World;
use std::alloc::{AllocError, Global};
use std::marker::Model;

/// A run that is made smaller: which lines are tried next, step by step in a world of the caller's, who tells what the trial left.
#[derive(Drop)]
pub struct Shrinker {
    trials: Trials,
    // The place of the line that is tried next.
    at: usize,
}

// Contracts see how far the trials are, and the place of the next line.
impl Model for Shrinker {
    ghost use Rattle.std.specs.Prelude.{◌≤◌, length};
    ghost use Rattle.ct_shrink.specs.Making.{Making, tried_lines};

    ghost Value = { Making };

    ghost view = { λ s. record { shrinking = s.trials; at = s.at } };

    ghost invariant = { λ s. s.at ≤ length (tried_lines s.trials) };
}

impl Shrinker {
    /// Before the first trial of the run of this world, of so many at most. Where the test names members, no run is tried in which they
    /// have other numbers.
    pub fn new(
        alloc: Global,
        world: &World,
        names_members: bool,
        most: u32,
    ) -> Result<Shrinker, LineFault>
        ensures ok { IfOk result (λ s. s ≡ first_making (lines_of world.now.rehearsal) most) }
        ensures err { IfErr result IsShort }
    {
        let lines = lines_of(alloc, world)?;
        let trials = Trials::new(alloc, world.group(), names_members, lines, most);
        Ok(Shrinker { trials, at: 0 })
    }

    /// Asks for the next trial, and answers whether there is one; its first line is the next. Until the trial was told it is asked for again.
    pub fn ask(&mut self) -> Result<bool, AllocError>
        ensures value { IfOk result (λ is_asked. is_asked ≡ asks self.old.shrinking) }
        ensures asked { IfOk result (λ is_asked. is_asked ≡ is_some self.new.shrinking.asked) }
        ensures same { self.new.shrinking ≡ record self.old.shrinking { asked = self.new.shrinking.asked } }
        ensures again { IsSome self.old.shrinking.asked → self.new.shrinking ≡ self.old.shrinking }
        ensures first { OnOk result (self.new.at ≡ 0) }
        ensures err { OnErr result (self.new ≡ self.old) }
    {
        let is_asked = self.trials.ask()?;
        self.at = 0;
        Ok(is_asked)
    }

    /// Whether a trial is asked for.
    pub fn is_asking(&self) -> bool
        ensures { IsTrue result ↔ IsSome self.now.shrinking.asked }
    {
        self.trials.is_asking()
    }

    /// The step of the next line that is taken in this world, which may be another one's: the line that is refused goes by what else its
    /// member may do in its place, or is left out. None behind the last line. Where no trial is asked for, the lines are those of the run.
    #[tactic(auto, unfolding(crate::specs::Making::next_step, crate::specs::Making::after_next))]
    pub fn next(&mut self, stage: &Stage) -> Option<Step>
        ensures step { result ≡ next_step self.old stage.now.rehearsal }
        ensures after { self.new ≡ after_next self.old stage.now.rehearsal }
    {
        let (at, step) = first_for(stage, self.tried(), self.at);
        self.at = at;
        step
    }

    /// Is told what the trial left: the run of this world, in which the test was passed, or None, where it was not. That run is the one from
    /// here on where it has fewer steps; answers whether it has. Short of memory nothing was told.
    pub fn tell(&mut self, alloc: Global, left: Option<&World>) -> Result<bool, LineFault>
        requires { IsSome self.old.shrinking.asked }
        ensures lines { OnOk result (self.new.shrinking.lines
            ≡ smaller self.old.shrinking.lines (option_map (λ w. lines_of w.now.rehearsal) left.entry)) }
        ensures made { OnOk result (self.new.shrinking.made ≡ self.old.shrinking.made + 1) }
        ensures asked { OnOk result (self.new.shrinking.asked ≡ None) }
        ensures most { self.new.shrinking.most ≡ self.old.shrinking.most }
        ensures first { OnOk result (self.new.at ≡ 0) }
        ensures agrees { OnOk result ((trial : List Line → Option (List Line)) → Agrees trial self.old.shrinking →
            option_map (λ w. lines_of w.now.rehearsal) left.entry ≡ trial (tried_lines self.old.shrinking) → Agrees trial self.new.shrinking) }
        ensures smaller { IfOk result (λ is. IsTrue is ↔ (length self.new.shrinking.lines < length self.old.shrinking.lines)) }
        ensures err { IfErr result IsShort }
        ensures same { OnErr result (self.new ≡ self.old) }
    {
        let kept = match left {
            None => None,
            Some(world) => Some(lines_of(alloc, world)?),
        };
        self.at = 0;
        Ok(self.trials.tell(kept))
    }

    /// Whether no line can be left out: the run was tried without each of its lines, and that never left a smaller one.
    pub fn is_least(&self) -> bool
        ensures value { IsTrue result ↔ (self.now.shrinking.settled ≡ length self.now.shrinking.lines) }
        ensures least { (trial : List Line → Option (List Line)) → Agrees trial self.now.shrinking → IsTrue result →
            IsLeastBy trial self.now.shrinking.lines }
    {
        self.trials.is_least()
    }

    // The lines that are tried.
    fn tried(&self) -> &[Line]
        ensures { result.now ≡ tried_lines self.now.shrinking }
    {
        if self.trials.is_asking() {
            self.trials.candidate()
        } else {
            self.trials.lines()
        }
    }
}
