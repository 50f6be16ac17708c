//! Stages on which a goal is looked for.

ghost use Rattle.std.specs.Prelude.{◌≡◌, [], None, Ok, OnOk, OnErr, IfOk, IfErr, option_map};
ghost use Rattle.ct_world.specs.Setup.{record_of};
ghost use Rattle.ct_play.specs.Acting.{stepped};
ghost use Rattle.ct_play.specs.Faults.{IsFaultOf};
ghost use Rattle.ct_play.specs.Goals.{is_shown, uncut};
ghost use Rattle.ct_play.specs.Played.{with_step};

use crate::goals::{are_due, look_again, looks, terms};
use crate::line_fault::LineFault;
use crate::stage::Stage;
use ct_grammar::Goal;
use ct_model::Step;
use ct_world::{Setup, World};
use std::alloc::Global;
use std::marker::Model;

/// A stage, and whether it shows a goal. Its group is not cut.
#[derive(Drop)]
pub struct Watch<'g> {
    stage: Stage,
    goal: Option<&'g Goal>,
    // What each term of the goal came to.
    looks: Vec<bool>,
}

// Contracts see the stage and the goal.
impl<'g> Model for Watch<'g> {
    ghost use Rattle.std.specs.Prelude.{◌≡◌, option_map};
    ghost use Rattle.ct_grammar.specs.Sides.{whole};
    ghost use Rattle.ct_play.specs.Goals.{Watched, looks_of, terms};

    ghost Value = { Watched };

    ghost view = { λ w. record { played = w.stage; goal = option_map (λ goal. goal.now) w.goal } };

    ghost invariant = { λ w. (w.looks.items ≡ looks_of w.stage (terms (option_map (λ goal. goal.now) w.goal)))
        × (w.stage.sides ≡ whole) };
}

impl<'g> Watch<'g> {
    /// A stage without steps. Only memory can be refused.
    pub fn new(alloc: Global, setup: Setup, goal: Option<&'g Goal>) -> Result<Watch<'g>, LineFault>
        ensures ok { IfOk result (λ watch. watch ≡
            record { played = uncut (record_of setup []); goal = option_map (λ goal. goal.now) goal.entry }) }
        ensures err { IfErr result (λ fault. fault ≡ LineFault.OutOfMemory) }
    {
        let stage = Stage::new(alloc, setup)?;
        let looks = looks(alloc, &stage, terms(goal))?;
        Ok(Watch { stage, goal, looks })
    }

    /// The same, with an index of what is sent.
    pub fn with_index(self) -> Watch<'g>
        ensures { result ≡ self.entry }
    {
        let mut watch = self;
        watch.stage = watch.stage.with_index();
        watch
    }

    /// Takes the step, unless the rules refuse it; one that is not taken changes nothing.
    pub fn step(&mut self, step: Step) -> Result<(), LineFault>
        ensures ok { OnOk result (stepped self.old.played step ≡ Ok self.new.played) }
        ensures joined { OnOk result (self.new.played ≡ with_step self.old.played step) }
        ensures goal { self.new.goal ≡ self.old.goal }
        ensures sides { self.new.played.sides ≡ self.old.played.sides }
        ensures err { IfErr result (IsFaultOf (stepped self.old.played step)) }
        ensures same { OnErr result (self.new ≡ self.old) }
    {
        self.stage.step(step)?;
        look_again(&self.stage, terms(self.goal), &mut self.looks);
        Ok(())
    }

    /// Whether the stage shows the goal; what is not asked for is not shown.
    #[tactic(auto, unfolding(crate::specs::Goals::is_shown, crate::specs::Goals::shows))]
    pub fn shows(&self) -> bool
        ensures { result ≡ is_shown self.now.goal self.now.played }
    {
        match self.goal {
            None => false,
            Some(goal) => are_due(&goal.terms, &self.looks),
        }
    }

    /// The stage.
    pub fn stage(&self) -> &Stage
        ensures { result.now ≡ self.now.played }
    {
        &self.stage
    }

    /// The world alone. No step is prepared in it.
    pub fn into_world(self) -> World
        ensures rehearsal { result.rehearsal ≡ self.entry.played.rehearsal }
        ensures none { result.prepared ≡ None }
    {
        let Watch {
            stage,
            goal: _,
            looks: _,
        } = self;
        stage.into_world()
    }
}
