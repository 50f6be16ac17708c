//! Schedules, judged line by line.

ghost use Rattle.std.specs.Prelude.{◌≡◌, ◌≤◌, None, Ok, Err, OnOk, OnErr, IfOk, IfErr, IfSome, IsOk, IsTrue, IsFalse, option_map};
ghost use Rattle.std.specs.Prelude.{string_bytes};
ghost use Rattle.ct_text.specs.Adds.{Adds};
ghost use Rattle.ct_names.specs.declared.limit.TheConstants.{MAX_BOUND, MAX_CELLS};
ghost use Rattle.ct_judge.specs.Answers.{sent_of};
ghost use Rattle.ct_play.specs.Faults.{IsFaultOf, IsKept};
ghost use Rattle.ct_judging.specs.Judging.{after_play, taken};
ghost use Rattle.ct_judge.specs.Parts.{IsPart, IsPlayedPart};
ghost use Rattle.ct_judging.specs.Standing.{headed, made_of, played_of, start, world_of};
ghost use Rattle.ct_judging.specs.Telling.{fault_text};

use crate::fault_texts::{push_fault_in, push_plain};
use crate::heading::given_in;
use ct_grammar::{Line, Play};
use ct_judging::{Heading, USUAL_CELLS};
use ct_names::{MAX_BOUND, MAX_ENVELOPES};
use ct_play::{LineFault, Stage, play};
use ct_world::{Setup, World};
use std::alloc::{AllocError, Global};
use std::marker::Model;

/// The judge of a schedule: what was given of the group, and a world, which the first line makes that is neither blank nor
/// of the heading. Whatever it is told, the world's record is a run.
#[derive(Drop)]
pub struct Judge {
    alloc: Global,
    heading: Heading,
    stage: Option<Stage>,
}

// Contracts see the heading, and the record once the world is made.
impl Model for Judge {
    ghost use Rattle.std.specs.Prelude.{◌≤◌};
    ghost use Rattle.ct_names.specs.declared.limit.TheConstants.{MAX_BOUND, MAX_CELLS};
    ghost use Rattle.ct_judging.specs.Standing.{Standing};

    ghost Value = { Standing };

    ghost view = { λ j. record { heading = j.heading; played = j.stage } };

    ghost invariant = { λ j. (j.heading.cells ≤ MAX_CELLS) × (1 ≤ j.heading.batch) × (j.heading.batch ≤ MAX_BOUND) };
}

impl Judge {
    /// The judge of a schedule of which no line is told yet.
    #[tactic(auto, unfolding(ct_judging::specs::Standing::start))]
    pub fn new(alloc: Global) -> Judge
        ensures { result ≡ start }
    {
        Judge {
            alloc,
            heading: Heading {
                group: None,
                cells: USUAL_CELLS,
                batch: MAX_BOUND,
            },
            stage: None,
        }
    }

    /// Takes a line. One that is refused changes nothing; where memory is refused, or the board, steps of its first members and
    /// turns may have joined the record, and nothing else is changed.
    pub fn take(&mut self, line: &Line) -> Result<(), LineFault>
        ensures ok { OnOk result (taken self.old line.now ≡ Ok self.new) }
        ensures err { IfErr result (IsFaultOf (taken self.old line.now)) }
        ensures same { IfErr result (IsKept self.old self.new) }
        ensures part { OnErr result (IsPart self.old line.now self.new) }
    {
        match line {
            Line::Blank => Ok(()),
            Line::Given(given) => self.head(given_in(self.heading, *given)),
            Line::Play(play) => self.play(play),
        }
    }

    // Takes another heading over.
    fn head(&mut self, heading: Option<Heading>) -> Result<(), LineFault>
        requires few { IfSome heading (λ h. h.cells ≤ MAX_CELLS) }
        requires some { IfSome heading (λ h. 1 ≤ h.batch) }
        requires bounded { IfSome heading (λ h. h.batch ≤ MAX_BOUND) }
        ensures ok { OnOk result (headed self.old heading ≡ Ok self.new) }
        ensures err { IfErr result (IsFaultOf (headed self.old heading)) }
        ensures same { IfErr result (IsKept self.old self.new) }
        ensures still { OnErr result (self.new ≡ self.old) }
    {
        let Some(heading) = heading else {
            return Err(LineFault::NotUnderstood);
        };
        if self.stage.is_some() {
            return Err(LineFault::Settled);
        }
        self.heading = heading;
        Ok(())
    }

    // Plays it in the world, which it makes where there is none yet.
    #[tactic(auto, using(crate::proofs::Parts::in_worlds), unfolding(ct_judging::specs::Standing::played_of))]
    fn play(&mut self, line: &Play) -> Result<(), LineFault>
        ensures ok { OnOk result (after_play self.old line.now (played_of self.old) ≡ Ok self.new) }
        ensures err { IfErr result (IsFaultOf (after_play self.old line.now (played_of self.old))) }
        ensures same { IfErr result (IsKept self.old self.new) }
        ensures part { OnErr result (IsPlayedPart self.old line.now self.new) }
    {
        let Some(mut stage) = self.stage.take() else {
            return self.play_first(line);
        };
        let done = play(self.alloc, &mut stage, line);
        self.stage = Some(stage);
        done
    }

    // Plays the first line in a new world, which is let go where the line is refused.
    fn play_first(&mut self, line: &Play) -> Result<(), LineFault>
        requires { self.old.played ≡ None }
        ensures ok { OnOk result (after_play self.old line.now (made_of self.old.heading self.old.heading.group) ≡ Ok self.new) }
        ensures err { IfErr result (IsFaultOf (after_play self.old line.now (made_of self.old.heading self.old.heading.group))) }
        ensures same { IfErr result (λ _. self.new ≡ self.old) }
    {
        let mut stage = self.first_stage()?;
        play(self.alloc, &mut stage, line)?;
        self.stage = Some(stage);
        Ok(())
    }

    /// The world, once a line made it.
    pub fn world(&self) -> Option<&World>
        ensures { option_map (λ world. world.now.rehearsal) result ≡ option_map (λ w. w.rehearsal) self.now.played }
    {
        match &self.stage {
            None => None,
            Some(stage) => Some(stage.world()),
        }
    }

    // The stage, once a line made it.
    pub(crate) fn stage(&self) -> Option<&Stage>
        ensures { option_map (λ stage. stage.now) result ≡ self.now.played }
    {
        self.stage.as_ref()
    }

    // How many envelopes were sent.
    pub(crate) fn sent(&self) -> u32
        ensures value { result ≡ sent_of self.now.played }
        ensures few { result ≤ MAX_ENVELOPES }
    {
        match self.world() {
            None => 0,
            Some(world) => world.sent(),
        }
    }

    // Whether there is a world, or one can be made.
    #[tactic(auto, unfolding(ct_judging::specs::Standing::played_of))]
    pub(crate) fn has_members(&self) -> bool
        ensures some { IsTrue result → IsOk (world_of self.now) }
        ensures none { IsFalse result → world_of self.now ≡ Err LineFault.NoMembers }
    {
        self.stage.is_some() || self.heading.group.is_some()
    }

    /// The world, which is made here where no line made it.
    #[tactic(auto, unfolding(ct_judging::specs::Standing::played_of))]
    pub fn into_world(self) -> Result<World, LineFault>
        ensures ok { IfOk result (λ world. world_of self ≡ Ok world.rehearsal) }
        ensures err { IfErr result (IsFaultOf (world_of self)) }
    {
        if self.stage.is_none() {
            let stage = self.first_stage()?;
            return Ok(stage.into_world());
        }
        let Judge {
            alloc: _,
            heading: _,
            stage,
        } = self;
        Ok(stage.unwrap().into_world())
    }

    // The text of the fault of a line, where it was not taken.
    #[tactic(auto, unfolding(ct_judging::specs::Standing::played_of))]
    pub(crate) fn push_fault(
        &self,
        text: &mut String,
        line: &Line,
        fault: LineFault,
    ) -> Result<(), AllocError>
        ensures { OnOk result (Adds text.old text.new (fault_text (played_of self.now) line.now fault)) }
    {
        if let Some(stage) = &self.stage {
            return push_fault_in(self.alloc, text, stage, line, fault);
        }
        match self.first_stage() {
            Ok(stage) => push_fault_in(self.alloc, text, &stage, line, fault),
            Err(LineFault::NoMembers) => push_plain(text, fault),
            Err(_) => Err(AllocError),
        }
    }

    // The world that is made of the heading.
    fn first_stage(&self) -> Result<Stage, LineFault>
        ensures ok { IfOk result (λ stage. made_of self.now.heading self.now.heading.group ≡ Ok stage) }
        ensures err { IfErr result (IsFaultOf (made_of self.now.heading self.now.heading.group)) }
    {
        let Some(group) = self.heading.group else {
            return Err(LineFault::NoMembers);
        };
        let Some(setup) = Setup::new(group, self.heading.cells, self.heading.batch) else {
            unreachable!()
        };
        Ok(Stage::new(self.alloc, setup)?.with_index())
    }
}
