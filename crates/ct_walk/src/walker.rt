//! Walks under way.

ghost use Rattle.std.specs.Prelude.{◌≡◌, ◌+◌, ◌*◌, ◌≤◌, Some, None, IfOk, IfErr, OnOk, option_map};
ghost use Rattle.ct_program.specs.declared.free_options.TheConstants.{MAX_TURNS};
ghost use Rattle.ct_walk.specs.Faults.{IsShort};
ghost use Rattle.ct_walk.specs.Nearness.{rounds_for};
ghost use Rattle.ct_walk.specs.Shown.{is_shown_by};
ghost use Rattle.ct_choices.specs.Choices.{after_try};
ghost use Rattle.ct_walk.specs.Options.{IsInRange};
ghost use Rattle.ct_walk.specs.Walking.{entries_left, start, turned, walked_for};

use crate::draws::Draws;
use crate::fault::WalkFault;
use crate::nearness::largest_round;
use crate::options::WalkOptions;
use crate::worlds::first_watch;
use ct_grammar::Goal;
use ct_model::Step;
use ct_names::Round;
use ct_play::Watch;
use ct_world::World;
use std::alloc::Global;
use std::marker::Model;

// A world, and all that its next turns depend on.
#[derive(Drop)]
pub(crate) struct Walker<'g> {
    watch: Watch<'g>,
    draws: Draws,
}

// Contracts see all of it but the board and the sides of the stage, which is not cut.
impl<'g> Model for Walker<'g> {
    ghost use Rattle.std.specs.Prelude.{◌≡◌};
    ghost use Rattle.ct_grammar.specs.Sides.{whole};
    ghost use Rattle.ct_walk.specs.Walking.{Walk};

    ghost Value = { Walk };

    ghost view = { λ w. record {
      rehearsal = w.watch.played.rehearsal;
      until = w.watch.goal;
      draws = w.draws.draws;
      detectors = w.draws.detectors;
      scripts = w.draws.scripts;
      suspected = w.draws.suspected;
      cuts = w.draws.cuts;
      cut = w.draws.cut;
    } };

    ghost invariant = { λ w. w.watch.played.sides ≡ whole };
}

impl<'g> Walker<'g> {
    // The walk of these options before its first turn, made until the goal, where there is one.
    #[tactic(auto, unfolding(crate::specs::Walking::start))]
    pub(crate) fn new(
        alloc: Global,
        options: &WalkOptions,
        until: Option<&'g Goal>,
    ) -> Result<Walker<'g>, WalkFault>
        requires range { IsInRange options.now }
        ensures ok { IfOk result (λ walker. walker ≡ start options.now (option_map (λ goal. goal.now) until.entry)) }
        ensures few { IfOk result (λ walker. entries_left walker.scripts ≤ 4008) }
        ensures err { IfErr result IsShort }
    {
        let draws = Draws::new(alloc, options)?;
        let watch = first_watch(alloc, &options.run, until)?;
        Ok(Walker { watch, draws })
    }

    // How many turns are to be made at most, where each member makes so many.
    pub(crate) fn most_turns(&self, turns: u32) -> u64
        requires turns { turns ≤ MAX_TURNS }
        requires entries { entries_left self.now.scripts ≤ 4008 }
        ensures { result ≡ self.now.rehearsal.setting.members * turns + entries_left self.now.scripts }
    {
        self.draws.most_turns(self.world().group().n(), turns)
    }

    // Makes so many turns at most, until one shows the goal, and answers the largest round that a member came to.
    pub(crate) fn walk(&mut self, options: &WalkOptions, most: u64) -> Result<Round, WalkFault>
        ensures ok { OnOk result (self.new ≡ walked_for options.now 0 most self.old) }
        ensures rounds { IfOk result (λ rounds. rounds ≡ rounds_for options.now 0 most self.old) }
        ensures err { IfErr result IsShort }
    {
        let mut rounds: Round = 0;
        for made in 0..most {
            self.turn(options, made + 1)?;
            rounds = rounds.max(largest_round(self.world()));
            if self.shows() {
                return Ok(rounds);
            }
        }
        Ok(rounds)
    }

    // Makes the turn of this number.
    fn turn(&mut self, options: &WalkOptions, number: u64) -> Result<(), WalkFault>
        ensures ok { OnOk result (self.new ≡ turned options.now number self.old) }
        ensures err { IfErr result IsShort }
    {
        let step = self.draws.turn(options, number, self.watch.stage());
        self.attempt(step)
    }

    // Tries the step, if there is one.
    fn attempt(&mut self, step: Option<Step>) -> Result<(), WalkFault>
        ensures ok { OnOk result (self.new ≡ record self.old { rehearsal = after_try self.old.rehearsal step }) }
        ensures err { IfErr result IsShort }
    {
        match step {
            Some(step) => try_step(&mut self.watch, step),
            None => Ok(()),
        }
    }

    // Whether the goal is shown; what is not asked for is not shown.
    pub(crate) fn shows(&self) -> bool
        ensures { result ≡ is_shown_by self.now.until self.now.rehearsal }
    {
        self.watch.shows()
    }

    // The world.
    fn world(&self) -> &World
        ensures { result.now.rehearsal ≡ self.now.rehearsal }
    {
        self.watch.stage().world()
    }

    // The world alone.
    pub(crate) fn into_world(self) -> World
        ensures rehearsal { result.rehearsal ≡ self.entry.rehearsal }
        ensures none { result.prepared ≡ None }
    {
        self.watch.into_world()
    }
}

// Tries the step. Where the rules refuse it nothing changes.
fn try_step(watch: &mut Watch<'_>, step: Step) -> Result<(), WalkFault>
    ensures ok { OnOk result (watch.new.played.rehearsal ≡ after_try watch.old.played.rehearsal (Some step)) }
    ensures goal { watch.new.goal ≡ watch.old.goal }
    ensures sides { watch.new.played.sides ≡ watch.old.played.sides }
    ensures err { IfErr result IsShort }
{
    match watch.step(step) {
        Ok(()) => Ok(()),
        Err(fault) if fault.is_short() => Err(WalkFault::of(fault)),
        Err(_) => Ok(()),
    }
}
