//! What the turns of a walk are drawn from.

ghost use Rattle.std.specs.Prelude.{◌≡◌, ◌&&◌, ◌+◌, ◌*◌, ◌<◌, ◌≤◌, IfOk, IfErr, IfSome, None, [], drop, get_or, set, slice_get};
ghost use Rattle.ct_model.specs.Rehearsal.{Rehearsal};
ghost use Rattle.ct_program.specs.declared.free_options.TheConstants.{MAX_TURNS};
ghost use Rattle.ct_walk.specs.Options.{IsInRange};
ghost use Rattle.ct_walk.specs.Turns.{any_left, drawing_of, driver_tries, drawn_tries, entry_tried, is_multiple, is_open, open_scripts};
ghost use Rattle.ct_walk.specs.Turns.{tried_in, walk_in, worker_tries};
ghost use Rattle.ct_walk.specs.Walking.{after_chance, changed_now, drawn, driven, entered, entries_left, is_struck, made_by, start};
ghost use Rattle.ct_walk.specs.Walking.{turned, workers};

use crate::adversary::{PAIRS, comes_rarely, crashes, nobody, place, suspects};
use crate::answering::answer;
use crate::choosing::{asked_for, tried};
use crate::fault::WalkFault;
use crate::options::WalkOptions;
use crate::script::Script;
use ct_detect::Seeded;
use ct_model::Step;
use ct_names::Member;
use ct_play::{Stage, waiting_at};
use ct_program::{losses, postponements, repetitions, seeded, submissions};
use ct_rehearse::{Disturbance, entry_step};
use ct_world::World;
use rand_core::SeedableRng;
use rand_core::utils::NextWord;
use rand_pcg::Pcg32;
use std::alloc::Global;
use std::marker::Model;

// How many scripts there are.
const SCRIPTS: usize = 5;

// The first ones are drawn among the members.
const DRAWN: usize = 4;

// The crashes, whose turns are drawn beside all others.
const CRASHES: usize = 4;

// All that the next turns depend on besides the world.
#[derive(Drop)]
pub(crate) struct Draws {
    words: Pcg32,
    detectors: Vec<Seeded>,
    scripts: [Script; SCRIPTS],
    suspected: [bool; PAIRS],
    cuts: u16,
    cut: u32,
}

// Contracts see all of it.
impl Model for Draws {
    ghost use Rattle.ct_walk.specs.Turns.{Drawing};

    ghost Value = { Drawing };

    ghost view = { λ d. record {
      draws = d.words;
      detectors = d.detectors.items;
      scripts = d.scripts;
      suspected = d.suspected;
      cuts = d.cuts;
      cut = d.cut;
    } };
}

impl Draws {
    // Those of the walk of these options before its first turn.
    #[tactic(auto, unfolding(crate::specs::Walking::start, ct_detect::specs::Seeded::words_of_seed))]
    pub(crate) fn new(alloc: Global, options: &WalkOptions) -> Result<Draws, WalkFault>
        requires range { IsInRange options.now }
        ensures ok { IfOk result (λ draws. draws ≡ drawing_of (start options.now None)) }
        ensures few { IfOk result (λ draws. entries_left draws.scripts ≤ 4008) }
        ensures err { IfErr result (λ fault. fault ≡ WalkFault.Memory) }
    {
        let run = &options.run;
        let detectors = seeded(alloc, run)?;
        let scripts = [
            Script::new(submissions(alloc, run)?),
            Script::new(postponements(alloc, run)?),
            Script::new(losses(alloc, run)?),
            Script::new(repetitions(alloc, run)?),
            Script::new(crashes(alloc, options)?),
        ];
        Ok(Draws {
            words: Pcg32::seed_from_u64(u64::from(run.seed)),
            detectors,
            scripts,
            suspected: nobody(),
            cuts: options.cuts,
            cut: 0,
        })
    }

    // How many turns are to be made at most, where each of so many members makes so many.
    pub(crate) fn most_turns(&self, members: u8, turns: u32) -> u64
        requires turns { turns ≤ MAX_TURNS }
        requires entries { entries_left self.now.scripts ≤ 4008 }
        ensures { result ≡ members * turns + entries_left self.now.scripts }
    {
        let scripts: &[Script] = &self.scripts;
        let mut entries = 0;
        for script in scripts {
            entries += script.len() as u64;
        }
        u64::from(members) * u64::from(turns) + entries
    }

    // Draws the turn of this number, and answers what it tries.
    pub(crate) fn turn(&mut self, options: &WalkOptions, number: u64, stage: &Stage) -> Option<Step>
        ensures value { result ≡ tried_in options.now number (walk_in stage.now.rehearsal self.old) }
        ensures after { self.new ≡ drawing_of (turned options.now number (walk_in stage.now.rehearsal self.old)) }
    {
        self.change_cut();
        if self.strikes() {
            return self.enter(stage.world(), CRASHES);
        }
        if self.is_due(options, number) {
            return self.enter(stage.world(), 0);
        }
        self.draw(options, stage)
    }

    // Begins a cut, or ends it, where one word of 64 comes; in whatever world.
    #[tactic(auto, unfolding(crate::specs::Walking::changed_now, ct_detect::specs::Seeded::next_word, ct_detect::specs::Seeded::after_word))]
    fn change_cut(&mut self)
        ensures { (w : Rehearsal) → walk_in w self.new ≡ changed_now (walk_in w self.old) }
    {
        if self.cut == 0 && self.cuts == 0 {
            return;
        }
        if !comes_rarely(&mut self.words) {
            return;
        }
        if self.cut == 0 {
            self.cuts -= 1;
            self.cut = self.words.next_word() % 65_536;
        } else {
            self.cut = 0;
        }
    }

    // Whether the turn is a crash, for which a word is drawn while some are left; in whatever world.
    #[tactic(auto, unfolding(crate::specs::Walking::after_chance))]
    fn strikes(&mut self) -> bool
        ensures value { (w : Rehearsal) → result ≡ is_struck (walk_in w self.old) }
        ensures after { (w : Rehearsal) → walk_in w self.new ≡ after_chance (walk_in w self.old) }
    {
        self.has_left(CRASHES) && comes_rarely(&mut self.words)
    }

    // Whether the turn is the first script's without a draw.
    fn is_due(&self, options: &WalkOptions, number: u64) -> bool
        ensures { result ≡ (any_left self.now 0 && is_multiple options.now number) }
    {
        let every = u64::from(options.every);
        self.has_left(0) && every != 0 && number % every == 0
    }

    // Whether entries of a script are left, of those counted from 0.
    fn has_left(&self, i: usize) -> bool
        ensures { result ≡ any_left self.now i }
    {
        match self.scripts.get(i) {
            Some(script) => script.len() > 0,
            None => false,
        }
    }

    // Whether a script is drawn.
    fn is_drawn(&self, options: &WalkOptions, i: usize) -> bool
        ensures { result ≡ is_open options.now self.now i }
    {
        self.has_left(i) && (i > 0 || options.every == 0)
    }

    // How many workers the coming turn is drawn from.
    #[tactic(auto, unfolding(crate::specs::Walking::workers))]
    fn workers(&self, options: &WalkOptions, world: &World) -> u32
        ensures value { result ≡ workers options.now (walk_in world.now.rehearsal self.now) }
        ensures some { 0 < result }
    {
        let scripts = (0..DRAWN).filter(|i| self.is_drawn(options, *i)).count();
        u32::from(world.group().n()) + scripts as u32
    }

    // The script of this number among those that are drawn.
    fn drawn_script(&self, options: &WalkOptions, place: u32) -> Option<usize>
        ensures script { result ≡ slice_get (open_scripts options.now self.now) place }
        ensures four { IfSome result (λ i. i < 4) }
    {
        (0..DRAWN)
            .filter(|i| self.is_drawn(options, *i))
            .nth(place as usize)
    }

    // Makes a turn of a worker that is drawn.
    #[tactic(auto, unfolding(crate::specs::Walking::drawn, ct_detect::specs::Seeded::next_word, ct_detect::specs::Seeded::after_word))]
    fn draw(&mut self, options: &WalkOptions, stage: &Stage) -> Option<Step>
        ensures value { result ≡ drawn_tries options.now (walk_in stage.now.rehearsal self.old) }
        ensures after { self.new ≡ drawing_of (drawn options.now (walk_in stage.now.rehearsal self.old)) }
    {
        let workers = self.workers(options, stage.world());
        let place = self.words.next_word() % workers;
        self.make(options, stage, place)
    }

    // Makes a turn of the worker of this number.
    #[tactic(auto, unfolding(crate::specs::Turns::worker_tries, crate::specs::Walking::made_by))]
    fn make(&mut self, options: &WalkOptions, stage: &Stage, place: u32) -> Option<Step>
        ensures value { result ≡ worker_tries options.now (walk_in stage.now.rehearsal self.old) place }
        ensures after { self.new ≡ drawing_of (made_by options.now (walk_in stage.now.rehearsal self.old) place) }
    {
        let members = u32::from(stage.world().group().n());
        if place < members {
            return self.drive(options, stage, place as u8 + 1);
        }
        let script = self.drawn_script(options, place - members)?;
        self.enter(stage.world(), script)
    }

    // Makes a turn of a member.
    #[tactic(auto, unfolding(crate::specs::Walking::driven, crate::specs::Adversary::place_of, ct_choices::specs::Choices::question))]
    fn drive(&mut self, options: &WalkOptions, stage: &Stage, member: Member) -> Option<Step>
        requires { 0 < member }
        ensures value { result ≡ driver_tries options.now (walk_in stage.now.rehearsal self.old) member }
        ensures after { self.new ≡ drawing_of (driven options.now (walk_in stage.now.rehearsal self.old) member) }
    {
        let place = place(options, &mut self.words, waiting_at(stage, member).len());
        let next = stage.world().next_local(member);
        let asked = asked_for(stage.world(), member, next);
        let said = answer(asked, &mut self.detectors, member);
        let suspects = suspects(options, &mut self.words, &mut self.suspected, asked, said);
        tried(stage, member, next, suspects, self.cut, place)
    }

    // Makes the next entry of a script.
    #[tactic(auto, unfolding(crate::specs::Walking::entered))]
    fn enter(&mut self, world: &World, i: usize) -> Option<Step>
        requires { i < 5 }
        ensures value { result ≡ entry_tried (walk_in world.now.rehearsal self.old) i }
        ensures after { self.new ≡ drawing_of (entered (walk_in world.now.rehearsal self.old) i) }
    {
        let entry = next_of(&mut self.scripts, i)?;
        entry_step(world, &entry)
    }
}

// Takes the next entry of a script out.
fn next_of(scripts: &mut [Script; SCRIPTS], i: usize) -> Option<Disturbance>
    requires { i < 5 }
    ensures next { result ≡ slice_get (get_or scripts.old i []) 0 }
    ensures left { scripts.new ≡ set scripts.old i (drop 1 (get_or scripts.old i [])) }
{
    scripts[i].next()
}
