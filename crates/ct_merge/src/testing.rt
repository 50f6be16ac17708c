//! Whether what logs expect of their members holds.

ghost use Rattle.std.specs.Prelude.{◌≡◌, ◌≢◌, ◌<◌, ◌≤◌, ◌+◌, ◌&&◌, ℕ, [], Ok, None, Some, IfErr, IfOk, IfSome, OnOk, true, false, not};
ghost use Rattle.std.specs.Prelude.{length, slice_get};
ghost use Rattle.ct_names.specs.Group.{is_member};
ghost use Rattle.ct_names.specs.declared.limit.TheConstants.{MAX_MEMBERS};
ghost use Rattle.ct_model.specs.Actor.{actor};
ghost use Rattle.ct_world.specs.Setup.{record_of};
ghost use Rattle.ct_grammar.specs.Sides.{whole};
ghost use Rattle.ct_play.specs.Faults.{IsShort};
ghost use Rattle.ct_play.specs.Played.{with_step};
ghost use Rattle.ct_merge.specs.Expected.{AllHold, AreOrdered, IsUnmet, expected_of};
ghost use Rattle.ct_merge.specs.Logs.{is_repeat};
ghost use Rattle.ct_merge.specs.Merging.{count_of};
ghost use Rattle.ct_merge.specs.Testing.{AreFrom, AreMet, AreTested, FailsBefore, IsFailing, StaysTested};

use crate::expectation::{Expectation, Expectations};
use crate::tally::Tally;
use ct_model::Step;
use ct_names::Member;
use ct_play::{LineFault, Stage, unmet};
use ct_world::Setup;
use std::alloc::{AllocError, Global};
use std::marker::Model;

/// An expectation that does not hold at its place in a run.
#[derive(Drop)]
pub struct Unmet {
    /// Whose log it is.
    pub member: Member,
    /// Its place among what that log expects, counted from 0.
    pub index: usize,
    /// The run up to its place.
    pub stage: Stage,
}

// A run that is gone through: how many own steps each member took in it, and how many first ones were tested of what its log expects.
#[derive(Drop)]
struct Walk {
    stage: Stage,
    taken: Tally,
    tested: Tally,
}

/// Goes once through the run of these steps, up to the first expectation that does not hold at its place there: behind so many own
/// steps of the member as acts stand before it in the log, and before the next. The first log is member 1's. What stands behind more
/// acts than the member took steps is not tested.
pub fn first_unmet(
    alloc: Global,
    setup: Setup,
    steps: &[Step],
    expected: &[Expectations],
) -> Result<Option<Unmet>, LineFault>
    // None: each holds at its place.
    ensures none { result ≡ Ok None → (p : ℕ) → is_member setup.group p ≡ true →
        AllHold (record_of setup steps.now) p (expected_of expected.now p) }
    // One that is told does not.
    ensures some { IfOk result (λ unmet. IfSome unmet (IsUnmet (record_of setup steps.now) expected.now)) }
    ensures err { IfErr result IsShort }
{
    let mut walk = Walk::new(alloc, setup)?;
    for i in 0..steps.len() {
        let step = step_at(steps, i);
        if !walk.pass(step, expected)? {
            return Ok(Some(walk.unmet(step.member())));
        }
    }
    walk.end(expected)
}

// Contracts see the stage and the numbers.
impl Model for Walk {
    ghost use Rattle.ct_merge.specs.Testing.{Walked};

    ghost Value = { Walked };

    ghost view = { λ w. record { stage = w.stage; taken = w.taken; tested = w.tested } };
}

impl Walk {
    // Nothing was taken.
    fn new(alloc: Global, setup: Setup) -> Result<Walk, LineFault>
        ensures stage { IfOk result (λ walk. walk.stage ≡ record { rehearsal = record_of setup []; sides = whole }) }
        ensures taken { IfOk result (λ walk. (p : ℕ) → count_of walk.taken p ≡ 0) }
        ensures tested { IfOk result (λ walk. (p : ℕ) → count_of walk.tested p ≡ 0) }
        ensures err { IfErr result IsShort }
    {
        Ok(Walk {
            stage: Stage::new(alloc, setup)?.with_index(),
            taken: Tally::new(),
            tested: Tally::new(),
        })
    }

    // Takes the step, unless something is expected of its member before it that does not hold. Whether it was taken.
    fn pass(&mut self, step: Step, expected: &[Expectations]) -> Result<bool, LineFault>
        requires { self.old.stage.sides ≡ whole }
        ensures stage { result ≡ Ok true → self.new.stage ≡ with_step self.old.stage step }
        ensures tested { result ≡ Ok true → StaysTested self.old step expected.now self.new }
        ensures here { result ≡ Ok false → self.new.stage ≡ self.old.stage }
        ensures member { result ≡ Ok false → is_member self.old.stage.rehearsal.setting.members (actor step) ≡ true }
        ensures fails { result ≡ Ok false → FailsBefore self.old step expected.now self.new (actor step) }
        ensures err { IfErr result IsShort }
    {
        if is_of_member(&self.stage, step) {
            self.pass_own(step, list_of(expected, step.member()))
        } else {
            self.take(step)?;
            Ok(true)
        }
    }

    // The same of an own step of a member, of which this is expected.
    fn pass_own(&mut self, step: Step, list: &[Expectation]) -> Result<bool, LineFault>
        requires member { is_member self.old.stage.rehearsal.setting.members (actor step) ≡ true }
        requires few { actor step ≤ MAX_MEMBERS }
        requires ordered { AreOrdered list.now }
        ensures stage { result ≡ Ok true → self.new.stage ≡ with_step self.old.stage step }
        ensures taken { result ≡ Ok true → count_of self.new.taken (actor step) ≡ count_of self.old.taken (actor step) + 1 }
        ensures others { result ≡ Ok true → (q : ℕ) → 1 ≤ q → q ≢ actor step → count_of self.new.taken q ≡ count_of self.old.taken q }
        ensures same { result ≡ Ok true → (q : ℕ) → 1 ≤ q → q ≢ actor step → count_of self.new.tested q ≡ count_of self.old.tested q }
        ensures met { result ≡ Ok true → AreMet list.now (count_of self.old.tested (actor step)) (count_of self.new.tested (actor step))
            (count_of self.old.taken (actor step)) self.old.stage }
        ensures ahead { result ≡ Ok true → AreFrom list.now (count_of self.old.tested (actor step)) (count_of self.old.taken (actor step)) →
            AreFrom list.now (count_of self.new.tested (actor step)) (count_of self.old.taken (actor step) + 1) }
        ensures here { result ≡ Ok false → self.new.stage ≡ self.old.stage }
        ensures fails { result ≡ Ok false → IsFailing list.now (count_of self.new.tested (actor step))
            (count_of self.old.taken (actor step)) self.old.stage }
        ensures err { IfErr result IsShort }
    {
        let member = step.member();
        if !self.test(member, list)? {
            return Ok(false);
        }
        // A run has fewer steps than a number has room for.
        let Some(taken) = self.taken.get(member).checked_add(1) else {
            return Err(LineFault::OutOfMemory);
        };
        self.taken.set(member, taken);
        self.take(step)?;
        Ok(true)
    }

    // Takes the step.
    fn take(&mut self, step: Step) -> Result<(), LineFault>
        ensures ok { OnOk result (self.new ≡ record self.old { stage = with_step self.old.stage step }) }
        ensures err { IfErr result IsShort }
    {
        match self.stage.step(step) {
            Ok(()) => Ok(()),
            Err(fault) if fault.is_short() => Err(fault),
            // The steps of a run are allowed.
            Err(_) => Err(LineFault::OutOfMemory),
        }
    }

    // Tests what is expected of the member here, up to what does not hold. Whether all of it holds.
    fn test(&mut self, member: Member, list: &[Expectation]) -> Result<bool, AllocError>
        requires some { 1 ≤ member }
        requires few { member ≤ MAX_MEMBERS }
        requires ordered { AreOrdered list.now }
        ensures stage { self.new.stage ≡ self.old.stage }
        ensures taken { self.new.taken ≡ self.old.taken }
        ensures others { result ≡ Ok true → (q : ℕ) → 1 ≤ q → q ≢ member → count_of self.new.tested q ≡ count_of self.old.tested q }
        ensures met { result ≡ Ok true → AreMet list.now (count_of self.old.tested member) (count_of self.new.tested member)
            (count_of self.old.taken member) self.old.stage }
        ensures ahead { result ≡ Ok true → AreFrom list.now (count_of self.old.tested member) (count_of self.old.taken member) →
            AreFrom list.now (count_of self.new.tested member) (count_of self.old.taken member + 1) }
        ensures fails { result ≡ Ok false → IsFailing list.now (count_of self.new.tested member) (count_of self.old.taken member)
            self.old.stage }
    {
        let place = self.taken.get(member);
        let mut next = self.tested.get(member);
        let holds = hold(&self.stage, list, place, &mut next)?;
        self.tested.set(member, next);
        Ok(holds)
    }

    // Tests what is expected of each member in the end.
    fn end(self, expected: &[Expectations]) -> Result<Option<Unmet>, LineFault>
        requires whole { self.stage.sides ≡ whole }
        requires tested { AreTested self.stage.rehearsal expected.now self }
        ensures none { result ≡ Ok None → (p : ℕ) → is_member self.stage.rehearsal.setting.members p ≡ true →
            AllHold self.stage.rehearsal p (expected_of expected.now p) }
        ensures some { IfOk result (λ unmet. IfSome unmet (IsUnmet self.stage.rehearsal expected.now)) }
        ensures err { IfErr result IsShort }
    {
        let mut walk = self;
        for i in 0..walk.stage.world().group().n() {
            if !walk.test(i + 1, list_of(expected, i + 1))? {
                return Ok(Some(walk.unmet(i + 1)));
            }
        }
        Ok(None)
    }

    // What is expected next of the member does not hold.
    fn unmet(self, member: Member) -> Unmet
        ensures member { result.member ≡ member }
        ensures index { result.index ≡ count_of self.tested member }
        ensures stage { result.stage ≡ self.stage }
    {
        let Walk {
            stage,
            taken: _,
            tested,
        } = self;
        Unmet {
            member,
            index: tested.get(member),
            stage,
        }
    }
}

// Whether what is expected from the next one on behind so many acts holds on the stage; the next one is then the first behind more acts,
// else the first that does not hold.
#[tactic(auto, using(crate::proofs::Walking::holding))]
fn hold(
    stage: &Stage,
    list: &[Expectation],
    place: usize,
    next: &mut usize,
) -> Result<bool, AllocError>
    requires { AreOrdered list.now }
    ensures met { AreMet list.now next.old next.new place stage.now }
    ensures ahead { result ≡ Ok true → AreFrom list.now next.old place → AreFrom list.now next.new (place + 1) }
    ensures fails { result ≡ Ok false → IsFailing list.now next.new place stage.now }
{
    while let Some(expectation) = list.get(*next) {
        if expectation.place != place {
            return Ok(true);
        }
        if unmet(stage, &expectation.goal)?.is_some() {
            return Ok(false);
        }
        *next += 1;
    }
    Ok(true)
}

// What is expected of the member; the first log is member 1's.
fn list_of(expected: &[Expectations], member: Member) -> &[Expectation]
    ensures list { result.now ≡ expected_of expected.now member }
    ensures ordered { AreOrdered result.now }
{
    match expected.get(usize::from(member).saturating_sub(1)) {
        Some(expectations) => expectations.list(),
        None => &[],
    }
}

#[tactic(auto, using(crate::proofs::Walking::got_or))]
fn step_at(steps: &[Step], place: usize) -> Step
    requires { place < length steps.now }
    ensures { slice_get steps.now place ≡ Some result }
{
    steps[place]
}

// Whether the step is an own one of a member of the group.
#[tactic(auto, using(crate::proofs::Walking::few))]
fn is_of_member(stage: &Stage, step: Step) -> bool
    ensures value { result ≡ (not (is_repeat step) && is_member stage.now.rehearsal.setting.members (actor step)) }
    ensures few { result ≡ true → actor step ≤ MAX_MEMBERS }
{
    let group = stage.world().group();
    // For its clause: a group has no more members.
    let _ = group.n();
    !is_repeat(step) && group.has(step.member())
}

// Whether the network does it.
fn is_repeat(step: Step) -> bool
    ensures { result ≡ is_repeat step }
{
    matches!(step, Step::Repeat(..))
}
