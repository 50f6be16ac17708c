//! Laws of walks.

ghost use Rattle.std.specs.Prelude.{◌≡◌, ◌≤◌, ◌+◌, ◌-◌, ℕ, List, None, Option, Some, false, slice_get, true};
ghost use Rattle.ct_model.specs.Rehearsal.{Rehearsal, empty, extended};
ghost use Rattle.ct_model.specs.declared.step.Step.{Step};
ghost use Rattle.ct_model.specs.declared.step.Step.TheVariants.{Suspect};
ghost use Rattle.ct_detect.specs.Seeded.{SeededState};
ghost use Rattle.ct_detect.specs.declared.ask.Ask.{Ask};
ghost use Rattle.ct_choices.specs.Choices.{after_try, question};
ghost use Rattle.ct_grammar.specs.declared.goal.Goal.{Goal};
ghost use Rattle.ct_program.specs.FreeOptions.{setting_of};
ghost use Rattle.ct_walk.specs.Finding.{first_of};
ghost use Rattle.ct_walk.specs.Adversary.{tries};
ghost use Rattle.ct_walk.specs.Turns.{first_turning, tried_in};
ghost use Rattle.ct_walk.specs.Walking.{Walk, answer, driven, most_turns, says_yes, suspects, turned, walked};
ghost use Rattle.ct_walk.specs.declared.call.Seeds.{Seeds};
ghost use Rattle.ct_walk.specs.declared.options.WalkOptions.{WalkOptions};
ghost use Rattle.ct_laws.specs.Asking.{asked_for};
ghost use Rattle.ct_laws.specs.Places.{AreAllowed, behind};
ghost use Rattle.ct_laws.specs.Tries.{HasTurns};
ghost use Rattle.ct_laws.specs.Walks.{HaveNoSuspicion, IsLeast, NoneBelow};

/// Each step of a walk is allowed behind those before it. The steps are the allowed ones of a list of tries, each what a driver does at
/// a member, by the next answer of the member's own detector where it asks one, or the next entry of a script; crashes at drawn turns are
/// a script, too. A member receives what waits in its line, the first of it unless receipts are scattered or the group is cut. It suspects
/// where its detector says yes or a suspicion lasts, and nowhere else: a detector of rate 256 always does and one of rate 0 never, so at
/// rate 0 nobody is suspected. Where one that asks suspects, the coordinator is suspected. The seed that a search names is the least one
/// of its seeds whose walk shows the goal; where it names none, none does.
#[tactic(auto, using(crate::proofs::Trying::of_walks))]
pub fn law_walk()
    ensures allowed { (o : WalkOptions) (until : Option Goal) → AreAllowed (empty (setting_of o.run) o.run.cells) (walked o until).steps }
    ensures tries { (o : WalkOptions) (until : Option Goal) → HasTurns o (walked o until) }
    ensures asked { (o : WalkOptions) (w : Walk) (p : ℕ) (steps : List Step) → suspects o w p ≡ false →
        (driven o w p).rehearsal ≡ behind w.rehearsal steps → HaveNoSuspicion steps }
    ensures says { (o : WalkOptions) (w : Walk) (p : ℕ) → answer (question w.rehearsal p) (slice_get w.detectors (p - 1)) ≡ true →
        suspects o w p ≡ true }
    ensures each { (w : Rehearsal) (p : ℕ) (serial : Option ℕ) (ask : Ask) → question w p ≡ Some ask →
        after_try w (tries w p serial true) ≡ extended w (Suspect p) }
    ensures always { (d : SeededState) → d.rate ≡ 256 → says_yes d ≡ true }
    ensures never { (d : SeededState) → d.rate ≡ 0 → says_yes d ≡ false }
    ensures quiet { (o : WalkOptions) (until : Option Goal) → o.run.rate ≡ 0 → HaveNoSuspicion (walked o until).steps }
    ensures least { (o : WalkOptions) (goal : Goal) (seeds : Seeds) (seed : ℕ) → first_of o goal seeds ≡ Some seed →
        IsLeast o goal seeds seed }
    ensures nowhere { (o : WalkOptions) (goal : Goal) (seeds : Seeds) → first_of o goal seeds ≡ None →
        NoneBelow o goal seeds.first (seeds.last + 1) }
{}

/// A turn tries one step, or none, and all that it does to the record is that this step joins it, where it is allowed. So one who
/// asks for the turns of a walk one by one, from a world without steps, and does each where it is allowed, until there is none,
/// makes that walk.
pub fn law_turns()
    ensures step { (o : WalkOptions) (number : ℕ) (w : Walk) →
        (turned o number w).rehearsal ≡ after_try w.rehearsal (tried_in o number w) }
    ensures walk { (o : WalkOptions) (n : ℕ) → most_turns o ≤ n →
        asked_for n (first_turning o) (empty (setting_of o.run) o.run.cells) ≡ walked o None }
{}
