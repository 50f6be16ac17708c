//! Laws of the facts that are told of refusals.

ghost use Rattle.std.specs.Prelude.{◌≡◌, ℕ, Some};
ghost use Rattle.ct_names.specs.Group.{IsMember};
ghost use Rattle.ct_names.specs.declared.refusal.Refusal.{Refusal};
ghost use Rattle.ct_model.specs.Actor.{actor};
ghost use Rattle.ct_model.specs.Cause.{cause};
ghost use Rattle.ct_model.specs.Rehearsal.{Rehearsal};
ghost use Rattle.ct_model.specs.declared.step.Step.{Step};
ghost use Rattle.ct_show.specs.Facts.{facts_of, facts_text, member_facts, standing};
ghost use Rattle.ct_judging.specs.Refusing.{reason_text};
ghost use Rattle.ct_laws.specs.Facts.{Tells, reasons_of, serial_in};

/// The text that is told of a refused step, in the lines of steps and by the judge of schedules, is that of a list of facts which are true
/// of the state before it: where its member stands, in words of its state and of the wires that it got; the envelope that it names, in
/// words of those that were sent and of the steps; or when its member crashed, and what would be right. Which facts these are `facts_of`
/// and `reasons_of` say by the refusal: of a member its round, its estimate, one of each member of which it has an estimate of that round,
/// and how many replied.
pub fn law_facts()
    ensures member { (w : Rehearsal) (p k : ℕ) (refusal : Refusal) → IsMember w.setting.members p →
        Tells w p k refusal (standing w p) (member_facts w p) }
    ensures steps { (w : Rehearsal) (step : Step) (refusal : Refusal) → cause w step ≡ Some refusal →
        IsMember w.setting.members (actor step) →
        Tells w (actor step) (serial_in step) refusal (facts_of w step refusal) (facts_text w step refusal) }
    ensures lines { (w : Rehearsal) (step : Step) (refusal : Refusal) → cause w step ≡ Some refusal →
        Tells w (actor step) (serial_in step) refusal (reasons_of w step refusal) (reason_text w step refusal) }
{}
