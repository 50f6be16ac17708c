//! Laws of steps that are tried.

ghost use Rattle.std.specs.Prelude.{◌≡◌, [], ◌∷◌, List, None, Some, fold};
ghost use Rattle.ct_model.specs.Passed.{extended_by, passed};
ghost use Rattle.ct_model.specs.Rehearsal.{Rehearsal};
ghost use Rattle.ct_model.specs.declared.step.Step.{Step};
ghost use Rattle.ct_choices.specs.Choices.{after_try};

/// Of steps that are tried one after another, as turns and walks try them, exactly the allowed ones of that list join the record. Where
/// nothing is tried it stays.
#[tactic(auto, using(crate::proofs::Passing::all_pass, crate::proofs::Passing::one_passes))]
pub fn law_try()
    ensures none { (w : Rehearsal) → after_try w None ≡ w }
    ensures one { (w : Rehearsal) (step : Step) → after_try w (Some step) ≡ extended_by w (passed w (step ∷ [])) }
    ensures all { (w : Rehearsal) (steps : List Step) → fold (λ v step. after_try v (Some step)) w steps ≡ extended_by w (passed w steps) }
{}
