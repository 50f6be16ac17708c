//! What takes steps in.

ghost use Rattle.std.specs.Prelude.{◌≡◌, ◌++◌, ◌∷◌, [], true, false, Ok, List, length, nat_eq, IfOk};
ghost use Rattle.ct_model.specs.declared.step.Step.{Step};
ghost use Rattle.ct_records.specs.Fits.{StepFits};
ghost use Rattle.ct_records.specs.Front.{AreKept, IsStaged};

use ct_model::Step;
use ct_world::Stage;
use std::alloc::AllocError;

/// What takes one step after the other.
pub(crate) trait Keeper {
    // It took these steps.
    ghost has: { Self → List Step → Type 0 };

    /// Whether it took none yet.
    fn is_empty(&self) -> bool
        ensures { (steps : List Step) → has self.now steps → result ≡ nat_eq (length steps) 0 };

    /// Takes one more; whether it did.
    fn take(&mut self, step: Step) -> Result<bool, AllocError>
        requires { StepFits step }
        ensures one { IfOk result (λ taken. taken ≡ true →
            (steps : List Step) → has self.old steps → has self.new (steps ++ step ∷ [])) }
        ensures none { result ≡ Ok false → self.new ≡ self.old };
}

/// Does the steps in its world, as far as they are allowed.
impl Keeper for Stage {
    ghost has = { λ stage steps. IsStaged stage.rehearsal steps };

    #[inline(always)]
    fn is_empty(&self) -> bool {
        self.world().record().is_empty()
    }

    #[inline(always)]
    fn take(&mut self, step: Step) -> Result<bool, AllocError> {
        let Ok(_) = self.step(&step) else {
            return Ok(false);
        };
        Ok(true)
    }
}

/// Keeps the steps.
impl Keeper for Vec<Step> {
    ghost has = { λ list steps. AreKept list.items steps };

    #[inline(always)]
    fn is_empty(&self) -> bool {
        self.len() == 0
    }

    #[inline(always)]
    fn take(&mut self, step: Step) -> Result<bool, AllocError> {
        self.push(step)?;
        Ok(true)
    }
}
