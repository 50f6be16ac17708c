//! What it means that a world is settled, and that it is stuck.

ghost use Rattle.std.specs.Prelude.{◌≡◌, ℕ, ◌≤◌, true};
ghost use Rattle.ct_model.specs.Lawful.{IsLawful};
ghost use Rattle.ct_model.specs.Rehearsal.{Rehearsal, state_of};
ghost use Rattle.ct_progress.specs.Progress.{is_settled, is_stuck};
ghost use Rattle.ct_progress.specs.Stuck.{IsStuck, IsUpIn};
ghost use Rattle.ct_rest.specs.Rest.{IsDone};

/// Of a member that is up `is_settled` is true where and only where all is done, as `law_rest` says it of a state at rest: no member that
/// is up has an instance open, all of them have delivered the same sequence, and in it is each message that one of them received or
/// submitted.
pub fn law_settled()
    ensures so { (w : Rehearsal) (p : ℕ) → IsLawful w → 1 ≤ w.setting.bound → IsUpIn w p → is_settled w p ≡ true →
        (a b : ℕ) → IsUpIn w a → IsUpIn w b → IsDone (state_of w) a b }
    ensures is { (w : Rehearsal) (p : ℕ) → IsLawful w → IsUpIn w p →
        ((a b : ℕ) → IsUpIn w a → IsUpIn w b → IsDone (state_of w) a b) → is_settled w p ≡ true }
{}

/// Of a member that is up `is_stuck` is true where and only where nothing waits at any member that is up, no step of its own comes next
/// at any of them but a suspicion of a coordinator that is up, and yet not all is done.
pub fn law_stuck()
    ensures so { (w : Rehearsal) (p : ℕ) → IsLawful w → IsUpIn w p → is_stuck w p ≡ true → IsStuck w }
    ensures is { (w : Rehearsal) (p : ℕ) → IsLawful w → 1 ≤ w.setting.bound → IsUpIn w p → IsStuck w → is_stuck w p ≡ true }
{}
