//! Laws of the definitions.

ghost use Rattle.std.specs.Prelude.{ℕ, List};
ghost use Rattle.ct_names.specs.Group.{IsMajority, IsSetOf, IsShared};

/// Two majorities of a group share a member.
pub fn law_majorities()
    ensures { (n : ℕ) (one other : List ℕ) → IsSetOf n one → IsSetOf n other → IsMajority n one → IsMajority n other →
        IsShared n one other }
{}
