//! Laws of what schedules expect.

ghost use Rattle.std.specs.Prelude.{◌≡◌, ℕ, true};
ghost use Rattle.ct_names.specs.Group.{IsMember};
ghost use Rattle.ct_grammar.specs.declared.fact.Fact.{Fact};
ghost use Rattle.ct_grammar.specs.declared.goal.Goal.{Goal};
ghost use Rattle.ct_play.specs.Facts.{holds};
ghost use Rattle.ct_play.specs.Goals.{shows};
ghost use Rattle.ct_play.specs.Played.{Played};
ghost use Rattle.ct_laws.specs.Expectations.{IsSo};
ghost use Rattle.ct_laws.specs.Places.{EachIsAllowed};
ghost use Rattle.ct_laws.specs.Showing.{AreMet};

/// A fact holds of a member exactly where it is so of the state: of its crash mark, its instance, round and phase, what it received,
/// delivered and decided, its table and its estimate, the members whose estimates and acks it has, the envelopes that wait, and the
/// cause for which the rules refuse the step of an act. A goal is shown exactly where each of its terms is met: its claim is true of
/// those of whom it has to be, now, at one of the beginnings of the record, or at none.
#[tactic(auto, using(crate::proofs::Expecting::Showing::of_facts_and_goals))]
pub fn law_expect()
    ensures so { (s : Played) (p : ℕ) (fact : Fact) → holds s p fact ≡ true →
        IsMember s.rehearsal.setting.members p × IsSo s p fact }
    ensures holds { (s : Played) (p : ℕ) (fact : Fact) → IsMember s.rehearsal.setting.members p → IsSo s p fact →
        holds s p fact ≡ true }
    ensures met { (goal : Goal) (s : Played) → EachIsAllowed s.rehearsal → shows goal s ≡ true → AreMet s goal }
    ensures shows { (goal : Goal) (s : Played) → EachIsAllowed s.rehearsal → AreMet s goal → shows goal s ≡ true }
{}
