//! Laws of sessions.

ghost use Rattle.std.specs.Prelude.{◌≡◌, ℕ, List, Ok, true};
ghost use Rattle.std.specs.List.{concat};
ghost use Rattle.ct_model.specs.Rehearsal.{Rehearsal};
ghost use Rattle.ct_judge.specs.Answers.{is_refused, standing_after};
ghost use Rattle.ct_judging.specs.Schedule.{schedule};
ghost use Rattle.ct_judge.specs.Sessions.{line_if, opening, session};
ghost use Rattle.ct_judging.specs.Standing.{Standing, start, world_of};
ghost use Rattle.ct_laws.specs.Sessions.{accepted, answers, is_any_refused, lines_heard, text_of};

/// Each line of a session's input is answered once, in order, and the session tells whether one was refused; a line that is refused
/// changes nothing; and what was played in the end is the record of a schedule of the other lines.
#[tactic(auto, using(crate::proofs::Hearing::session_is, crate::proofs::Taking::scheduled, crate::proofs::Taking::unchanged))]
pub fn law_session()
    ensures answers { (input : List ℕ) → (session opening input).text ≡ concat (answers start (lines_heard input)) }
    ensures told { (input : List ℕ) → (session opening input).hearing.refused ≡ is_any_refused start (lines_heard input) }
    ensures refused { (s : Standing) (line : List ℕ) → is_refused s (line_if line) ≡ true → standing_after s (line_if line) ≡ s }
    ensures record { (input : List ℕ) (w : Rehearsal) → world_of (session opening input).hearing.standing ≡ Ok w →
        schedule (text_of (accepted start (lines_heard input))) ≡ Ok w }
{}
