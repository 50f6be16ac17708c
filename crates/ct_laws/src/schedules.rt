//! Laws of schedules.

ghost use Rattle.std.specs.Prelude.{◌≡◌, ℕ, Err, List, Ok};
ghost use Rattle.ct_model.specs.Rehearsal.{Rehearsal};
ghost use Rattle.ct_grammar.specs.Texts.{lines_of};
ghost use Rattle.ct_judging.specs.Schedule.{Stopped, schedule};
ghost use Rattle.ct_laws.specs.Places.{HasPlaces};
ghost use Rattle.ct_laws.specs.Refusals.{IsRefused};
ghost use Rattle.ct_laws.specs.Schedules.{spoken};
ghost use Rattle.ct_laws.specs.Sessions.{text_of};

/// The record of a schedule falls into the steps of its lines, one after another, each allowed: of an act those of the members that it
/// names, none of which a cut forbids, and each of which comes to what is stated; of turns what a driver tries at each that they name, in
/// their order and round by round, whose detector suspects those of the line, where that is allowed; of other lines none. Turns until
/// nothing moves have a round behind them in which nothing is allowed. What a line expects is so of the record there, in the group as the
/// lines before cut it, in words of states (`law_expect`); what turns are made until is so behind the last of them, and before none.
/// Without comments, expectations and questions its lines make the same record. Where a schedule is refused at a line, those before it are
/// taken, and it is refused behind them; or all are taken, and none says how many members there are.
pub fn law_schedule()
    ensures places { (text : List ℕ) (w : Rehearsal) → schedule text ≡ Ok w → HasPlaces w (lines_of text) }
    ensures refused { (text : List ℕ) (stopped : Stopped) → schedule text ≡ Err stopped → IsRefused (lines_of text) stopped }
    ensures silent { (text : List ℕ) (w : Rehearsal) → schedule text ≡ Ok w → schedule (text_of (spoken (lines_of text))) ≡ Ok w }
{}
