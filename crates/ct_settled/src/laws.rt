//! What is done once a group settled.

ghost use Rattle.std.specs.Prelude.{◌≡◌, ℕ, List, None};
ghost use Rattle.ct_model.specs.Rehearsal.{Rehearsal, state_of};
ghost use Rattle.ct_rest.specs.Rest.{IsAtRest, IsDone};
ghost use Rattle.ct_grammar.specs.declared.who.Who.{Who};
ghost use Rattle.ct_play.specs.Played.{Played};
ghost use Rattle.ct_settled.specs.Hindrance.{hindrance, obstacle};
ghost use Rattle.ct_settled.specs.Settled.{AreDone, IsOfWorld, IsSettled, IsUpIn};

use ct_progress::law_settled;
use ct_rest::law_rest;

/// Where a schedule's line `WHO settle suspecting SET` was played, as `all settle suspecting 2`, nothing moves any more, as `law_rest`
/// asks for, and so all is done: all that are up have delivered the same sequence, and in it is each message that one of them received
/// or submitted; if each that is up is one of WHO, each that crashed one of SET, a majority is up, no cut is between two that are up,
/// nothing that one of them sent another was lost for good, and no limit stands in the way of a step but a submission.
pub fn law_settles()
    ensures rest { (s t : Played) (who : Who) (set : List ℕ) → IsSettled s who set t →
        IsAtRest t.rehearsal.setting t.rehearsal.steps (state_of t.rehearsal) }
    ensures done { (s t : Played) (who : Who) (set : List ℕ) → IsSettled s who set t → (p q : ℕ) → IsUpIn t p → IsUpIn t q →
        IsDone (state_of t.rehearsal) p q }
{
    law_rest();
}

/// `hindrance` leaves nothing out: where none of its tests behind the first finds anything, nothing moves any more, as `law_rest` asks
/// for. So there is no hindrance where and only where all is done: all that are up have delivered the same sequence, and in it is each
/// message that one of them received or submitted (Chandra and Toueg, sections 6.2 and 7).
pub fn law_hindrance()
    ensures rest { (w : Rehearsal) → IsOfWorld w → obstacle w ≡ None → IsAtRest w.setting w.steps (state_of w) }
    ensures done { (s : Played) → IsOfWorld s.rehearsal → hindrance s ≡ None → AreDone s }
    ensures only { (s : Played) → IsOfWorld s.rehearsal → AreDone s → hindrance s ≡ None }
{
    law_rest();
    law_settled();
}
