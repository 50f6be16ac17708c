//! Laws of walks that are made until a goal.

ghost use Rattle.std.specs.Prelude.{◌≡◌, None, Some};
ghost use Rattle.ct_names.specs.Prefix.{IsPrefix};
ghost use Rattle.ct_grammar.specs.declared.goal.Goal.{Goal};
ghost use Rattle.ct_walk.specs.Walking.{most_turns, walked};
ghost use Rattle.ct_walk.specs.declared.options.WalkOptions.{WalkOptions};
ghost use Rattle.ct_laws.specs.Untils.{IsUntil, record_at};

/// A walk that is made until a goal ends after its first turn after which the record shows the goal: after no turn before does it. The
/// record before the first turn is not looked at, nor is one within a turn, which adds one step at most. Where no turn's record shows
/// it, the walk is the one without a goal, which makes all its turns. Either way its steps begin those of the walk without a goal.
#[tactic(auto, using(crate::proofs::Stopping::begins, crate::proofs::Stopping::is_until, crate::proofs::Stopping::whole))]
pub fn law_until()
    ensures first { (o : WalkOptions) (goal : Goal) → IsUntil o goal (walked o (Some goal)) }
    ensures whole { (o : WalkOptions) → walked o None ≡ record_at o (most_turns o) }
    ensures begins { (o : WalkOptions) (goal : Goal) → IsPrefix (walked o (Some goal)).steps (walked o None).steps }
{}
