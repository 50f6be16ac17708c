//! Laws of the definitions: of runs, whatever limits they pass, and of the logs that tell of them.

ghost use Rattle.std.specs.Prelude.{◌≡◌, ℕ, ◌<◌, ◌≤◌, Bool, List, Some, false, length, option_map, slice_get, true};
ghost use Rattle.std.specs.Global.{Vec};
ghost use Rattle.ct_names.specs.Group.{IsMember};
ghost use Rattle.ct_model.specs.Actor.{actor};
ghost use Rattle.ct_model.specs.Next.{after, next};
ghost use Rattle.ct_model.specs.Rehearsal.{Rehearsal, state_of};
ghost use Rattle.ct_model.specs.Setting.{Setting};
ghost use Rattle.ct_model.specs.Stamps.{is_sent};
ghost use Rattle.ct_model.specs.State.{State};
ghost use Rattle.ct_model.specs.declared.step.Step.{Step};
ghost use Rattle.ct_merge.specs.Barred.{AreBarred};
ghost use Rattle.ct_merge.specs.Deeds.{IsSame};
ghost use Rattle.ct_merge.specs.Local.{IsLike, gets, outcome_of};
ghost use Rattle.ct_merge.specs.Logs.{IsMerge, Moment, log_of, own};
ghost use Rattle.ct_merge.specs.Merging.{IsTakenFrom, Taken, step_of};
ghost use Rattle.ct_merge.specs.Names.{full_name};
ghost use Rattle.ct_merge.specs.Runs.{IsBegun, IsRun};
ghost use Rattle.ct_merge.specs.Stops.{IsCulprit};
ghost use Rattle.ct_merge.specs.Waits.{AllWait, HasNoMerge, NeverMerges, SomeWaits, is_ended, is_limit};
ghost use Rattle.ct_merge.specs.declared.full_name.FullName.{FullName};
ghost use Rattle.ct_merge.specs.declared.log_act.LogAct.{LogAct};
ghost use Rattle.ct_merge.specs.declared.log_line.LogLine.{LogLine};
ghost use Rattle.ct_merge.specs.declared.verdict.Culprit.{Culprit};

/// Names: of the envelopes that were sent to a member in a run no two have the same full name. What the network repeats is the
/// same envelope.
pub fn law_names()
    ensures { (w : Rehearsal) → IsRun w → (p j k : ℕ) (name : FullName) → is_sent w p j ≡ true → is_sent w p k ≡ true →
        full_name w j ≡ Some name → full_name w k ≡ Some name → j ≡ k }
{}

/// Locality: whether a member's step is enabled, what it leaves and what it sends depend on how the member stands, on how many
/// messages it submitted, and of an envelope that it receives on what that brings.
pub fn law_local()
    ensures outcome { (s : Setting) (g h : State) (p k l : ℕ) (act : LogAct) → IsLike p g h → gets g p k act ≡ gets h p l act →
        outcome_of s g (step_of p k act) ≡ outcome_of s h (step_of p l act) }
    ensures state { (s : Setting) (g : State) (step : Step) →
        next s g step ≡ option_map (after s g (actor step)) (outcome_of s g step) }
{}

/// Sameness: a line that stands in two runs of first lines of the same logs finds its member alike in both, leaves it the same and
/// sends the same; so all orders of the logs that are runs end with each member the same.
pub fn law_same()
    ensures steps { (logs : List (Vec LogLine)) (w v : Rehearsal) → IsRun w → IsRun v → v.setting ≡ w.setting → IsBegun w logs →
        IsBegun v logs → (p i : ℕ) (m n : Moment) → IsMember w.setting.members p → slice_get (own w p) i ≡ Some m →
        slice_get (own v p) i ≡ Some n → IsSame p m n }
    ensures ends { (logs : List (Vec LogLine)) (w v : Rehearsal) → IsRun w → IsRun v → v.setting ≡ w.setting → IsMerge w logs →
        IsMerge v logs → (p : ℕ) → IsMember w.setting.members p → IsLike p (state_of w) (state_of v) }
{}

/// Completeness: a run of first lines of logs goes no further than one behind which the next lines of some members are barred, each
/// by itself or by another of these members; so where such a log goes on there, no run is a merge of the logs. The logs may have
/// any lines behind that.
pub fn law_merge()
    ensures further { (logs : List (Vec LogLine)) (t w : Rehearsal) (stays : ℕ → Bool) → IsRun t → IsRun w →
        t.setting ≡ w.setting → IsBegun t logs → IsBegun w logs → AreBarred logs t stays → (p : ℕ) → stays p ≡ true →
        IsMember w.setting.members p → length (own w p) ≤ length (own t p) }
    ensures none { (logs : List (Vec LogLine)) (t w : Rehearsal) (stays : ℕ → Bool) → IsRun t → IsRun w →
        t.setting ≡ w.setting → IsBegun t logs → AreBarred logs t stays → (p : ℕ) → stays p ≡ true → IsMember w.setting.members p →
        length (own t p) < length (log_of logs p) → IsMerge w logs → ⊥ }
{}

/// What stands in the way of every run: where a line is not taken, for no limit and not as the log of its sender ends before, no run of
/// the group is a merge of logs that begin with these; and where the next line of each log that is not over waits for an envelope that
/// was not sent, none is a merge of the logs.
pub fn law_stopped()
    ensures refused { (s : Setting) (cells : ℕ) (logs : List (Vec LogLine)) (culprit : Culprit) → IsCulprit s cells logs culprit →
        is_ended culprit.why ≡ false → is_limit culprit.why ≡ false → NeverMerges s logs }
    ensures wait { (logs : List (Vec LogLine)) (t : Taken) → IsRun t.rehearsal → IsTakenFrom logs t → AllWait logs t → SomeWaits logs t →
        HasNoMerge t.rehearsal.setting logs }
{}
