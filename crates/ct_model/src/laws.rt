//! Laws over the definitions alone: of every group and every list of steps that has a run, of causes, lines and ballots.

ghost use Rattle.std.specs.Prelude.{◌≡◌, ◌⊎◌, ℕ, ◌<◌, ◌≤◌, ◌++◌, ◌∷◌, [], List, None, Some, length, not, ◌&&◌, slice_get};
ghost use Rattle.ct_names.specs.Batch.{Batch};
ghost use Rattle.ct_names.specs.Group.{IsMember};
ghost use Rattle.ct_names.specs.Membership.{IsIn, IsWithoutRepeats};
ghost use Rattle.ct_names.specs.Message.{Message};
ghost use Rattle.ct_names.specs.Value.{Value};
ghost use Rattle.ct_model.specs.Allowed.{IsAllowed};
ghost use Rattle.ct_model.specs.Cause.{cause};
ghost use Rattle.ct_model.specs.Counted.{NamesSomebody, count_in, no_ballots};
ghost use Rattle.ct_model.specs.Lawful.{IsLawful};
ghost use Rattle.ct_model.specs.Received.{HasDecided, ballots, received_by};
ghost use Rattle.ct_model.specs.Rehearsal.{Rehearsal, empty, extended, line_of};
ghost use Rattle.ct_model.specs.Relayed.{IsArrived, HasCaughtUp};
ghost use Rattle.ct_model.specs.Run.{run};
ghost use Rattle.ct_model.specs.Setting.{Setting};
ghost use Rattle.ct_model.specs.Safe.{IsLocked, IsProposed, delivered_by};
ghost use Rattle.ct_names.specs.Prefix.{IsPrefix};
ghost use Rattle.ct_model.specs.Stamps.{is_gone, is_sent, stamp};
ghost use Rattle.ct_model.specs.State.{State, member, wires};
ghost use Rattle.ct_model.specs.Waiting.{has_serial};
ghost use Rattle.ct_model.specs.Wire.{Wire};
ghost use Rattle.ct_model.specs.declared.wire.Wire.TheVariants.{Prop};
ghost use Rattle.ct_model.specs.declared.step.Step.{Step};

/// Uniform integrity of reliable broadcast (Chandra and Toueg, section 4): a member receives a message at most once,
/// and only one that was submitted.
pub fn law_integrity()
    ensures once { (s : Setting) (steps : List Step) (g : State) → run s steps ≡ Some g → (p : ℕ) → IsMember s.members p →
        IsWithoutRepeats (received_by g p) }
    ensures submitted { (s : Setting) (steps : List Step) (g : State) → run s steps ≡ Some g → (p : ℕ) (m : Message) →
        IsMember s.members p → IsIn m (received_by g p) → IsIn m g.submitted }
{}

/// Agreement of reliable broadcast (Chandra and Toueg, section 4), up to what is under way: a member that received all
/// that another sent to it has received each message, and has a decision for each instance, that the other has.
pub fn law_relay()
    ensures { (s : Setting) (steps : List Step) (g : State) → run s steps ≡ Some g → (p q : ℕ) → IsMember s.members p →
        IsMember s.members q → IsArrived s steps g p q → HasCaughtUp g p q }
{}

/// The locked value (Chandra and Toueg, section 6.2): once a majority acked a round's proposal, the proposal of every
/// later round of the instance is the same.
pub fn law_locked()
    ensures { (s : Setting) (steps : List Step) (g : State) → run s steps ≡ Some g → (instance round later : ℕ) (v w : Value) →
        IsLocked s g instance round v → round ≤ later → IsIn (Prop instance later w) (wires g) → w ≡ v }
{}

/// Uniform agreement of consensus (Chandra and Toueg, section 6): two decisions of one instance are equal, also those
/// of members that crashed.
pub fn law_agreement()
    ensures { (s : Setting) (steps : List Step) (g : State) → run s steps ≡ Some g → (p q instance : ℕ) (v w : Value) →
        IsMember s.members p → IsMember s.members q → HasDecided g p instance v → HasDecided g q instance w → v ≡ w }
{}

/// Uniform validity of consensus (Chandra and Toueg, section 6), and integrity of atomic broadcast (section 7): some
/// member of the group proposed a decision for its instance, and what a member delivered was submitted.
pub fn law_validity()
    ensures proposed { (s : Setting) (steps : List Step) (g : State) → run s steps ≡ Some g → (p instance : ℕ) (v : Value) →
        IsMember s.members p → HasDecided g p instance v → IsProposed s g instance v }
    ensures submitted { (s : Setting) (steps : List Step) (g : State) → run s steps ≡ Some g → (p : ℕ) (m : Message) →
        IsMember s.members p → IsIn m (delivered_by g p) → IsIn m g.submitted }
{}

/// Uniform total order of atomic broadcast (Chandra and Toueg, section 7): of two delivered sequences one begins the
/// other, and so it is with the batches; no message stands twice in one.
pub fn law_prefix()
    ensures delivered { (s : Setting) (steps : List Step) (g : State) → run s steps ≡ Some g → (p q : ℕ) → IsMember s.members p →
        IsMember s.members q → IsPrefix (delivered_by g p) (delivered_by g q) ⊎ IsPrefix (delivered_by g q) (delivered_by g p) }
    ensures once { (s : Setting) (steps : List Step) (g : State) → run s steps ≡ Some g → (p : ℕ) → IsMember s.members p →
        IsWithoutRepeats (delivered_by g p) }
    ensures batches { (s : Setting) (steps : List Step) (g : State) → run s steps ≡ Some g → (p q : ℕ) → IsMember s.members p →
        IsMember s.members q → IsPrefix (member g p).batches (member g q).batches ⊎ IsPrefix (member g q).batches (member g p).batches }
{}

/// Bounded batches: no decision has more messages than a member proposes at most for an instance, and so no batch has.
pub fn law_bound()
    ensures decisions { (s : Setting) (steps : List Step) (g : State) → run s steps ≡ Some g → (p instance : ℕ) (v : Value) →
        IsMember s.members p → HasDecided g p instance v → length v ≤ s.bound }
    ensures batches { (s : Setting) (steps : List Step) (g : State) → run s steps ≡ Some g → (p : ℕ) (b : Batch) →
        IsMember s.members p → IsIn b (member g p).batches → length b.messages ≤ s.bound }
{}

/// The tests of a step and the rows of the next state say the same, after any record that a world can keep: a step has no
/// cause exactly where it is enabled, a serial that it takes or moves waits, one that it puts back doesn't, and no limit is
/// passed. A world can keep the record without steps, and any that such a step makes of one that it can keep.
pub fn law_cause()
    ensures first { (s : Setting) (cells : ℕ) → IsLawful (empty s cells) }
    ensures longer { (w : Rehearsal) (step : Step) → IsLawful w → IsAllowed w step → IsLawful (extended w step) }
    ensures allowed { (w : Rehearsal) (step : Step) → IsLawful w → cause w step ≡ None → IsAllowed w step }
    ensures free { (w : Rehearsal) (step : Step) → IsAllowed w step → cause w step ≡ None }
{}

/// Waiting lines, over all the steps of any record that a world can keep: a member's line has the serials that were sent to
/// the member and aren't gone, each once, by rising stamp. A serial is gone where the member received or lost it and it
/// wasn't repeated since; its stamp is the number of the last step that sent it, postponed it or repeated it.
pub fn law_line()
    ensures once { (w : Rehearsal) (p : ℕ) → IsLawful w → IsWithoutRepeats (line_of w p) }
    ensures waiting { (w : Rehearsal) (p k : ℕ) → IsLawful w → has_serial k (line_of w p) ≡ (is_sent w p k && not (is_gone w p k)) }
    ensures order { (w : Rehearsal) (p i j k l : ℕ) → IsLawful w → slice_get (line_of w p) i ≡ Some k →
        slice_get (line_of w p) j ≡ Some l → i < j → stamp w p k < stamp w p l }
{}

/// Ballots that are counted wire by wire are those that are read off all the wires, for any type of values: without
/// wires there are none, and one more wire counts as it is read.
pub fn law_count<V>()
    ensures none { (instance round : ℕ) → ballots {V = V} [] instance round ≡ no_ballots }
    ensures more { (got : List (Wire V)) (instance round : ℕ) (w : Wire V) → NamesSomebody w →
        ballots (got ++ w ∷ []) instance round ≡ count_in (ballots got instance round) instance round w }
{}
