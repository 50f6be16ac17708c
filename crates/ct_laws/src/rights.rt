//! Laws of what is told to be right in place of steps that are refused.

ghost use Rattle.std.specs.Prelude.{◌≡◌, ◌<◌, ℕ, Some};
ghost use Rattle.ct_names.specs.declared.limit.Limit.{Limit};
ghost use Rattle.ct_names.specs.declared.limit.TheConstants.{MAX_CELLS};
ghost use Rattle.ct_names.specs.declared.refusal.Refusal.TheVariants.{Full, NoProposal, NotLargest};
ghost use Rattle.ct_model.specs.Actor.{actor};
ghost use Rattle.ct_model.specs.Rehearsal.{Rehearsal};
ghost use Rattle.ct_model.specs.declared.step.Step.{Step};
ghost use Rattle.ct_judging.specs.Rights.{right_of};
ghost use Rattle.ct_judging.specs.declared.right.Right.TheVariants.{Largest, MoreCells, Proposal, Unheard};
ghost use Rattle.ct_laws.specs.Rights.{HasProposal, HearsNone, IsLargest};

/// What would be right, as the judge of schedules tells it behind the facts of a refused step, is so: where it names a member and the
/// largest ts, the step's member heard that of it, and nobody with a larger one; where it names a member that was not heard, it wasn't;
/// where it names the round of a proposal, that one was
/// received; and where it speaks of more cells, there may be more.
#[tactic(auto, using(crate::proofs::Righting::cells_right, crate::proofs::Righting::largest_right, crate::proofs::Righting::proposal_right, crate::proofs::Righting::unheard_right))]
pub fn law_right()
    ensures largest { (w : Rehearsal) (step : Step) (q ts : ℕ) → right_of w step NotLargest ≡ Largest q ts → IsLargest w (actor step) q ts }
    ensures unheard { (w : Rehearsal) (step : Step) (q : ℕ) → right_of w step NotLargest ≡ Unheard q → HearsNone w (actor step) q }
    ensures proposal { (w : Rehearsal) (step : Step) (round last : ℕ) → right_of w step NoProposal ≡ Proposal round (Some last) →
        HasProposal w (actor step) last }
    ensures cells { (w : Rehearsal) (step : Step) (limit : Limit) → right_of w step (Full limit) ≡ MoreCells → w.cells < MAX_CELLS }
{}
