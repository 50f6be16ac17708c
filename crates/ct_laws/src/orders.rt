//! What runs of the algorithm have to do with atomic broadcast.

ghost use Rattle.std.specs.Prelude.{ℕ, List};
ghost use Rattle.ct_names.specs.Message.{Message};
ghost use Rattle.ct_model.specs.Lawful.{IsLawful};
ghost use Rattle.ct_model.specs.Rehearsal.{Rehearsal};
ghost use Rattle.ct_order.specs.Orders.{IsAtomic};
ghost use Rattle.ct_laws.specs.Orders.{AreToldOf};
ghost use Rattle.ct_order.specs.Orders.{Said};

/// What is submitted and delivered in a run of the algorithm is that of an atomic broadcast (Chandra and Toueg, section 7): so are lines
/// that tell of all that was submitted and of nothing else, by names that differ for different messages.
#[tactic(auto, using(crate::proofs::Ordering::runs_are_atomic))]
pub fn law_order()
    ensures { (w : Rehearsal) (name : Message → List ℕ) (said : List Said) → IsLawful w → AreToldOf w name said → IsAtomic said }
{}
