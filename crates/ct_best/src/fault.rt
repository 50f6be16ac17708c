//! Why no smallest run is written.

ghost use Rattle.std.specs.Prelude.{◌≡◌, Some};
ghost use Rattle.ct_best.specs.Faults.{fault_text, status_of};
ghost use Rattle.ct_best.specs.declared.fault.BestFault.TheVariants.{Shrink, Walk};

use ct_find::NotFound;
use ct_shrink::ShrinkFault;
use ct_streams::{Fault, Status};
use ct_walk::WalkFault;
use std::fmt;

/// Why no smallest run is found, or not written. Its text is the line for standard error.
#[derive(Drop)]
pub enum BestFault {
    /// A walk is not made, or what is found is not written.
    Walk(WalkFault),
    /// A walk that is found is not made smaller.
    Shrink(ShrinkFault),
    /// The walk of none of the seeds shows the goal.
    NotFound(NotFound),
}

impl Fault for BestFault {
    ghost ends_with = { λ fault. status_of fault };

    // 1 where nothing is found, 4 for a stream, 5 for memory and the board, else that of what is not made smaller.
    fn status(&self) -> u8 {
        match self {
            BestFault::Walk(fault) => fault.status(),
            BestFault::Shrink(fault) => fault.status(),
            BestFault::NotFound(_) => Status::Refused.code(),
        }
    }
}

impl fmt::Display for BestFault {
    ghost output = { λ fault. Some (fault_text fault) };

    fn fmt<W: fmt::Write>(&self, f: &mut fmt::Formatter<W>) -> fmt::Result {
        match self {
            BestFault::Walk(fault) => write!(f, "{fault}"),
            BestFault::Shrink(fault) => write!(f, "{fault}"),
            BestFault::NotFound(none) => write!(f, "{none}"),
        }
    }
}

impl From<WalkFault> for BestFault {
    ghost from_gives = { λ fault best. best ≡ Walk fault };

    fn from(fault: WalkFault) -> BestFault {
        BestFault::Walk(fault)
    }
}

impl From<ShrinkFault> for BestFault {
    ghost from_gives = { λ fault best. best ≡ Shrink fault };

    fn from(fault: ShrinkFault) -> BestFault {
        BestFault::Shrink(fault)
    }
}
