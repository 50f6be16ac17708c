//! What C is told of a step.

ghost use Rattle.std.specs.Prelude.{◌≡◌};

use crate::sent::Sent;

/// Why a step was refused, 0 where it was done, and the serials that it sent: the first one, 0 where there is none, and how many.
#[repr(C)]
#[derive(Clone, Copy)]
pub struct Applied {
    pub refusal: u32,
    pub first: u32,
    pub count: u32,
}

impl Applied {
    // It was done.
    pub(crate) fn done(sent: Sent) -> Applied
        ensures refusal { result.refusal ≡ 0 }
        ensures first { result.first ≡ sent.first }
        ensures count { result.count ≡ sent.count }
    {
        Applied {
            refusal: 0,
            first: sent.first,
            count: sent.count,
        }
    }

    // It was refused.
    pub(crate) fn refused(refusal: u32) -> Applied
        ensures { result ≡ record { refusal = refusal; first = 0; count = 0 } }
    {
        Applied {
            refusal,
            first: 0,
            count: 0,
        }
    }
}
