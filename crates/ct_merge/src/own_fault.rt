//! Why lines are refused by themselves.

ghost use Rattle.std.specs.Prelude.{◌≡◌};
ghost use Rattle.ct_merge.specs.Stops.{line_fault_of};
ghost use Rattle.ct_merge.specs.Waits.{is_limit};
ghost use Rattle.ct_merge.specs.declared.verdict.Why.TheVariants.{Fault};

use ct_grammar::Text;
use ct_names::{Member, Refusal};
use ct_play::LineFault;
use std::alloc::AllocError;

/// Why a line is refused by itself, once its log has come to it.
#[derive(Drop)]
pub enum OwnFault {
    /// It has this fault.
    Line(LineFault),
    /// What this member did came to this, and not to what is stated.
    CameTo(Member, Text),
}

impl OwnFault {
    /// The fault that the line would have in a schedule.
    pub(crate) fn line_fault(&self) -> LineFault
        ensures { result ≡ line_fault_of self.now }
    {
        match self {
            OwnFault::Line(fault) => *fault,
            OwnFault::CameTo(member, _) => LineFault::NotSo(*member),
        }
    }

    // Whether a limit is in the way of the line.
    pub(crate) fn is_limit(&self) -> bool
        ensures { result ≡ is_limit (Fault self.now) }
    {
        match self {
            OwnFault::Line(fault) => matches!(*fault, LineFault::Refused(_, Refusal::Full(_))),
            OwnFault::CameTo(..) => false,
        }
    }
}

impl From<LineFault> for OwnFault {
    ghost use Rattle.std.specs.Prelude.{◌≡◌};
    ghost use Rattle.ct_merge.specs.declared.own_fault.OwnFault.TheVariants.{Line};

    ghost from_gives = { λ fault own. own ≡ Line fault };

    fn from(fault: LineFault) -> OwnFault {
        OwnFault::Line(fault)
    }
}

impl From<AllocError> for OwnFault {
    ghost use Rattle.std.specs.Prelude.{◌≡◌};
    ghost use Rattle.ct_play.specs.declared.line_fault.LineFault.TheVariants.{OutOfMemory};
    ghost use Rattle.ct_merge.specs.declared.own_fault.OwnFault.TheVariants.{Line};

    ghost from_gives = { λ _ own. own ≡ Line OutOfMemory };

    fn from(_error: AllocError) -> OwnFault {
        OwnFault::Line(LineFault::OutOfMemory)
    }
}
