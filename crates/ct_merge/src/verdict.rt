//! What logs come to.

ghost use Rattle.std.specs.Prelude.{◌≡◌};
ghost use Rattle.ct_merge.specs.Verdicts.{verdict_at};
ghost use Rattle.ct_merge.specs.Waits.{is_limit};

use crate::own_fault::OwnFault;
use ct_names::Member;
use ct_world::World;

/// What the logs of members come to.
#[derive(Drop)]
pub enum Verdict {
    /// A run in which each member takes the steps of its log.
    Accepted(World),
    /// No order of these logs was found to be a run, whatever lines they go on with.
    Refused(Culprit),
    /// None was found as they stand: the log of the sender would have to go on.
    Incomplete(Culprit),
    /// A limit is in the way of this line, which accuses nobody.
    Limited(Culprit),
}

impl Verdict {
    // What logs come to that stand at this line.
    pub(crate) fn at(culprit: Culprit) -> Verdict
        ensures { result ≡ verdict_at culprit }
    {
        match &culprit.why {
            Why::Ended(_) => Verdict::Incomplete(culprit),
            why if why.is_limit() => Verdict::Limited(culprit),
            _ => Verdict::Refused(culprit),
        }
    }
}

/// A line at which a log stands, and why.
#[derive(Drop)]
pub struct Culprit {
    /// Whose log it is.
    pub member: Member,
    /// The line's place in that log, counted from 0.
    pub place: usize,
    pub why: Why,
    /// The run behind which logs wait; None where the line is the first that is refused by itself.
    pub run: Option<World>,
}

/// Why a line is not taken.
#[derive(Drop)]
pub enum Why {
    /// It is refused by itself, or by a limit.
    Fault(OwnFault),
    /// It receives what was not sent, and what this member can't send any more.
    Never(Member),
    /// It receives what was not sent, and the log of this member ends before.
    Ended(Member),
    /// It receives what was not sent, and the log of its sender waits for an envelope in its turn, and so on round to this line.
    Circle,
}

impl Why {
    /// Whether a limit is in the way of the line.
    pub fn is_limit(&self) -> bool
        ensures { result ≡ is_limit self.now }
    {
        match self {
            Why::Fault(fault) => fault.is_limit(),
            _ => false,
        }
    }
}
