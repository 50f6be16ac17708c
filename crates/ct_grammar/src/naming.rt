//! Why acts are refused, by name.

ghost use Rattle.std.specs.Prelude.{◌≡◌};
ghost use Rattle.ct_grammar.specs.Reasons.{full_of, reason_of, step_reason};

use crate::reason::Reason;
use ct_names::{Limit, Refusal};

// A limit that a step would pass.
#[tactic(auto, unfolding(crate::specs::Reasons::full_of))]
fn full(name: &str) -> Option<Refusal>
    ensures { result ≡ full_of name.now }
{
    match name {
        "Full(Submissions)" => Some(Refusal::Full(Limit::Submissions)),
        "Full(Instances)" => Some(Refusal::Full(Limit::Instances)),
        "Full(Rounds)" => Some(Refusal::Full(Limit::Rounds)),
        "Full(Envelopes)" => Some(Refusal::Full(Limit::Envelopes)),
        "Full(Cells)" => Some(Refusal::Full(Limit::Cells)),
        "Full(Steps)" => Some(Refusal::Full(Limit::Steps)),
        _ => None,
    }
}

// A refusal by the state of an instance; otherwise by a limit.
#[tactic(auto, unfolding(crate::specs::Reasons::step_reason))]
fn step_reason(name: &str) -> Option<Refusal>
    ensures { result ≡ step_reason name.now }
{
    match name {
        "Busy" => Some(Refusal::Busy),
        "Nothing" => Some(Refusal::Nothing),
        "Idle" => Some(Refusal::Idle),
        "WrongPhase" => Some(Refusal::WrongPhase),
        "Decided" => Some(Refusal::Decided),
        "TooFew" => Some(Refusal::TooFew),
        "NotLargest" => Some(Refusal::NotLargest),
        "NoProposal" => Some(Refusal::NoProposal),
        "HasProposal" => Some(Refusal::HasProposal),
        "Undecided" => Some(Refusal::Undecided),
        _ => full(name),
    }
}

// A reason, by its name.
#[tactic(auto, unfolding(crate::specs::Reasons::reason_of))]
pub(crate) fn reason(name: &str) -> Option<Reason>
    ensures { result ≡ reason_of name.now }
{
    match name {
        "NotThere" => Some(Reason::NotThere),
        "Across" => Some(Reason::Across),
        "NoSuchMember" => Some(Reason::Rules(Refusal::NoSuchMember)),
        "Crashed" => Some(Reason::Rules(Refusal::Crashed)),
        "NotWaiting" => Some(Reason::Rules(Refusal::NotWaiting)),
        "BadCommand" => Some(Reason::Rules(Refusal::BadCommand)),
        "NotSent" => Some(Reason::Rules(Refusal::NotSent)),
        "StillWaiting" => Some(Reason::Rules(Refusal::StillWaiting)),
        _ => Some(Reason::Rules(step_reason(name)?)),
    }
}
