//! The numbers of refusals.

ghost use Rattle.std.specs.Prelude.{◌≡◌, ◌≤◌};
ghost use Rattle.ct_embed.specs.RefusalNumbers.{limit_number, refusal_number};

use ct_names::{Limit, Refusal};

// The number of the refusal, as `bindings/ct.h` has it.
pub(crate) fn refusal_number(refusal: Refusal) -> u32
    ensures value { result ≡ refusal_number refusal }
    ensures some { 1 ≤ result }
{
    match refusal {
        Refusal::NoSuchMember => 1,
        Refusal::Crashed => 2,
        Refusal::NotWaiting => 3,
        Refusal::Busy => 4,
        Refusal::Nothing => 5,
        Refusal::Idle => 6,
        Refusal::WrongPhase => 7,
        Refusal::Decided => 8,
        Refusal::TooFew => 9,
        Refusal::NotLargest => 10,
        Refusal::NoProposal => 11,
        Refusal::HasProposal => 12,
        Refusal::Undecided => 13,
        Refusal::BadCommand => 14,
        Refusal::NotSent => 15,
        Refusal::StillWaiting => 16,
        Refusal::Full(limit) => limit_number(limit),
        Refusal::OutOfMemory => 23,
        Refusal::Board => 24,
    }
}

fn limit_number(limit: Limit) -> u32
    ensures value { result ≡ limit_number limit }
    ensures some { 1 ≤ result }
{
    match limit {
        Limit::Submissions => 17,
        Limit::Instances => 18,
        Limit::Rounds => 19,
        Limit::Envelopes => 20,
        Limit::Cells => 21,
        Limit::Steps => 22,
    }
}
