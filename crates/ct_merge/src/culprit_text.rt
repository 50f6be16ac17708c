//! Why lines of logs are not taken, as text.

ghost use Rattle.std.specs.Prelude.{◌≡◌, ◌++◌, OnOk, string_bytes};
ghost use Rattle.ct_merge.specs.Culprits.{came_to_text, fault_text, head_text, note_text, refused_text, size_text, why_text};

use crate::own_fault::OwnFault;
use crate::verdict::Why;
use ct_names::{
    Limit, MAX_CELLS, MAX_ENVELOPES, MAX_INSTANCES, MAX_ROUNDS, MAX_STEPS, MAX_SUBMISSIONS, Member,
    Refusal,
};
use ct_play::LineFault;
use std::alloc::AllocError;

/// Puts behind the text why a line is not taken, as `the log of member 2 ends before it is sent`; the line itself is the caller's to name.
/// Where memory is refused, a beginning of it may stand there.
#[tactic(auto, unfolding(crate::specs::Culprits::why_text))]
pub fn push_why(text: &mut String, why: &Why) -> Result<(), AllocError>
    ensures { OnOk result (string_bytes text.new ≡ string_bytes text.old ++ why_text why.now) }
{
    match why {
        Why::Fault(OwnFault::Line(fault)) => push_fault(text, *fault),
        Why::Fault(OwnFault::CameTo(member, came)) => push_came_to(text, *member, came.as_str()),
        Why::Never(from) => write!(
            text,
            "it was not sent before, and member {from} can't send it any more"
        ),
        Why::Ended(from) => write!(text, "the log of member {from} ends before it is sent"),
        Why::Circle => text.push_str("it waits for a line that waits for it"),
    }
}

// A line that is refused by itself.
#[tactic(auto, unfolding(crate::specs::Culprits::fault_text))]
fn push_fault(text: &mut String, fault: LineFault) -> Result<(), AllocError>
    ensures { OnOk result (string_bytes text.new ≡ string_bytes text.old ++ fault_text fault) }
{
    match fault {
        LineFault::Refused(step, refusal) => push_refused(text, step.member(), refusal),
        _ => text.push_str("refused"),
    }
}

// What the member came to, where something else is stated.
#[tactic(auto, unfolding(crate::specs::Culprits::came_to_text))]
fn push_came_to(text: &mut String, member: Member, came: &str) -> Result<(), AllocError>
    ensures { OnOk result (string_bytes text.new ≡ string_bytes text.old ++ came_to_text member came.now) }
{
    write!(text, "member {member} came to {came}")
}

// A step of the member that the rules refuse.
#[tactic(auto, unfolding(crate::specs::Culprits::refused_text))]
fn push_refused(text: &mut String, member: Member, refusal: Refusal) -> Result<(), AllocError>
    ensures { OnOk result (string_bytes text.new ≡ string_bytes text.old ++ refused_text member refusal) }
{
    push_head(text, member, refusal)?;
    push_note(text, refusal)
}

// The member is refused a step.
#[tactic(auto, unfolding(crate::specs::Culprits::head_text))]
fn push_head(text: &mut String, member: Member, refusal: Refusal) -> Result<(), AllocError>
    ensures { OnOk result (string_bytes text.new ≡ string_bytes text.old ++ head_text member refusal) }
{
    write!(text, "member {member} is refused {refusal}")
}

// Of a limit how large it is, and that it accuses nobody.
#[tactic(auto, unfolding(crate::specs::Culprits::note_text))]
fn push_note(text: &mut String, refusal: Refusal) -> Result<(), AllocError>
    ensures { OnOk result (string_bytes text.new ≡ string_bytes text.old ++ note_text refusal) }
{
    match refusal {
        Refusal::Full(limit) => {
            push_size(text, limit)?;
            text.push_str("; it accuses nobody")
        }
        _ => Ok(()),
    }
}

// How large the limit is, or what gives room for more.
#[tactic(auto, unfolding(crate::specs::Culprits::size_text))]
fn push_size(text: &mut String, limit: Limit) -> Result<(), AllocError>
    ensures { OnOk result (string_bytes text.new ≡ string_bytes text.old ++ size_text limit) }
{
    match limit {
        Limit::Submissions => {
            write!(
                text,
                ": a member submits at most {MAX_SUBMISSIONS} messages"
            )
        }
        Limit::Instances => write!(text, ": a member has at most {MAX_INSTANCES} instances"),
        Limit::Rounds => write!(text, ": an instance has at most {MAX_ROUNDS} rounds"),
        Limit::Envelopes => write!(text, ": a run has at most {MAX_ENVELOPES} envelopes"),
        Limit::Cells => write!(
            text,
            ": no cell is left; cells {MAX_CELLS} at the top of a log gives room for more"
        ),
        Limit::Steps => write!(text, ": a run has at most {MAX_STEPS} steps"),
    }
}
