//! Lines that stand in no log.

use ct_grammar::Given;
use ct_merge::NoEntry;
use std::alloc::AllocError;

// The acts that no log has, as they stand behind the others where acts are listed.
const NO_LOG_HAS: &str = ", postpone, lose, repeat, turns, settle";

// Why the line does not stand in a log.
pub(crate) fn push_no_entry(text: &mut String, why: &NoEntry) -> Result<(), AllocError> {
    match why {
        NoEntry::NoText => text.push_str("no UTF-8"),
        NoEntry::NoLine(misfit) => {
            text.push_str("not understood: ")?;
            misfit.push_onto(text)?;
            leave_out(text);
            Ok(())
        }
        NoEntry::NoFact => text.push_str(
            "not understood: a log expects one FACT a line, of its own member as it is there: expect FACT",
        ),
        NoEntry::OpenFact => {
            text.push_str("not understood: this fact depends on the order of the others")
        }
        NoEntry::OpenRefusal => {
            text.push_str("not understood: this refusal depends on the order of the others")
        }
        NoEntry::NoAct => text.push_str("no act of one member, as a log has"),
        NoEntry::Network => {
            text.push_str(
                "the network does that, and no log has it: a second receipt tells of a repetition",
            )
        }
        NoEntry::Serial => {
            text.push_str("an envelope is named in a log by what it carries, and from its sender")
        }
        NoEntry::NoSender => text.push_str("the sender is missing: from and a member"),
        NoEntry::Other(member) => write!(text, "member {member}'s, in the log of another"),
        NoEntry::Given(given) => push_given(text, *given),
    }
}

// Leaves out acts that no log has at the end of the text.
fn leave_out(text: &mut String) {
    if text.as_str().ends_with(NO_LOG_HAS) {
        for _ in NO_LOG_HAS.chars() {
            let _ = text.pop();
        }
    }
}

// Another number of the group was given before.
fn push_given(text: &mut String, given: Given) -> Result<(), AllocError> {
    match given {
        Given::Members(_) => text.push_str("another number of members was given before"),
        Given::Cells(_) => text.push_str("another number of cells was given before"),
        Given::Batch(_) => text.push_str("another bound was given before"),
    }
}
