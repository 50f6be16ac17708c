//! What lines expect, as they say it.

ghost use Rattle.std.specs.Prelude.{◌≡◌, ◌++◌, [], ◌∷◌, OnOk, codes, string_bytes};
ghost use Rattle.ct_grammar.specs.Words.{text_of};
ghost use Rattle.ct_print.specs.Acts.{act_text};
ghost use Rattle.ct_print.specs.Facts.{fact_text, phase_word};
ghost use Rattle.ct_print.specs.Members.{set_or_dash_text};
ghost use Rattle.ct_print.specs.Reports.{names_text};
ghost use Rattle.ct_grammar.specs.Reasons.{reason_text};

use crate::acts::{push_act, push_picked};
use crate::members::push_set;
use crate::reports::{push_decisions, push_estimate, push_names};
use ct_grammar::{Act, Fact, Names, Reason};
use ct_model::Phase;
use ct_names::MemberSet;
use ct_text::push_table;
use std::alloc::AllocError;

/// Puts the fact behind the text, as `round 3` or `delivered 1.1 2.1`. Where memory is refused, a beginning of it may stand there.
#[tactic(auto, unfolding(crate::specs::Facts::fact_text))]
pub fn push_fact(text: &mut String, fact: &Fact) -> Result<(), AllocError>
    ensures { OnOk result (string_bytes text.new ≡ string_bytes text.old ++ fact_text fact.now) }
{
    match fact {
        Fact::Up => text.push_str("up"),
        Fact::Crashed => text.push_str("crashed"),
        Fact::Idle => text.push_str("idle"),
        Fact::Instance(instance) => write!(text, "instance {instance}"),
        Fact::Round(round) => write!(text, "round {round}"),
        Fact::Phase(phase) => push_phase(text, *phase),
        Fact::Received(names) => push_messages(text, "received ", names),
        Fact::Decided(decisions) => {
            text.push_str("decided ")?;
            push_decisions(text, decisions.as_slice())
        }
        Fact::Delivered(names) => push_messages(text, "delivered ", names),
        Fact::Table(table) => {
            text.push_str("table ")?;
            push_table(text, table)
        }
        Fact::Refuses(act, reason) => push_refused(text, act, *reason),
        Fact::May(act) => {
            text.push_str("may ")?;
            push_act(text, act)
        }
        Fact::Waiting(count) => write!(text, "waiting {count}"),
        Fact::Waits(pick) => push_picked(text, "waits ", *pick),
        Fact::Heard(set) => push_members(text, "heard ", *set),
        Fact::Acked(set) => push_members(text, "acked ", *set),
        Fact::Estimate(estimate) => {
            text.push_str("estimate ")?;
            push_estimate(text, estimate)
        }
    }
}

// The word and the names.
fn push_messages(text: &mut String, word: &str, names: &Names) -> Result<(), AllocError>
    ensures { OnOk result (string_bytes text.new ≡ string_bytes text.old ++ word.now ++ names_text 32 names.now) }
{
    text.push_str(word)?;
    push_names(text, ' ', names.as_slice())
}

// The word and the members of the set; a dash where there are none.
#[tactic(auto, unfolding(crate::specs::Members::set_or_dash_text))]
fn push_members(text: &mut String, word: &str, set: MemberSet) -> Result<(), AllocError>
    ensures { OnOk result (string_bytes text.new ≡ string_bytes text.old ++ word.now ++ set_or_dash_text set) }
{
    text.push_str(word)?;
    if set.is_empty() {
        text.push_str("-")
    } else {
        push_set(text, set)
    }
}

// `phase` and its name.
fn push_phase(text: &mut String, phase: Phase) -> Result<(), AllocError>
    ensures { OnOk result (string_bytes text.new ≡ string_bytes text.old ++ codes "phase " ++ phase_word phase) }
{
    match phase {
        Phase::Rest => text.push_str("phase Rest"),
        Phase::Gather => text.push_str("phase Gather"),
        Phase::Wait => text.push_str("phase Wait"),
        Phase::Tally => text.push_str("phase Tally"),
    }
}

// An act that is refused, and the reason.
fn push_refused(text: &mut String, act: &Act, reason: Reason) -> Result<(), AllocError>
    ensures { OnOk result (string_bytes text.new ≡ string_bytes text.old
        ++ text_of (codes "refuses" ∷ act_text act.now ∷ reason_text reason ∷ [])) }
{
    text.push_str("refuses ")?;
    push_act(text, act)?;
    write!(text, " {reason}")
}
