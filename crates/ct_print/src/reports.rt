//! What reports say of members, as lines say it.

ghost use Rattle.std.specs.Prelude.{◌<◌, OnOk, map};
ghost use Rattle.std.specs.List.{join_with_byte};
ghost use Rattle.ct_text.specs.Adds.{Adds};
ghost use Rattle.ct_print.specs.Reports.{decision_text, decisions_text, estimate_text, name_text, names_text, value_text};

use ct_grammar::{Decision, Estimate, Name};
use ct_text::push_separator;
use std::alloc::AllocError;

/// The names, with the separator, a character of ASCII, between each two; a dash where there are none.
pub(crate) fn push_names(
    text: &mut String,
    separator: char,
    names: &[Name],
) -> Result<(), AllocError>
    requires { separator < 128 }
    ensures { OnOk result (Adds text.old text.new (names_text separator names.now)) }
{
    if names.is_empty() {
        return text.push('-');
    }
    push_some_names(text, separator, names)
}

/// The names, with the separator between each two.
pub(crate) fn push_some_names(
    text: &mut String,
    separator: char,
    names: &[Name],
) -> Result<(), AllocError>
    requires { separator < 128 }
    ensures { OnOk result (Adds text.old text.new (join_with_byte separator (map name_text names.now))) }
{
    for (i, name) in names.iter().enumerate() {
        push_separator(text, separator, i > 0)?;
        push_name(text, *name)?;
    }
    Ok(())
}

// The name of a message.
#[tactic(auto, unfolding(crate::specs::Reports::name_text))]
fn push_name(text: &mut String, name: Name) -> Result<(), AllocError>
    ensures { OnOk result (Adds text.old text.new (name_text name)) }
{
    let origin = name.origin;
    let number = name.number;
    write!(text, "{origin}.{number}")
}

/// The decisions, with spaces; a dash where there are none.
pub(crate) fn push_decisions(text: &mut String, decisions: &[Decision]) -> Result<(), AllocError>
    ensures { OnOk result (Adds text.old text.new (decisions_text decisions.now)) }
{
    if decisions.is_empty() {
        return text.push('-');
    }
    for (i, decision) in decisions.iter().enumerate() {
        push_separator(text, ' ', i > 0)?;
        push_decision(text, decision)?;
    }
    Ok(())
}

// What was decided for an instance.
#[tactic(auto, unfolding(crate::specs::Reports::decision_text))]
fn push_decision(text: &mut String, decision: &Decision) -> Result<(), AllocError>
    ensures { OnOk result (Adds text.old text.new (decision_text decision.now)) }
{
    let instance = decision.instance;
    write!(text, "{instance}:")?;
    push_names(text, ',', decision.names.as_slice())
}

/// The estimate and its ts; a dash where there is none.
#[tactic(auto, unfolding(crate::specs::Reports::value_text))]
pub(crate) fn push_estimate(
    text: &mut String,
    estimate: &Option<Estimate>,
) -> Result<(), AllocError>
    ensures { OnOk result (Adds text.old text.new (estimate_text estimate.now)) }
{
    match estimate {
        None => text.push_str("-"),
        Some(estimate) => {
            let ts = estimate.ts;
            text.push_str("{")?;
            push_some_names(text, ',', estimate.names.as_slice())?;
            write!(text, "}} ts {ts}")
        }
    }
}
