//! Sets of messages, estimates and phases, shown.

ghost use Rattle.std.specs.Prelude.{◌≡◌, OnOk, option_map};
ghost use Rattle.ct_text.specs.Adds.{Adds};
ghost use Rattle.ct_text.specs.Shapes.{estimate_text, names_text, phase_text, set_text, shortened, value_text};

use crate::separator::push_separator;
use ct_model::Phase;
use ct_names::{Message, Round};
use std::alloc::AllocError;

/// How many messages of a value are shown.
pub const MOST_SHOWN: usize = 8;

/// Appends the messages of a value; of many the first ones, and how many more there are.
#[tactic(auto, unfolding(crate::specs::Shapes::set_text))]
pub fn push_set(text: &mut String, messages: &[Message]) -> Result<(), AllocError>
    ensures { OnOk result (Adds text.old text.new (set_text messages.now)) }
{
    text.push('{')?;
    push_shortened(text, messages)?;
    text.push('}')
}

// The names of the messages; of many the first ones, and how many more there are.
#[tactic(auto, unfolding(crate::specs::Shapes::shortened))]
fn push_shortened(text: &mut String, messages: &[Message]) -> Result<(), AllocError>
    ensures { OnOk result (Adds text.old text.new (shortened messages.now)) }
{
    if messages.len() <= MOST_SHOWN {
        push_names(text, messages)
    } else {
        push_names(text, &messages[..MOST_SHOWN])?;
        let more = messages.len() - MOST_SHOWN;
        write!(text, " and {more} more")
    }
}

// The names of the messages, in order.
#[tactic(auto, unfolding(crate::specs::Shapes::names_text))]
fn push_names(text: &mut String, messages: &[Message]) -> Result<(), AllocError>
    ensures { OnOk result (Adds text.old text.new (names_text messages.now)) }
{
    for (i, message) in messages.iter().enumerate() {
        push_separator(text, ',', i > 0)?;
        write!(text, "{message}")?;
    }
    Ok(())
}

/// Appends an estimate and its ts; nothing where there is none.
#[tactic(auto, unfolding(crate::specs::Shapes::estimate_text))]
pub fn push_estimate(
    text: &mut String,
    estimate: Option<(&[Message], Round)>,
) -> Result<(), AllocError>
    ensures { OnOk result (Adds text.old text.new (estimate_text (option_map (λ e. (e.0.now, e.1)) estimate.entry))) }
{
    match estimate {
        None => Ok(()),
        Some((value, ts)) => {
            push_set(text, value)?;
            write!(text, " ts {ts}")
        }
    }
}

/// Appends the value of an estimate, without its ts; nothing where there is none.
#[tactic(auto, unfolding(crate::specs::Shapes::value_text))]
pub fn push_value(
    text: &mut String,
    estimate: Option<(&[Message], Round)>,
) -> Result<(), AllocError>
    ensures { OnOk result (Adds text.old text.new (value_text (option_map (λ e. (e.0.now, e.1)) estimate.entry))) }
{
    match estimate {
        None => Ok(()),
        Some((value, _)) => push_set(text, value),
    }
}

/// The phase's name.
pub fn phase_name(phase: Phase) -> &'static str
    ensures { result.now ≡ phase_text phase }
{
    match phase {
        Phase::Rest => "Rest",
        Phase::Gather => "Gather",
        Phase::Wait => "Wait",
        Phase::Tally => "Tally",
    }
}
