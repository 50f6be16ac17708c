//! The lines that bytes are, and how they are shown.

ghost use Rattle.std.specs.Prelude.{◌≡◌, OnOk, IfOk, option_map};
ghost use Rattle.ct_text.specs.Adds.{Adds};
ghost use Rattle.ct_grammar.specs.Lines.{line_of};
ghost use Rattle.ct_judging.specs.Reading.{begins_record, line_in, line_in_text, line_or, shown, shown_text, trimmed};

use crate::printing::push_printed;
use ct_grammar::{Line, line_of, text_in};
use ct_judging::{LONGEST_SHOWN, Misread};
use std::alloc::{AllocError, Global};

// The line that these bytes are.
#[tactic(auto, unfolding(ct_judging::specs::Reading::line_in))]
pub(crate) fn line_in(alloc: Global, bytes: &[u8]) -> Result<Result<Line, Misread>, AllocError>
    ensures { IfOk result (λ line. line ≡ line_in bytes.now) }
{
    line_in_text(alloc, text_in(bytes))
}

fn line_in_text(alloc: Global, text: Option<&str>) -> Result<Result<Line, Misread>, AllocError>
    ensures { IfOk result (λ line. line ≡ line_in_text (option_map (λ text. text.now) text.entry)) }
{
    match text {
        None => Ok(Err(Misread::NoText)),
        Some(text) if begins_record(text.as_bytes()) => Ok(Err(Misread::Record)),
        Some(text) => line_of_text(alloc, text),
    }
}

// Whether the text begins as records do.
fn begins_record(text: &[u8]) -> bool
    ensures { result ≡ begins_record text.now }
{
    match text {
        [first, ..] => *first == b'{',
        [] => false,
    }
}

// The line that the text is.
fn line_of_text(alloc: Global, text: &str) -> Result<Result<Line, Misread>, AllocError>
    ensures { IfOk result (λ line. line ≡ line_or (line_of text.now)) }
{
    match line_of(alloc, text)? {
        Ok(line) => Ok(Ok(line)),
        Err(misfit) => Ok(Err(Misread::NoLine(misfit))),
    }
}

/// Puts the line before its fault: without blanks at its ends and without control bytes, a colon and a space behind it; nothing of
/// one that is longer than [`LONGEST_SHOWN`] or no UTF-8.
#[tactic(auto, unfolding(ct_judging::specs::Reading::shown))]
pub fn push_shown(text: &mut String, line: &[u8]) -> Result<(), AllocError>
    ensures { OnOk result (Adds text.old text.new (shown line.now)) }
{
    push_shown_text(text, text_in(trimmed(line)))
}

fn push_shown_text(text: &mut String, line: Option<&str>) -> Result<(), AllocError>
    ensures { OnOk result (Adds text.old text.new (shown_text (option_map (λ line. line.now) line.entry))) }
{
    match line {
        Some(line) if line.len() <= LONGEST_SHOWN => {
            push_printed(text, line)?;
            text.push_str(": ")
        }
        _ => Ok(()),
    }
}

// The line as it stands, without blanks at its ends.
fn trimmed(line: &[u8]) -> &[u8]
    ensures { result.now ≡ trimmed line.now }
{
    line.trim_ascii_start().trim_ascii_end()
}
