//! Lines, as they join the text of a schedule.

ghost use Rattle.std.specs.Prelude.{◌≡◌, ◌++◌, ◌∷◌, [], true, OnOk, string_bytes};
ghost use Rattle.ct_text.specs.Adds.{Adds};
ghost use Rattle.ct_listing.specs.Leading.{AddsLine, comment_text, one_line};
ghost use Rattle.ct_print.specs.Lines.{line_text};

use ct_grammar::{Line, first_feed};
use ct_print::push_line;
use std::alloc::{AllocError, Global};

// Appends the line, the remark behind it as a comment, as far as it is one line, and a line feed.
pub(crate) fn push_told(
    alloc: Global,
    text: &mut String,
    line: &Line,
    remark: &str,
) -> Result<(), AllocError>
    ensures { OnOk result (AddsLine (string_bytes text.old) (string_bytes text.new) (line_text line.now)) }
{
    let mut told = String::new(alloc);
    push_line(&mut told, line)?;
    push_comment(&mut told, first_line(remark))?;
    push_with_feed(text, told.as_str())?;
    Ok(())
}

// Appends the line and a line feed.
pub(crate) fn push_with_feed(text: &mut String, line: &str) -> Result<(), AllocError>
    ensures { OnOk result (Adds text.old text.new (line.now ++ 10 ∷ [])) }
{
    text.push_str(line)?;
    text.push('\n')
}

fn push_comment(text: &mut String, remark: &str) -> Result<(), AllocError>
    ensures { OnOk result (Adds text.old text.new (comment_text remark.now)) }
{
    if remark.is_empty() {
        return Ok(());
    }
    text.push_str(" # ")?;
    text.push_str(remark)
}

// What stands before the first line feed.
#[tactic(auto, using(crate::proofs::Feeds::feed_boundary, crate::proofs::Feeds::before_feed, crate::proofs::Feeds::without_feed))]
fn first_line(text: &str) -> &str
    ensures { one_line result.now ≡ true }
{
    match first_feed(text.as_bytes()) {
        Some(end) => &text[..end],
        None => text,
    }
}
