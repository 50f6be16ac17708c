//! The lines of logs, as faults name them.

use ct_grammar::first_feed;
use ct_judge::push_shown;
use std::alloc::AllocError;

// The line of this number, counted from 1; of a text that has fewer nothing.
pub(crate) fn line_at(text: &[u8], number: usize) -> &[u8] {
    let mut rest = text;
    for _ in 1..number {
        rest = behind_line(rest);
    }
    first_line(rest)
}

// The first line of the text.
fn first_line(text: &[u8]) -> &[u8] {
    match first_feed(text) {
        Some(end) => text.get(..end).unwrap_or(&[]),
        None => text,
    }
}

// What stands behind the first line of the text.
fn behind_line(text: &[u8]) -> &[u8] {
    match first_feed(text) {
        Some(end) => text.get(end.saturating_add(1)..).unwrap_or(&[]),
        None => &[],
    }
}

// The file, the line's number and the line itself, before what is told of it.
pub(crate) fn push_line(
    text: &mut String,
    name: &str,
    number: usize,
    line: &[u8],
) -> Result<(), AllocError> {
    write!(text, "{name} line {number}: ")?;
    push_shown(text, line)
}
