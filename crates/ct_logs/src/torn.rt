//! Last lines that are torn.

use crate::log_set::name_at;
use crate::naming::push_line;
use std::alloc::AllocError;

// Puts behind the text a line for each log whose last line no line feed ends.
pub(crate) fn push_torn(
    text: &mut String,
    names: &[&str],
    texts: &[Vec<u8>],
) -> Result<(), AllocError> {
    for (i, log) in texts.iter().enumerate() {
        let (number, line) = last_line(log);
        if !line.is_empty() {
            text.push_str("\nnote: ")?;
            push_line(text, name_at(names, i), number, line)?;
            text.push_str("no line feed ends it, so it is left out")?;
        }
    }
    Ok(())
}

// What stands behind the last line feed, and the number of this line, counted from 1.
fn last_line(text: &[u8]) -> (usize, &[u8]) {
    let mut number: usize = 0;
    let mut last: &[u8] = &[];
    for line in text.split(|byte| *byte == b'\n') {
        number = number.saturating_add(1);
        last = line;
    }
    (number, last)
}
