//! What is wrong with logs, line by line.

use crate::report::Report;
use crate::wrong::Wrong;
use std::alloc::{AllocError, Global};

/// What is wrong with a line.
#[derive(Drop)]
pub(crate) struct Finding {
    pub wrong: Wrong,
    pub report: Report,
}

// The lines for standard error: of the first line, and of the others.
pub(crate) fn text_of(
    alloc: Global,
    names: &[&str],
    wrong: Wrong,
    report: &Report,
    others: &[Finding],
) -> Result<String, AllocError> {
    let mut text = String::new(alloc);
    report.push_line(&mut text, names, wrong)?;
    for other in others {
        text.push_str("\nalso ")?;
        other.report.push_line(&mut text, names, other.wrong)?;
    }
    Ok(text)
}

// The same as an object of JSON.
pub(crate) fn json_of(
    alloc: Global,
    names: &[&str],
    wrong: Wrong,
    report: &Report,
    others: &[Finding],
) -> Result<String, AllocError> {
    let mut text = String::new(alloc);
    report.push_json(&mut text, names, wrong)?;
    let mut before = ",\"also\":[";
    for other in others {
        text.push_str(before)?;
        other.report.push_json(&mut text, names, other.wrong)?;
        text.push_str("}")?;
        before = ",";
    }
    if !others.is_empty() {
        text.push_str("]")?;
    }
    text.push_str("}\n")?;
    Ok(text)
}
