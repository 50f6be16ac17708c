//! What is told of a line.

use crate::act::Act;
use crate::place::Place;
use crate::wrong::Wrong;
use std::alloc::{AllocError, Global};

/// What is told of a line: where it stands, what it says, what is wrong, and the other line that has to do with it.
#[derive(Drop)]
pub(crate) struct Report {
    pub place: Place,
    pub text: String,
    pub why: String,
    pub other: Option<Place>,
}

impl Report {
    // The line for standard error.
    pub(crate) fn push_line(
        &self,
        line: &mut String,
        names: &[&str],
        wrong: Wrong,
    ) -> Result<(), AllocError> {
        if !matches!(wrong, Wrong::NoLog) {
            write!(line, "{}: ", wrong.word())?;
        }
        push_place(line, names, self.place)?;
        if !self.text.is_empty() {
            write!(line, ": {}", self.text.as_str())?;
        }
        write!(line, ": {}", self.why.as_str())
    }

    // The same as an object of JSON, with the verdict; without the brace at its end.
    pub(crate) fn push_json(
        &self,
        text: &mut String,
        names: &[&str],
        wrong: Wrong,
    ) -> Result<(), AllocError> {
        write!(text, "{{\"verdict\":\"{}\",", wrong.word())?;
        push_json_place(text, names, self.place)?;
        text.push_str(",\"text\":")?;
        push_json(text, self.text.as_str())?;
        text.push_str(",\"why\":")?;
        push_json(text, self.why.as_str())?;
        if let Some(other) = self.other {
            text.push_str(",\"other\":{")?;
            push_json_place(text, names, other)?;
            text.push_str("}")?;
        }
        Ok(())
    }
}

// The name of the file of this place.
pub(crate) fn name_of<'a>(names: &[&'a str], log: u32) -> &'a str {
    match names.get(log as usize) {
        Some(name) => name,
        None => "-",
    }
}

// The file and the line.
pub(crate) fn push_place(
    text: &mut String,
    names: &[&str],
    place: Place,
) -> Result<(), AllocError> {
    write!(text, "{} line {}", name_of(names, place.log), place.line)
}

fn push_json_place(text: &mut String, names: &[&str], place: Place) -> Result<(), AllocError> {
    text.push_str("\"file\":")?;
    push_json(text, name_of(names, place.log))?;
    write!(text, ",\"line\":{}", place.line)
}

// The text as a string of JSON.
pub(crate) fn push_json(text: &mut String, shown: &str) -> Result<(), AllocError> {
    text.push_str("\"")?;
    for c in shown.chars() {
        match c {
            '"' => text.push_str("\\\"")?,
            '\\' => text.push_str("\\\\")?,
            c if c < ' ' => write!(text, "\\u{:04x}", u32::from(c))?,
            c => text.push(c)?,
        }
    }
    text.push_str("\"")
}

// What the line says.
pub(crate) fn act_text(alloc: Global, act: Act, word: &str) -> Result<String, AllocError> {
    match act {
        Act::Broadcast => format!(in alloc; "broadcast {word}"),
        Act::Deliver => format!(in alloc; "deliver {word}"),
        Act::State => format!(in alloc; "state {word}"),
        Act::From(count) => format!(in alloc; "from {count}"),
        Act::Restart(count) => format!(in alloc; "restart {count}"),
        Act::Crash => String::from_str(alloc, "crash"),
        Act::End => String::from_str(alloc, "end"),
    }
}
