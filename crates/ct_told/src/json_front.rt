//! How far an input is the front of a JSON text.

use crate::number_part::NumberPart;
use crate::text_part::TextPart;
use std::alloc::{AllocError, Global};

// How deep lists and objects stand in one another at most.
const DEEPEST: usize = 127;

// What may stand next.
#[derive(Clone, Copy)]
enum Due {
    Value,
    // A value, or the end of the list that was opened.
    Entry,
    // A name, or the end of the object that was opened.
    Field,
    Name,
    Colon,
    // What stands behind a value.
    Rest,
    // More of what was begun.
    Number(NumberPart),
    Text(TextPart),
    Word(&'static [u8]),
}

/// The front of a JSON text, which takes byte by byte.
#[derive(Drop)]
pub(crate) struct JsonFront {
    due: Due,
    // The text that was begun is a name.
    is_name: bool,
    // What is open, the outermost first: true for an object, false for a list.
    open: Vec<bool>,
}

impl JsonFront {
    /// No byte is taken yet.
    pub(crate) fn new(alloc: Global) -> JsonFront {
        JsonFront {
            due: Due::Value,
            is_name: false,
            open: Vec::new(alloc),
        }
    }

    /// Takes the byte, where a JSON text may go on with it, and says whether it may.
    pub(crate) fn take(&mut self, byte: u8) -> Result<bool, AllocError> {
        let next = match self.due {
            Due::Text(part) => self.in_text(part, byte),
            Due::Word(rest) => in_word(rest, byte),
            Due::Number(part) => self.in_number(part, byte)?,
            due => self.between(due, byte)?,
        };
        match next {
            None => Ok(false),
            Some(due) => {
                self.due = due;
                Ok(true)
            }
        }
    }

    fn in_text(&self, part: TextPart, byte: u8) -> Option<Due> {
        match part.next(byte)? {
            TextPart::End if self.is_name => Some(Due::Colon),
            TextPart::End => Some(Due::Rest),
            part => Some(Due::Text(part)),
        }
    }

    // A number ends where it may not go on.
    fn in_number(&mut self, part: NumberPart, byte: u8) -> Result<Option<Due>, AllocError> {
        match part.next(byte) {
            Some(part) => Ok(Some(Due::Number(part))),
            None if part.may_end() => self.between(Due::Rest, byte),
            None => Ok(None),
        }
    }

    // Where nothing is begun.
    fn between(&mut self, due: Due, byte: u8) -> Result<Option<Due>, AllocError> {
        if is_white(byte) {
            return Ok(Some(due));
        }
        match due {
            Due::Colon => Ok((byte == b':').then_some(Due::Value)),
            Due::Rest => Ok(self.behind_value(byte)),
            Due::Name => Ok(self.name(byte)),
            Due::Field if byte == b'}' => Ok(self.close(true)),
            Due::Field => Ok(self.name(byte)),
            Due::Entry if byte == b']' => Ok(self.close(false)),
            _ => self.value(byte),
        }
    }

    fn behind_value(&mut self, byte: u8) -> Option<Due> {
        match byte {
            b']' => self.close(false),
            b'}' => self.close(true),
            b',' => self.behind_comma(),
            _ => None,
        }
    }

    fn behind_comma(&self) -> Option<Due> {
        if *self.open.last()? {
            Some(Due::Name)
        } else {
            Some(Due::Value)
        }
    }

    fn name(&mut self, byte: u8) -> Option<Due> {
        self.is_name = true;
        (byte == b'"').then_some(Due::Text(TextPart::Signs))
    }

    fn value(&mut self, byte: u8) -> Result<Option<Due>, AllocError> {
        self.is_name = false;
        match byte {
            b'[' => self.enter(false),
            b'{' => self.enter(true),
            _ => Ok(plain_value(byte)),
        }
    }

    fn enter(&mut self, is_object: bool) -> Result<Option<Due>, AllocError> {
        if self.open.len() >= DEEPEST {
            return Ok(None);
        }
        match self.open.push(is_object) {
            Ok(()) if is_object => Ok(Some(Due::Field)),
            Ok(()) => Ok(Some(Due::Entry)),
            Err(_) => Err(AllocError),
        }
    }

    fn close(&mut self, is_object: bool) -> Option<Due> {
        if *self.open.last()? != is_object {
            return None;
        }
        self.open.pop();
        Some(Due::Rest)
    }
}

// A value that opens nothing.
fn plain_value(byte: u8) -> Option<Due> {
    match byte {
        b'"' => Some(Due::Text(TextPart::Signs)),
        b't' => Some(Due::Word(b"rue")),
        b'f' => Some(Due::Word(b"alse")),
        b'n' => Some(Due::Word(b"ull")),
        _ => Some(Due::Number(NumberPart::first(byte)?)),
    }
}

fn in_word(rest: &'static [u8], byte: u8) -> Option<Due> {
    match rest {
        [last] if *last == byte => Some(Due::Rest),
        [first, rest @ ..] if *first == byte => Some(Due::Word(rest)),
        _ => None,
    }
}

fn is_white(byte: u8) -> bool {
    byte == b' ' || byte == b'\t' || byte == b'\n' || byte == b'\r'
}
