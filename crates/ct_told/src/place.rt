//! Where an input stops being JSON.

use crate::json_front::JsonFront;
use serde_json::Value;
use std::alloc::{AllocError, Global};

/// A place of an input: the number of its line, and that of its byte in the line, each counted from 1.
#[derive(Clone, Copy, Debug)]
pub(crate) struct Place {
    pub(crate) line: usize,
    pub(crate) column: usize,
}

impl Place {
    /// Where the input stops being JSON; none where it is the front of a JSON text. That the place is right no contract says.
    pub(crate) fn in_input(alloc: Global, bytes: &[u8]) -> Result<Option<Place>, AllocError> {
        match first_odd(alloc, bytes)? {
            Some(at) => Ok(Some(Place::behind(bytes, at))),
            None => Place::of_value(alloc, bytes),
        }
    }

    // Behind so many first bytes.
    fn behind(bytes: &[u8], count: usize) -> Place {
        let (mut line, mut column) = (1usize, 1usize);
        for byte in bytes.iter().take(count) {
            if *byte == b'\n' {
                line = line.saturating_add(1);
                column = 1;
            } else {
                column = column.saturating_add(1);
            }
        }
        Place { line, column }
    }

    // Where there is no value of a text that is written as JSON, as a number is too large.
    fn of_value(alloc: Global, bytes: &[u8]) -> Result<Option<Place>, AllocError> {
        match Value::from_slice(alloc, bytes) {
            Ok(_) => Ok(None),
            Err(error) => {
                if error.is_memory() {
                    Err(AllocError)
                } else if error.is_eof() {
                    Ok(None)
                } else {
                    Ok(Some(Place {
                        line: error.line(),
                        column: error.column(),
                    }))
                }
            }
        }
    }
}

// The first byte with which no JSON text goes on, by its index.
fn first_odd(alloc: Global, bytes: &[u8]) -> Result<Option<usize>, AllocError> {
    let text = text_len(bytes);
    let mut front = JsonFront::new(alloc);
    for (i, byte) in bytes.iter().enumerate() {
        if i >= text || !front.take(*byte)? {
            return Ok(Some(i));
        }
    }
    Ok(None)
}

// How many first bytes are UTF-8, or the front of it.
fn text_len(bytes: &[u8]) -> usize {
    match std::str::from_utf8(bytes) {
        Err(error) if error.error_len().is_some() => error.valid_up_to(),
        _ => bytes.len(),
    }
}
