//! The files of logs.

use crate::log_set::{LogSet, name_at};
use crate::naming::{line_at, push_line};
use ct_names::Member;
use std::alloc::AllocError;

// How many characters stand behind a line, before what is told of it: a colon and a blank.
const BETWEEN: u8 = 2;

// The files in which the lines of logs stand: their names, their texts, and whose log each has.
#[derive(Clone, Copy)]
pub(crate) struct Sources<'a> {
    pub names: &'a [&'a str],
    pub texts: &'a [Vec<u8>],
    pub set: &'a LogSet,
}

impl<'a> Sources<'a> {
    // The name of the file of the member's log.
    pub(crate) fn name(self, member: Member) -> &'a str {
        name_at(self.names, self.set.file(member).unwrap_or(0))
    }

    // The number in its file of the line at this place of the member's log.
    pub(crate) fn number(self, member: Member, place: usize) -> usize {
        self.set.number(member, place).unwrap_or(0)
    }

    // The text of the member's log.
    fn text(self, member: Member) -> &'a [u8] {
        match self.texts.get(self.set.file(member).unwrap_or(0)) {
            Some(text) => text.as_slice(),
            None => &[],
        }
    }

    // The file of the line, its number and its text.
    pub(crate) fn push(
        self,
        text: &mut String,
        member: Member,
        place: usize,
    ) -> Result<(), AllocError> {
        self.push_numbered(text, member, self.number(member, place))
    }

    // The same of the line of this number.
    pub(crate) fn push_numbered(
        self,
        text: &mut String,
        member: Member,
        number: usize,
    ) -> Result<(), AllocError> {
        push_line(
            text,
            self.name(member),
            number,
            line_at(self.text(member), number),
        )
    }

    // The same, with nothing behind it.
    pub(crate) fn push_last(
        self,
        text: &mut String,
        member: Member,
        place: usize,
    ) -> Result<(), AllocError> {
        self.push(text, member, place)?;
        for _ in 0..BETWEEN {
            let _ = text.pop();
        }
        Ok(())
    }
}
