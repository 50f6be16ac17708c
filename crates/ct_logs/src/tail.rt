//! A log that is read while it grows.

ghost use Rattle.std.specs.Prelude.{◌≡◌, IfOk, IfSome};
ghost use Rattle.std.proofs.Props.{props};
ghost use Rattle.std.specs.Io.{ReadsAtMost};

use crate::log_reading::{fault_of, refuse_record};
use crate::merge_fault::MergeFault;
use crate::naming::{line_at, push_line};
use ct_judge::MAX_LEN;
use ct_merge::{Expectations, LogAct, LogFault, LogLine, LogText, NoEntry, Numbers};
use ct_names::Member;
use ct_streams::{Failed, Source};
use std::alloc::{AllocError, Global};
use std::mem;

// A log that is read while it grows, and what was read of it.
#[derive(Drop)]
pub(crate) struct Tail<R: Source + Drop> {
    // None once a read failed.
    reader: Option<R>,
    log: LogText,
    text: Vec<u8>,
    // How many first bytes of the text are lines that the log has.
    over: usize,
    // Whose log it is where its acts don't say that, and whose they say it is.
    pub position: Member,
    pub member: Option<Member>,
    pub is_crashed: bool,
    ghost unfailed: { IfSome reader (λ r. R.failures r ≡ 0) } by { Prim.hlevel props },
}

// What was read of a log: whose it is, the numbers of the group that it gives, and lines, with their numbers in its text.
#[derive(Drop)]
pub(crate) struct Parts {
    pub member: Option<Member>,
    pub numbers: Numbers,
    pub lines: Vec<LogLine>,
    pub places: Vec<usize>,
}

impl<R: Source + Drop> Tail<R> {
    // Nothing was read of the log, which is this member's where its acts don't say whose it is.
    pub(crate) fn new(alloc: Global, position: Member, reader: R) -> Tail<R>
        requires { R.failures reader ≡ 0 }
    {
        Tail {
            reader: Some(reader),
            log: LogText::new(alloc),
            text: Vec::new(alloc),
            over: 0,
            position,
            member: None,
            is_crashed: false,
        }
    }

    // Reads some bytes. How many came.
    pub(crate) fn read(&mut self, piece: &mut [u8]) -> Result<usize, Failed>
        ensures { ReadsAtMost result piece.new }
    {
        let Some(mut reader) = self.reader.take() else {
            return Err(Failed);
        };
        let count = reader.read(piece)?;
        self.reader = Some(reader);
        Ok(count)
    }

    // These bytes came. Whether the text is no longer than that of a log may be.
    pub(crate) fn add(&mut self, bytes: &[u8]) -> Result<bool, AllocError> {
        self.text.extend_from_slice(bytes)?;
        Ok(self.text.len() <= MAX_LEN)
    }

    // How many bytes were read.
    pub(crate) fn count(&self) -> usize {
        self.text.len()
    }

    // Takes the lines that are over now, of the file of this name.
    pub(crate) fn take(&mut self, alloc: Global, name: &str) -> Result<Parts, MergeFault> {
        refuse_record(alloc, name, &self.text)?;
        match read_lines(alloc, &mut self.log, self.position, &self.text, self.over) {
            Ok(over) => self.over = over,
            Err(fault) => return Err(grown_fault(alloc, name, &self.text, fault)),
        }
        let (member, numbers, lines, places) = self.log.take_parts(alloc);
        self.member = member;
        if let Some(line) = lines.last() {
            self.is_crashed = matches!(line.act, LogAct::Crash);
        }
        Ok(Parts {
            member,
            numbers,
            lines,
            places,
        })
    }

    // What was read that the log expects of its member, which it has no more.
    pub(crate) fn take_expected(&mut self, alloc: Global) -> Expectations {
        self.log.take_expected(alloc)
    }

    // The text, which it has no more.
    pub(crate) fn take_text(&mut self, alloc: Global) -> Vec<u8> {
        mem::replace(&mut self.text, Vec::new(alloc))
    }
}

// Reads the lines that are over now behind so many bytes of the text of the log, which is that of this member where its acts don't say
// whose it is. Behind how many it then is.
fn read_lines(
    alloc: Global,
    log: &mut LogText,
    member: Member,
    text: &[u8],
    over: usize,
) -> Result<usize, LogFault> {
    let lines = whole_lines(text.get(over..).unwrap_or(&[]));
    if log.count() > MAX_LEN || lines.len() > MAX_LEN {
        return Err(LogFault::Memory);
    }
    log.read_on(alloc, member, lines)?;
    Ok(over.saturating_add(lines.len()))
}

// What is told of a text that is no log, and grows.
fn grown_fault(alloc: Global, name: &str, text: &[u8], fault: LogFault) -> MergeFault {
    match fault {
        LogFault::Line(at, NoEntry::Other(member)) => {
            match other(alloc, name, at, line_at(text, at), member) {
                Ok(told) => MergeFault::NoLogs(told),
                Err(_) => MergeFault::Memory,
            }
        }
        fault => fault_of(alloc, name, text, fault),
    }
}

// What is told of a line of this member's, in the log of another.
fn other(
    alloc: Global,
    name: &str,
    at: usize,
    line: &[u8],
    member: Member,
) -> Result<String, AllocError> {
    let mut text = String::new(alloc);
    push_line(&mut text, name, at, line)?;
    write!(
        text,
        "member {member}'s, in the log of another: the first act of a log that is followed says whose it is"
    )?;
    Ok(text)
}

// The text up to its last line feed.
fn whole_lines(text: &[u8]) -> &[u8] {
    match text.iter().rposition(|byte| *byte == b'\n') {
        Some(end) => text.get(..end.saturating_add(1)).unwrap_or(text),
        None => &[],
    }
}
