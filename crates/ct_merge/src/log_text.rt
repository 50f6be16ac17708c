//! Logs as texts.

ghost use Rattle.std.specs.Prelude.{◌≡◌, ◌<◌, ◌^◌, ◌+◌, [], Ok, OnOk, OnErr, IfOk, IfErr, Some, length, true, false};
ghost use Rattle.ct_merge.specs.Texts.{IsFaultIn, after_entry, after_expected, after_line, after_lines, after_told, beginning};
ghost use Rattle.ct_merge.specs.Texts.{entry_in_text, is_other, log_in, whole_lines};
ghost use Rattle.ct_grammar.specs.Texts.{text_in};

use crate::entering::entry_in;
use crate::entry::{Entry, NoEntry};
use crate::expectation::Expectations;
use crate::log_fault::LogFault;
use crate::log_line::LogLine;
use crate::numbers::Numbers;
use ct_grammar::{Goal, behind, first_feed, text_in};
use ct_names::Member;
use std::alloc::{AllocError, Global};
use std::marker::Model;
use std::mem;

/// The log of a member, as its text says it.
#[derive(Drop)]
pub struct LogText {
    member: Option<Member>,
    numbers: Numbers,
    lines: Vec<LogLine>,
    // Of each of them its number in the text.
    places: Vec<usize>,
    expected: Expectations,
    // How many lines of the text are over.
    count: usize,
}

// Contracts see what was read.
impl Model for LogText {
    ghost use Rattle.std.specs.Prelude.{◌≤◌};
    ghost use Rattle.ct_merge.specs.Texts.{LogSoFar};

    ghost Value = { LogSoFar };

    ghost view = { λ log. record {
      member = log.member;
      numbers = log.numbers;
      lines = log.lines.items;
      places = log.places.items;
      expected = log.expected;
      count = log.count;
    } };

    ghost invariant = { λ log. log.expected.acts ≤ log.count };
}

impl LogText {
    /// The log of which nothing is read yet.
    pub fn new(alloc: Global) -> LogText
        ensures { result ≡ beginning }
    {
        LogText {
            member: None,
            numbers: Numbers::new(),
            lines: Vec::new(alloc),
            places: Vec::new(alloc),
            expected: Expectations::new(alloc),
            count: 0,
        }
    }

    /// Reads the text of a log, which is that of this member where its acts don't say whose it is. What stands behind its last line
    /// feed is torn, and left out.
    #[tactic(auto, unfolding(crate::specs::Texts::log_in))]
    pub fn read(alloc: Global, member: Member, text: &[u8]) -> Result<LogText, LogFault>
        ensures ok { IfOk result (λ log. log_in member text.now ≡ Ok log) }
        ensures fault { IfErr result (IsFaultIn (log_in member text.now)) }
    {
        let mut log = LogText::new(alloc);
        log.read_on(alloc, member, text)?;
        Ok(log)
    }

    /// Reads what comes next of the log, as far as line feeds end its lines. How it stands behind a fault is open.
    #[tactic(auto, using(crate::proofs::Reading::by_line))]
    pub fn read_on(&mut self, alloc: Global, member: Member, text: &[u8]) -> Result<(), LogFault>
        requires { self.old.count + length text.now < 2 ^ 63 }
        ensures ok { OnOk result (after_lines member self.old (whole_lines text.now) ≡ Ok self.new) }
        ensures fault { IfErr result (IsFaultIn (after_lines member self.old (whole_lines text.now))) }
    {
        let mut rest = text;
        while let Some(end) = first_feed(rest) {
            self.take_line(alloc, member, &rest[..end])?;
            rest = behind(rest, end);
        }
        Ok(())
    }

    /// How many lines of the text are over.
    pub fn count(&self) -> usize
        ensures { result ≡ self.now.count }
    {
        self.count
    }

    /// Whose log it is, where its acts say that; the numbers of the group, as far as it gives them; and its lines, each with its number
    /// in the text, from 1. They are let go here: the next time those come that are read from now on.
    pub fn take_parts(
        &mut self,
        alloc: Global,
    ) -> (Option<Member>, Numbers, Vec<LogLine>, Vec<usize>)
        ensures member { result.0 ≡ self.old.member }
        ensures numbers { result.1 ≡ self.old.numbers }
        ensures lines { result.2.items ≡ self.old.lines }
        ensures places { result.3.items ≡ self.old.places }
        ensures rest { self.new ≡ record self.old { lines = []; places = [] } }
    {
        let lines = mem::replace(&mut self.lines, Vec::new(alloc));
        let places = mem::replace(&mut self.places, Vec::new(alloc));
        (self.member, self.numbers, lines, places)
    }

    /// What is expected of its member, which is let go here as those are.
    pub fn take_expected(&mut self, alloc: Global) -> Expectations
        ensures expected { result ≡ self.old.expected }
        ensures rest { self.new ≡ record self.old { expected = record self.old.expected { list = [] } } }
    {
        self.expected.take(alloc)
    }

    // Takes a line.
    #[tactic(auto, unfolding(crate::specs::Texts::after_line))]
    fn take_line(&mut self, alloc: Global, member: Member, bytes: &[u8]) -> Result<(), LogFault>
        requires { self.old.count < 2 ^ 63 }
        ensures ok { OnOk result (after_line member self.old bytes.now ≡ Ok self.new) }
        ensures fault { IfErr result (IsFaultIn (after_line member self.old bytes.now)) }
        ensures count { OnOk result (self.new.count ≡ self.old.count + 1) }
    {
        self.count += 1;
        match entry_in_bytes(alloc, self.member.unwrap_or(member), bytes)? {
            Ok(entry) => self.take_entry(entry),
            Err(why) => Err(LogFault::Line(self.count, why)),
        }
    }

    // Takes what a line says.
    fn take_entry(&mut self, entry: Entry) -> Result<(), LogFault>
        requires { self.old.expected.acts < self.old.count }
        ensures ok { OnOk result (after_entry self.old (Ok entry) ≡ Ok self.new) }
        ensures fault { IfErr result (IsFaultIn (after_entry self.old (Ok entry))) }
        ensures count { self.new.count ≡ self.old.count }
    {
        match entry {
            Entry::Blank => Ok(()),
            Entry::Given(given) => match self.numbers.with(given) {
                Some(numbers) => {
                    self.numbers = numbers;
                    Ok(())
                }
                None => Err(LogFault::Line(self.count, NoEntry::Given(given))),
            },
            Entry::Told(member, line) => self.take_told(member, line),
            Entry::Expected(member, goal) => self.expect(member, goal),
        }
    }

    // Takes what the member did.
    fn take_told(&mut self, member: Member, line: LogLine) -> Result<(), LogFault>
        requires { self.old.expected.acts < self.old.count }
        ensures ok { OnOk result (after_told self.old member line ≡ Ok self.new) }
        ensures fault { IfErr result (IsFaultIn (after_told self.old member line)) }
        ensures count { self.new.count ≡ self.old.count }
    {
        self.claim(member)?;
        self.expected.pass_act();
        if self.lines.push(line).is_err() {
            return Err(LogFault::Memory);
        }
        match self.places.push(self.count) {
            Ok(()) => Ok(()),
            Err(_) => Err(LogFault::Memory),
        }
    }

    // Takes what is expected of the member.
    fn expect(&mut self, member: Member, goal: Goal) -> Result<(), LogFault>
        ensures ok { OnOk result (after_expected self.old member goal ≡ Ok self.new) }
        ensures fault { IfErr result (IsFaultIn (after_expected self.old member goal)) }
        ensures count { self.new.count ≡ self.old.count }
    {
        self.claim(member)?;
        match self.expected.push(self.count, goal) {
            Ok(()) => Ok(()),
            Err(_) => Err(LogFault::Memory),
        }
    }

    // It is the member's log, unless it is another's.
    fn claim(&mut self, member: Member) -> Result<(), LogFault>
        ensures mine { OnOk result (is_other self.old.member member ≡ false) }
        ensures ok { OnOk result (self.new ≡ record self.old { member = Some member }) }
        ensures other { IfErr result (λ fault. fault ≡ LogFault.Line self.old.count (NoEntry.Other member)) }
        ensures theirs { OnErr result (is_other self.old.member member ≡ true) }
        ensures same { OnErr result (self.new ≡ self.old) }
    {
        if self.member.is_some_and(|p| p != member) {
            return Err(LogFault::Line(self.count, NoEntry::Other(member)));
        }
        self.member = Some(member);
        Ok(())
    }
}

// What the line of these bytes says.
fn entry_in_bytes(
    alloc: Global,
    member: Member,
    bytes: &[u8],
) -> Result<Result<Entry, NoEntry>, AllocError>
    ensures { IfOk result (λ entry. entry ≡ entry_in_text member (text_in bytes.now)) }
{
    match text_in(bytes) {
        Some(text) => entry_in(alloc, member, text),
        None => Ok(Err(NoEntry::NoText)),
    }
}
