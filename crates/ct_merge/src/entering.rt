//! From the text of a line to what a log says.

ghost use Rattle.std.specs.Prelude.{◌≡◌, IfOk, option_map, string_bytes};
ghost use Rattle.ct_grammar.specs.Lines.{line_of};
ghost use Rattle.ct_merge.specs.Entries.{act_in_log, entry_of, fact_behind, gives_number, is_numbered, names_whom, numbered};
ghost use Rattle.ct_merge.specs.Entries.{numbered_entry, entry_in, received, told};
ghost use Rattle.ct_merge.specs.Proposers.{is_proposal, pick_lacks_sender, act_lacks_sender, without_sender};

use crate::entry::{Entry, NoEntry};
use crate::expecting::expected;
use crate::full_name::FullName;
use crate::log_act::LogAct;
use crate::log_line::LogLine;
use ct_grammar::{Act, Carried, Line, Misfit, Pick, Play, Statement, Who, line_of, text_in};
use ct_names::Member;
use std::alloc::{AllocError, Global};

// What stands before an expectation.
const EXPECT: &[u8] = b"expect ";

/// What the line says as one of a schedule, in the log of this member where it names none.
#[tactic(auto, unfolding(crate::specs::Entries::entry_in))]
pub(crate) fn entry_in(
    alloc: Global,
    member: Member,
    text: &str,
) -> Result<Result<Entry, NoEntry>, AllocError>
    ensures { IfOk result (λ entry. entry ≡ entry_in member text.now) }
{
    let line = line_of(alloc, text)?;
    if is_numbered(text.as_bytes()) || (gives_number(text.as_bytes()) || names_whom(text)) {
        return Ok(entry_of(line));
    }
    match line {
        Ok(line) => Ok(entry_of(Ok(line))),
        Err(_) => numbered_entry(alloc, member, text),
    }
}

// What the line says with the number of the member: before it, or behind the word that expects something.
#[tactic(auto, unfolding(crate::specs::Entries::numbered_entry, crate::specs::Entries::numbered))]
fn numbered_entry(
    alloc: Global,
    member: Member,
    text: &str,
) -> Result<Result<Entry, NoEntry>, AllocError>
    ensures { IfOk result (λ entry. entry ≡ numbered_entry member text.now) }
{
    let numbered = numbered(alloc, member, text)?;
    Ok(entry_of(line_of(alloc, numbered.as_str())?))
}

#[tactic(auto, unfolding(crate::specs::Entries::numbered))]
fn numbered(alloc: Global, member: Member, text: &str) -> Result<String, AllocError>
    ensures { IfOk result (λ line. string_bytes line ≡ numbered member text.now) }
{
    let mut line = String::new(alloc);
    match fact_behind(text) {
        None => write!(line, "{member} {text}")?,
        Some(fact) => write!(line, "expect {member} {fact}")?,
    }
    Ok(line)
}

// What stands behind the word of an expectation, if that stands first.
#[tactic(auto, unfolding(crate::specs::Entries::fact_behind))]
fn fact_behind(text: &str) -> Option<&str>
    ensures { option_map (λ fact. fact.now) result ≡ fact_behind text.now }
{
    let text = text.as_bytes();
    if text.starts_with(EXPECT) {
        text_in(&text[EXPECT.len()..])
    } else {
        None
    }
}

// Whether a digit stands first.
fn is_numbered(text: &[u8]) -> bool
    ensures { result ≡ is_numbered text.now }
{
    match text {
        [first, ..] => first.is_ascii_digit(),
        [] => false,
    }
}

// Whether the word of a number of the group stands first.
fn gives_number(text: &[u8]) -> bool
    ensures { result ≡ gives_number text.now }
{
    text.starts_with(b"members") || text.starts_with(b"cells") || text.starts_with(b"batch")
}

// Whether something is expected of members that a digit begins.
fn names_whom(text: &str) -> bool
    ensures { result ≡ names_whom text.now }
{
    match fact_behind(text) {
        None => false,
        Some(fact) => is_numbered(fact.as_bytes()),
    }
}

// What a log has of the line.
fn entry_of(line: Result<Line, Misfit>) -> Result<Entry, NoEntry>
    ensures { result ≡ entry_of line }
{
    match line {
        Err(misfit) => Err(NoEntry::NoLine(misfit)),
        Ok(Line::Blank) => Ok(Entry::Blank),
        Ok(Line::Given(given)) => Ok(Entry::Given(given)),
        Ok(Line::Play(Play::Act(Who::One(member), act))) => told(member, act, None),
        Ok(Line::Play(Play::Stated(Who::One(member), act, said))) => told(member, act, Some(said)),
        Ok(Line::Play(Play::Expect(goal))) => expected(goal),
        Ok(Line::Play(_)) => Err(NoEntry::NoAct),
    }
}

// What the member did, and what that came to, where it is stated.
fn told(member: Member, act: Act, said: Option<Statement>) -> Result<Entry, NoEntry>
    ensures { result ≡ told member act said }
{
    let same = act;
    let lacks_sender = act_lacks_sender(same);
    match act_in_log(act) {
        Ok(act) => Ok(Entry::Told(
            member,
            LogLine {
                act,
                said,
                lacks_sender,
            },
        )),
        Err(why) => Err(why),
    }
}

// The act, as logs have it.
fn act_in_log(act: Act) -> Result<LogAct, NoEntry>
    ensures { result ≡ act_in_log act }
{
    match act {
        Act::Submit(command) => Ok(LogAct::Submit(command)),
        Act::Receive(pick) => received(pick),
        Act::Begin => Ok(LogAct::Begin),
        Act::Enter => Ok(LogAct::Enter),
        Act::Choose(from) => Ok(LogAct::Choose(from)),
        Act::Adopt => Ok(LogAct::Adopt),
        Act::Suspect => Ok(LogAct::Suspect),
        Act::Conclude => Ok(LogAct::Conclude),
        Act::Deliver => Ok(LogAct::Deliver),
        Act::Follow => Ok(LogAct::Follow),
        Act::Crash => Ok(LogAct::Crash),
        Act::Postpone(_) | Act::Lose(_) | Act::Repeat(_) | Act::LoseFrom(_) => {
            Err(NoEntry::Network)
        }
    }
}

// A receipt, as logs have it.
fn received(pick: Pick) -> Result<LogAct, NoEntry>
    ensures { result ≡ received pick }
{
    match pick {
        Pick::Serial(_) => Err(NoEntry::Serial),
        Pick::First(carried, None) => without_sender(carried),
        Pick::First(carried, Some(from)) => Ok(LogAct::Receive(FullName { carried, from })),
    }
}

// A receipt without a sender: of a proposal, which stands there as no member's until the group is known.
fn without_sender(carried: Carried) -> Result<LogAct, NoEntry>
    ensures { result ≡ without_sender carried }
{
    match carried {
        Carried::Prop(..) => Ok(LogAct::Receive(FullName { carried, from: 0 })),
        _ => Err(NoEntry::NoSender),
    }
}

// Whether the act receives a proposal that is named without its sender.
fn act_lacks_sender(act: Act) -> bool
    ensures { result ≡ act_lacks_sender act }
{
    match act {
        Act::Receive(pick) => pick_lacks_sender(pick),
        _ => false,
    }
}

fn pick_lacks_sender(pick: Pick) -> bool
    ensures { result ≡ pick_lacks_sender pick }
{
    match pick {
        Pick::First(carried, None) => is_proposal(carried),
        _ => false,
    }
}

fn is_proposal(carried: Carried) -> bool
    ensures { result ≡ is_proposal carried }
{
    matches!(carried, Carried::Prop(..))
}
