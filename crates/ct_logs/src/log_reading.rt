//! From texts to logs.

ghost use Rattle.std.specs.Prelude.{◌≡◌, IfErr, IfOk, OnOk, Ok, true, false};
ghost use Rattle.ct_merge.specs.Texts.{IsFaultIn, LogSoFar};
ghost use Rattle.ct_logs.specs.Owners.{is_record, log_for, or_other};
ghost use Rattle.ct_logs.specs.Silence.{IsNoLogs, IsOfLogFault};

use crate::merge_fault::MergeFault;
use crate::naming::{line_at, push_line};
use crate::no_entry::push_no_entry;
use ct_merge::{LogFault, LogText, NoEntry};
use ct_names::Member;
use std::alloc::{AllocError, Global};

// The log of the text: the member's by its place, or that of the member whom a line of it names.
pub(crate) fn read_log(
    alloc: Global,
    name: &str,
    member: Member,
    text: &[u8],
) -> Result<LogText, MergeFault>
    ensures log { OnOk result (is_record text.now ≡ false) }
    ensures ok { IfOk result (λ log. log_for member text.now ≡ Ok log) }
    ensures fault { IfErr result (IsNoLogs (is_record text.now ≡ false → (log : LogSoFar) → log_for member text.now ≡ Ok log → ⊥)) }
{
    refuse_record(alloc, name, text)?;
    match read_for(alloc, member, text) {
        Ok(log) => Ok(log),
        Err(fault) => Err(fault_of(alloc, name, text, fault)),
    }
}

// A record is no log.
pub(crate) fn refuse_record(alloc: Global, name: &str, text: &[u8]) -> Result<(), MergeFault>
    ensures ok { OnOk result (is_record text.now ≡ false) }
    ensures fault { IfErr result (IsNoLogs (is_record text.now ≡ true)) }
{
    if is_record(text) {
        let told = format!(in alloc; "{name}: this is a record, not the log of a member")?;
        return Err(MergeFault::NoLogs(told));
    }
    Ok(())
}

fn is_record(text: &[u8]) -> bool
    ensures { result ≡ is_record text.now }
{
    match text {
        [first, ..] => *first == b'{',
        [] => false,
    }
}

// The text as the member's log, or as that of the member whom a line of it names in this one's.
#[tactic(auto, unfolding(crate::specs::Owners::log_for))]
fn read_for(alloc: Global, member: Member, text: &[u8]) -> Result<LogText, LogFault>
    ensures ok { IfOk result (λ log. log_for member text.now ≡ Ok log) }
    ensures fault { IfErr result (IsFaultIn (log_for member text.now)) }
{
    match LogText::read(alloc, member, text) {
        Ok(log) => Ok(log),
        Err(LogFault::Memory) => Err(LogFault::Memory),
        Err(LogFault::Line(at, why)) => read_other(alloc, text, at, why),
    }
}

// The text as the log of the member whose line this is, which stands in the log of another; else the fault of the line.
fn read_other(alloc: Global, text: &[u8], at: usize, why: NoEntry) -> Result<LogText, LogFault>
    ensures ok { IfOk result (λ log. or_other text.now (record { at = at; why = why }) why ≡ Ok log) }
    ensures fault { IfErr result (IsFaultIn (or_other text.now (record { at = at; why = why }) why)) }
{
    match why {
        NoEntry::Other(owner) => LogText::read(alloc, owner, text),
        why => Err(LogFault::Line(at, why)),
    }
}

// What is told of a text that is no log.
pub(crate) fn fault_of(alloc: Global, name: &str, text: &[u8], fault: LogFault) -> MergeFault
    ensures { IsOfLogFault fault result }
{
    match fault {
        LogFault::Line(at, why) => match unread(alloc, name, at, line_at(text, at), &why) {
            Ok(told) => MergeFault::NoLogs(told),
            Err(_) => MergeFault::Memory,
        },
        LogFault::Memory => MergeFault::Memory,
    }
}

// What is told of a line that does not stand in a log.
fn unread(
    alloc: Global,
    name: &str,
    at: usize,
    line: &[u8],
    why: &NoEntry,
) -> Result<String, AllocError> {
    let mut text = String::new(alloc);
    push_line(&mut text, name, at, line)?;
    push_no_entry(&mut text, why)?;
    Ok(text)
}
