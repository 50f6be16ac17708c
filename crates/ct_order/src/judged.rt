//! Logs, read and judged.

ghost use Rattle.std.specs.Prelude.{◌≡◌, ◌≢◌, ◌≤◌, ℕ, IfErr, IfOk, List, OnOk, length, map};
ghost use Rattle.std.specs.List.{list_all};
ghost use Rattle.ct_order.specs.Reading.{AreTexts, IsHaltIn, IsReadFrom, standings_of};
ghost use Rattle.ct_order.specs.Ending.{AreAtomic, AreNames, AreNoLogs, IsAccepted, IsFault, IsOfNames, IsWrong, LackBroadcast};
ghost use Rattle.ct_order.specs.Ending.{IsOfLogs, UnlessFollowed, input_count, input_in};

use crate::asked::Asked;
use crate::finding::{Finding, json_of, text_of};
use crate::following::{Halt, follow_logs};
use crate::limits::MAX_LOGS;
use crate::no_line::NoLine;
use crate::order_fault::OrderFault;
use crate::others::Others;
use crate::reading::{Judged, LogEnd, read_logs};
use crate::report::{Report, name_of};
use crate::settling::{lacking, overtaking};
use crate::stop::Stop;
use crate::telling::{conflict_report, others_unsent, unread_report, unsent_report};
use crate::wrong::Wrong;
use ct_streams::{FileChange, FileFault, Files, NamedFault, Pace};
use std::alloc::{AllocError, Global};

/// Reads the files of these names as logs, as they are, or as they grow for as long as the pace says: what they say, where they are
/// accepted.
pub fn judged_logs<F: Files, P: Pace + Drop>(
    alloc: Global,
    files: &F,
    names: &[&str],
    asked: Asked,
    pace: Option<P>,
) -> Result<Judged, OrderFault>
    // Their lines are those of one atomic broadcast.
    ensures ok { IfOk result (λ judged. UnlessFollowed pace ((texts : List (List ℕ)) →
        AreTexts (F.bytes files.now) (map (λ name. name.now) names.now) texts → IsAccepted texts judged)) }
    // They are not, or not yet; or more is asked of them, which they do not have.
    ensures fault { IfErr result (λ fault. UnlessFollowed pace ((texts : List (List ℕ)) →
        AreTexts (F.bytes files.now) (map (λ name. name.now) names.now) texts → IsFault texts fault)) }
    // There are no more than 1,024, and standard input is one at most, unless that is the fault.
    ensures within { OnOk result (AreNames (map (λ name. name.now) names.now)) }
    ensures names { IfErr result (IsOfNames (map (λ name. name.now) names.now)) }
    // No writer fails.
    ensures unwritten { result ≢ Err OrderFault.Write }
{
    if names.len() > MAX_LOGS {
        return Err(OrderFault::Logs);
    }
    if input_count(names) > 1 {
        return Err(OrderFault::Twice);
    }
    match pace {
        None => read_judged(alloc, files, names, asked),
        Some(pace) => followed(alloc, files, names, asked, pace),
    }
}

// How often standard input is named.
fn input_count(names: &[&str]) -> usize
    ensures { result ≡ input_count (map (λ name. name.now) names.now) }
{
    let mut count = 0;
    for name in names {
        count += input_in(name);
    }
    count
}

fn input_in(name: &str) -> usize
    ensures value { result ≡ input_in name.now }
    ensures few { result ≤ 1 }
{
    if name == "-" { 1 } else { 0 }
}

// Reads the files as they are.
fn read_judged<F: Files>(
    alloc: Global,
    files: &F,
    names: &[&str],
    asked: Asked,
) -> Result<Judged, OrderFault>
    requires { length names.now ≤ MAX_LOGS }
    ensures ok { IfOk result (λ judged. (texts : List (List ℕ)) →
        AreTexts (F.bytes files.now) (map (λ name. name.now) names.now) texts → IsAccepted texts judged) }
    ensures fault { IfErr result (λ fault. (texts : List (List ℕ)) →
        AreTexts (F.bytes files.now) (map (λ name. name.now) names.now) texts → IsFault texts fault) }
    ensures other { IfErr result IsOfLogs }
{
    let mut others = Others::new(alloc, asked.all);
    match read_logs(alloc, files, names, &mut others) {
        Ok(judged) => {
            drop(others);
            as_asked(alloc, names, asked, judged)
        }
        Err(stop) => {
            let fault = stopped(alloc, names, stop, &others.stops);
            drop(others);
            Err(fault)
        }
    }
}

// Reads the files as they grow.
fn followed<F: Files, P: Pace + Drop>(
    alloc: Global,
    files: &F,
    names: &[&str],
    asked: Asked,
    pace: P,
) -> Result<Judged, OrderFault>
    ensures other { IfErr result IsOfLogs }
{
    let mut pace = pace;
    let read = follow_logs(alloc, files, names, &mut pace);
    drop(pace);
    match read {
        Ok(judged) => as_asked(alloc, names, asked, judged),
        Err(Halt::Stop(stop)) => Err(stopped(alloc, names, stop, &[])),
        Err(Halt::Change(log, change)) => Err(changed(alloc, names, log, change)),
    }
}

// The file of this place is another now.
fn changed(alloc: Global, names: &[&str], log: u32, change: FileChange) -> OrderFault
    ensures { IsOfLogs result }
{
    let name = name_of(names, log);
    let told = change.told();
    match format!(in alloc; "{name}: {told}") {
        Ok(text) => OrderFault::Changed(text),
        Err(_) => OrderFault::Memory,
    }
}

// The logs are not read on, and nor are these.
fn stopped(alloc: Global, names: &[&str], stop: Stop, others: &[Stop]) -> OrderFault
    ensures fault { (texts : List (List ℕ)) → IsHaltIn texts stop → IsFault texts result }
    ensures other { IsOfLogs result }
{
    match stop {
        Stop::Line(unread) => {
            let which = unread_wrong(unread.why);
            let report = unread_report(alloc, &unread);
            drop(unread);
            stopped_by(alloc, names, which, report, others)
        }
        Stop::Clash(conflict) => {
            let report = conflict_report(alloc, names, &conflict);
            drop(conflict);
            stopped_by(alloc, names, Wrong::Refused, report, others)
        }
        Stop::File(log, fault) => unread(alloc, names, log, fault),
        Stop::Memory => OrderFault::Memory,
    }
}

// What is wrong with a line that stands in no log.
fn unread_wrong(why: NoLine) -> Wrong
    ensures { (texts : List (List ℕ)) → AreNoLogs texts → (AreAtomic texts → ⊥) → IsWrong texts result }
{
    match why {
        NoLine::Many | NoLine::Full => Wrong::Limit,
        _ => Wrong::NoLog,
    }
}

// This is wrong with a line, and what these lines have is told behind it.
fn stopped_by(
    alloc: Global,
    names: &[&str],
    wrong: Wrong,
    report: Result<Report, AllocError>,
    others: &[Stop],
) -> OrderFault
    ensures fault { (texts : List (List ℕ)) → IsWrong texts wrong → IsFault texts result }
    ensures other { IsOfLogs result }
{
    found(
        alloc,
        names,
        wrong,
        report,
        findings_of(alloc, names, others),
    )
}

// What is told of logs that stop so.
fn findings_of(alloc: Global, names: &[&str], stops: &[Stop]) -> Result<Vec<Finding>, AllocError> {
    let mut findings = Vec::new(alloc);
    for stop in stops {
        match stop {
            Stop::Line(unread) => {
                let report = unread_report(alloc, unread)?;
                let wrong = unread_wrong(unread.why);
                findings.push(Finding { wrong, report })?;
            }
            Stop::Clash(conflict) => {
                let report = conflict_report(alloc, names, conflict)?;
                let wrong = Wrong::Refused;
                findings.push(Finding { wrong, report })?;
            }
            _ => {}
        }
    }
    Ok(findings)
}

// The file of this place is not read.
fn unread(alloc: Global, names: &[&str], log: u32, fault: FileFault) -> OrderFault
    ensures fault { (texts : List (List ℕ)) → IsFault texts result }
    ensures other { IsOfLogs result }
{
    let named = NamedFault {
        name: name_of(names, log),
        fault,
    };
    match format!(in alloc; "{named}") {
        Ok(text) => OrderFault::File { fault, text },
        Err(_) => OrderFault::Memory,
    }
}

// The logs, where they have all that is asked of them.
fn as_asked(
    alloc: Global,
    names: &[&str],
    asked: Asked,
    judged: Judged,
) -> Result<Judged, OrderFault>
    ensures ok { IfOk result (λ all. (texts : List (List ℕ)) →
        IsReadFrom texts (standings_of judged.ends.items) judged.table → IsAccepted texts all) }
    ensures fault { IfErr result (λ fault. (texts : List (List ℕ)) →
        IsReadFrom texts (standings_of judged.ends.items) judged.table → IsFault texts fault) }
    ensures other { IfErr result IsOfLogs }
{
    match check(alloc, names, asked, &judged) {
        Ok(()) => Ok(judged),
        Err(fault) => {
            drop(judged);
            Err(fault)
        }
    }
}

// Whether all is broadcast, and the logs have what is asked of them besides.
fn check(alloc: Global, names: &[&str], asked: Asked, judged: &Judged) -> Result<(), OrderFault>
    ensures ok { OnOk result ((texts : List (List ℕ)) →
        IsReadFrom texts (standings_of judged.now.ends.items) judged.now.table → AreAtomic texts) }
    ensures fault { IfErr result (λ fault. (texts : List (List ℕ)) →
        IsReadFrom texts (standings_of judged.now.ends.items) judged.now.table → IsFault texts fault) }
    ensures other { IfErr result IsOfLogs }
{
    match judged.table.unsent() {
        None => check_asked(alloc, names, asked, judged),
        Some(delivery) => {
            let which = lack(are_whole(&judged.ends));
            let report = unsent_report(alloc, names, judged, delivery);
            let others = others_unsent(alloc, names, asked.all, which, judged, delivery);
            Err(found(alloc, names, which, report, others))
        }
    }
}

// What is wrong where no log broadcasts a message, and all are whole or not.
fn lack(is_whole: bool) -> Wrong
    ensures { (texts : List (List ℕ)) → LackBroadcast texts is_whole → (AreAtomic texts → ⊥) → IsWrong texts result }
{
    if is_whole {
        Wrong::Refused
    } else {
        Wrong::Incomplete
    }
}

// Whether each log says that it is whole.
fn are_whole(ends: &[LogEnd]) -> bool
    ensures { result ≡ list_all (λ end. end.standing.is_whole) ends.now }
{
    ends.iter().all(|end| end.standing.is_whole)
}

// Whether logs that are those of one atomic broadcast have what is asked of them besides.
fn check_asked(
    alloc: Global,
    names: &[&str],
    asked: Asked,
    judged: &Judged,
) -> Result<(), OrderFault>
    ensures fault { IfErr result (λ fault. (texts : List (List ℕ)) → AreAtomic texts → IsFault texts fault) }
    ensures other { IfErr result IsOfLogs }
{
    let Ok(findings) = asked_findings(alloc, names, asked, judged) else {
        return Err(OrderFault::Memory);
    };
    let fault = asked_fault(alloc, names, &findings);
    drop(findings);
    fault
}

// What logs lack of what is asked of them besides.
fn asked_findings(
    alloc: Global,
    names: &[&str],
    asked: Asked,
    judged: &Judged,
) -> Result<Vec<Finding>, AllocError> {
    let mut findings = Vec::new(alloc);
    if asked.fifo {
        overtaking(alloc, names, judged, asked.all, &mut findings)?;
    }
    if asked.settled && (asked.all || findings.is_empty()) {
        lacking(alloc, names, judged, asked.all, &mut findings)?;
    }
    Ok(findings)
}

// The fault of logs that lack something that is asked of them besides, where they do.
fn asked_fault(alloc: Global, names: &[&str], findings: &[Finding]) -> Result<(), OrderFault>
    ensures fault { IfErr result (λ fault. (texts : List (List ℕ)) → AreAtomic texts → IsFault texts fault) }
    ensures other { IfErr result IsOfLogs }
{
    match findings {
        [] => Ok(()),
        [first, others @ ..] => {
            let wrong = asked_wrong(first.wrong);
            Err(fault_of(alloc, names, wrong, &first.report, others))
        }
    }
}

// What is wrong with logs that lack something that is asked of them besides.
fn asked_wrong(wrong: Wrong) -> Wrong
    ensures { (texts : List (List ℕ)) → AreAtomic texts → IsWrong texts result }
{
    match wrong {
        Wrong::Overtaken => Wrong::Overtaken,
        _ => Wrong::Unsettled,
    }
}

// The fault of a line, and of these others.
fn found(
    alloc: Global,
    names: &[&str],
    wrong: Wrong,
    report: Result<Report, AllocError>,
    others: Result<Vec<Finding>, AllocError>,
) -> OrderFault
    ensures fault { (texts : List (List ℕ)) → IsWrong texts wrong → IsFault texts result }
    ensures other { IsOfLogs result }
{
    match (report, others) {
        (Ok(report), Ok(others)) => {
            let fault = fault_of(alloc, names, wrong, &report, &others);
            drop(others);
            drop(report);
            fault
        }
        _ => OrderFault::Memory,
    }
}

// What is told of a line that is wrong so, and of these others.
fn fault_of(
    alloc: Global,
    names: &[&str],
    wrong: Wrong,
    report: &Report,
    others: &[Finding],
) -> OrderFault
    ensures fault { (texts : List (List ℕ)) → IsWrong texts wrong → IsFault texts result }
    ensures other { IsOfLogs result }
{
    let Ok(text) = text_of(alloc, names, wrong, report, others) else {
        return OrderFault::Memory;
    };
    let Ok(json) = json_of(alloc, names, wrong, report, others) else {
        return OrderFault::Memory;
    };
    OrderFault::Wrong { wrong, text, json }
}
