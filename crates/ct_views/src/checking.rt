//! Which of several files have records with a fault.

ghost use Rattle.std.specs.Prelude.{◌≡◌, ◌⊎◌, ◌<◌, ◌^◌, map, OnOk, OnErr, IfOk, IfErr, IfSome, string_bytes};
ghost use Rattle.std.specs.Str.{bytes_eq};
ghost use Rattle.ct_text.specs.Adds.{Adds};
ghost use Rattle.ct_records.specs.Replay.{IsReportOf};
ghost use Rattle.ct_streams.specs.Streams.{FailsOnce};
ghost use Rattle.ct_views.specs.Checking.{Checks, ChecksOne, ChecksOnePart, ChecksPart, IsBeside, IsChecked};
ghost use Rattle.ct_views.specs.Checking.{checked_text, line_of, report_name, told, IsFaultOf};

use crate::check_options::CheckOptions;
use crate::checked::Checked;
use ct_records::{ProgramFault, report};
use ct_streams::{Failed, FileFault, Files, InputFault, Sink, Source, read_all, write_all};
use ct_told::{ShowFault, read_told};
use ct_world::World;
use std::alloc::{AllocError, Global};

/// Replays the record of each of these files and writes a line for each that has a fault or, where reports are expected, has
/// another one than the file beside it; answers the largest of their statuses. A fault of the record comes before any of its
/// report. What the contract says of the files holds where their bytes are known, and what it says of the output where the
/// writer tells its bytes.
pub fn check<F: Files, W: Sink>(
    alloc: Global,
    files: &F,
    names: &[&str],
    options: &CheckOptions,
    writer: &mut W,
) -> Result<u8, ProgramFault>
    requires { W.failures writer.old < 2 ^ 63 }
    // Each file has its outcome; what was written are their lines in order, or nothing where that is asked for.
    ensures ok { IfOk result (λ status. Checks (F.bytes files.now) options.now (map (λ name. name.now) names.now)
        (W.written writer.old) (W.written writer.new) status) }
    // Else some first files were checked, and some first bytes of their lines were written.
    ensures part { OnErr result (ChecksPart (F.bytes files.now) options.now (map (λ name. name.now) names.now)
        (W.written writer.old) (W.written writer.new)) }
    ensures fault { IfErr result (λ fault. (fault ≡ ProgramFault.Memory) ⊎ (fault ≡ ProgramFault.Write)) }
    ensures writer { FailsOnce result ProgramFault.Write (W.failures writer.old) (W.failures writer.new) }
{
    let mut worst: u8 = 0;
    for name in names {
        let status = check_one(alloc, files, name, options, writer)?;
        worst = worst.max(status);
    }
    Ok(worst)
}

// Checks the file of this name, writes its line, if it has one, and answers its status.
fn check_one<F: Files, W: Sink>(
    alloc: Global,
    files: &F,
    name: &str,
    options: &CheckOptions,
    writer: &mut W,
) -> Result<u8, ProgramFault>
    requires { W.failures writer.old < 2 ^ 63 }
    ensures ok { IfOk result (λ status. ChecksOne (F.bytes files.now) options.now name.now
        (W.written writer.old) (W.written writer.new) status) }
    ensures part { OnErr result (ChecksOnePart (F.bytes files.now) options.now name.now
        (W.written writer.old) (W.written writer.new)) }
    ensures fault { IfErr result (λ fault. (fault ≡ ProgramFault.Memory) ⊎ (fault ≡ ProgramFault.Write)) }
    ensures writer { FailsOnce result ProgramFault.Write (W.failures writer.old) (W.failures writer.new) }
    ensures same { OnOk result (W.failures writer.new ≡ W.failures writer.old) }
{
    let checked = checked(alloc, files, name, options.expects);
    let line = line(alloc, options.quiet, name, &checked)?;
    match write_all(writer, line.as_bytes()) {
        Ok(()) => Ok(checked.status()),
        Err(Failed) => Err(ProgramFault::Write),
    }
}

// What checking the file of this name comes to.
fn checked<F: Files>(alloc: Global, files: &F, name: &str, expects: bool) -> Checked
    ensures { IsChecked (F.bytes files.now) expects name.now result }
{
    match files.open(name) {
        Ok(reader) => match replayed(alloc, reader) {
            Err(fault) => Checked::Fault(fault),
            Ok(report) if expects => compared(alloc, files, name, &report),
            Ok(_) => Checked::Good,
        },
        Err(fault) => Checked::NoFile(fault),
    }
}

// The report of the record that the reader has.
fn replayed<R: Source + Drop>(alloc: Global, reader: R) -> Result<Vec<u8>, ShowFault>
    requires { R.failures reader < 2 ^ 63 }
    ensures ok { IfOk result (λ report. IfSome (R.left reader) (λ input. IsReportOf input report.items)) }
    ensures fault { IfErr result (λ fault. IfSome (R.left reader) (IsFaultOf fault)) }
{
    let mut reader = reader;
    let script = read_told(alloc, &mut reader)?;
    let (world, _board) = World::replay(
        alloc,
        script.group,
        script.cells,
        script.batch,
        &script.steps,
    )?;
    Ok(report(alloc, &world)?)
}

// What comparing the report with the one beside the file comes to.
fn compared<F: Files>(alloc: Global, files: &F, name: &str, report: &[u8]) -> Checked
    ensures { IsBeside (F.bytes files.now (report_name name.now)) report.now result }
{
    let Ok(beside) = report_name(alloc, name) else {
        return Checked::Fault(ShowFault::Program(ProgramFault::Memory));
    };
    let mut reader = match files.open(&beside) {
        Ok(reader) => reader,
        Err(fault) => return Checked::NoReport(fault),
    };
    match read_all(alloc, &mut reader) {
        Ok(expected) if is_same(report, &expected) => Checked::Good,
        Ok(_) => Checked::OtherReport,
        Err(InputFault::Memory) => Checked::Fault(ShowFault::Program(ProgramFault::Memory)),
        Err(_) => Checked::NoReport(FileFault::Read),
    }
}

fn is_same(report: &[u8], expected: &[u8]) -> bool
    ensures { result ≡ bytes_eq report.now expected.now }
{
    report == expected
}

// The name of the report beside the record of this name.
#[tactic(auto, unfolding(crate::specs::Checking::report_name))]
fn report_name(alloc: Global, name: &str) -> Result<String, AllocError>
    ensures { IfOk result (λ text. string_bytes text ≡ report_name name.now) }
{
    match name.strip_suffix(".json") {
        Some(stem) => format!(in alloc; "{stem}.report"),
        None => format!(in alloc; "{name}.report"),
    }
}

// What is written of the file.
fn line(alloc: Global, quiet: bool, name: &str, checked: &Checked) -> Result<String, AllocError>
    ensures { IfOk result (λ text. string_bytes text ≡ line_of quiet name.now checked.now) }
{
    let mut text = String::new(alloc);
    if !quiet {
        push_checked(alloc, &mut text, name, checked)?;
    }
    Ok(text)
}

fn push_checked(
    alloc: Global,
    text: &mut String,
    name: &str,
    checked: &Checked,
) -> Result<(), AllocError>
    ensures { OnOk result (Adds text.old text.new (checked_text name.now checked.now)) }
{
    match checked {
        Checked::Good => Ok(()),
        Checked::OtherReport => push_told(text, name, "another report"),
        Checked::NoReport(fault) => {
            let line = format!(in alloc; "{fault}")?;
            push_told(text, &report_name(alloc, name)?, &line)
        }
        Checked::NoFile(fault) => push_told(text, name, &format!(in alloc; "{fault}")?),
        Checked::Fault(fault) => push_told(text, name, &format!(in alloc; "{fault}")?),
    }
}

// The line that tells this of the file of this name.
fn push_told(text: &mut String, name: &str, what: &str) -> Result<(), AllocError>
    ensures { OnOk result (Adds text.old text.new (told name.now what.now)) }
{
    text.push_str(name)?;
    text.push_str(": ")?;
    text.push_str(what)?;
    text.push_str("\n")
}
