//! Logs in, their run out.

ghost use Rattle.std.specs.Prelude.{◌≡◌, ◌≢◌, ◌<◌, ◌^◌, Err, IfErr, IfOk, OnOk, codes, false, length, map, true};
ghost use Rattle.ct_world.specs.declared.setup.Setup.{Setup};
ghost use Rattle.ct_streams.specs.Streams.{FailsOnce};
ghost use Rattle.ct_logs.specs.Files.{texts_of};
ghost use Rattle.ct_logs.specs.Groups.{AreLogsIn, AreNoLogs, Logs};
ghost use Rattle.ct_logs.specs.Judging.{IsFaultOf, IsJudged, IsJudgedOf, IsRunOf, logs_in};
ghost use Rattle.ct_logs.specs.Merged.{IsFaultBy, IsFaultIn, IsInputTwice, IsRunBy, IsRunIn, IsTextOfOne, WritesOne, WritesOneInPart};
ghost use Rattle.ct_logs.specs.Sets.{HasTaken, IsSetupOf};
ghost use Rattle.ct_logs.specs.Silence.{IsNoLogs, IsSilent};

use crate::ending::{AcceptedRun, end_of};
use crate::following::followed;
use crate::form::Form;
use crate::judged::{Judged, with_stopped};
use crate::log_set::LogSet;
use crate::merge_fault::MergeFault;
use crate::presumed::presumed_of;
use crate::reading::read_texts;
use crate::told::Told;
use crate::way::Way;
use ct_merge::merge;
use ct_streams::{Failed, Files, Pace, Sink, write_all};
use ct_world::Setup;
use std::alloc::Global;

/// Reads the logs in the files of these names, merges them in this way and writes their run; answers what is told of it.
pub fn merge_logs<F: Files, P: Pace + Drop, W: Sink>(
    alloc: Global,
    files: &F,
    names: &[&str],
    form: Form,
    way: Way<P>,
    writer: &mut W,
) -> Result<Told, MergeFault>
    requires { W.failures writer.old < 2 ^ 63 }
    // What was written is a run in which each member takes the steps of its log, of those that the files have; goes on behind it,
    // where that is presumed; or, where the files are followed, takes the steps of some log.
    ensures ok { OnOk result (WritesOne (IsRunBy (F.bytes files.now) (map (λ name. name.now) names.now) way) form
        (W.written writer.old) (W.written writer.new)) }
    // Where the writer failed, some first bytes of such a text were written; else nothing was.
    ensures part { result ≡ Err MergeFault.Write →
        WritesOneInPart (IsRunBy (F.bytes files.now) (map (λ name. name.now) names.now) way) form
        (W.written writer.old) (W.written writer.new) }
    // Where it is told, files that are not followed have logs of no group or too many bytes, or logs of which no run is a merge, whatever
    // lines they go on with, or which expect what is not so; that are incomplete; or in which a limit is in the way of a line.
    ensures fault { IfErr result (λ fault. fault ≢ MergeFault.Write →
        IsFaultBy (F.bytes files.now) (map (λ name. name.now) names.now) way fault) }
    ensures quiet { IfErr result (λ fault. fault ≢ MergeFault.Write → writer.new ≡ writer.old) }
    ensures writer { FailsOnce result MergeFault.Write (W.failures writer.old) (W.failures writer.new) }
{
    let AcceptedRun { text, told } = match run_of(alloc, files, names, form, way) {
        Ok(run) => run,
        Err(fault) => return Err(fault),
    };
    match write_all(writer, &text) {
        Ok(()) => Ok(told),
        Err(Failed) => Err(MergeFault::Write),
    }
}

// What is written and told of the logs.
fn run_of<F: Files, P: Pace + Drop>(
    alloc: Global,
    files: &F,
    names: &[&str],
    form: Form,
    way: Way<P>,
) -> Result<AcceptedRun, MergeFault>
    ensures ok { IfOk result (λ run. IsTextOfOne (IsRunBy (F.bytes files.now) (map (λ name. name.now) names.now) way) form run.text.items) }
    ensures fault { IfErr result (IsFaultBy (F.bytes files.now) (map (λ name. name.now) names.now) way) }
    ensures unwritten { IfErr result (λ fault. fault ≢ MergeFault.Write) }
{
    if has_input_twice(names) {
        return Err(MergeFault::Twice);
    }
    match way {
        Way::Once => merged(alloc, files, names, form, false),
        Way::Follow(pace) => match followed(alloc, files, names, form, pace) {
            Ok(run) => Ok(run),
            Err(fault) => Err(before_writing(fault)),
        },
        Way::Presume => merged(alloc, files, names, form, true),
    }
}

// The fault, where nothing was written yet.
fn before_writing(fault: MergeFault) -> MergeFault
    ensures { result ≢ MergeFault.Write }
{
    match fault {
        MergeFault::Write => MergeFault::Memory,
        fault => fault,
    }
}

// Whether standard input is named twice.
fn has_input_twice(names: &[&str]) -> bool
    ensures { result ≡ true → IsInputTwice (map (λ name. name.now) names.now) }
{
    let mut is_named = false;
    for name in names {
        if is_input(name) {
            if is_named {
                return true;
            }
            is_named = true;
        }
    }
    false
}

fn is_input(name: &str) -> bool
    ensures { result ≡ true → name.now ≡ codes "-" }
{
    name == "-"
}

// The same of logs that are read as they are; with their ends presumed, where that is asked for.
fn merged<F: Files>(
    alloc: Global,
    files: &F,
    names: &[&str],
    form: Form,
    presumes: bool,
) -> Result<AcceptedRun, MergeFault>
    ensures ok { IfOk result (λ run. IsTextOfOne (IsRunIn (F.bytes files.now) (map (λ name. name.now) names.now) presumes) form
        run.text.items) }
    ensures fault { IfErr result (IsFaultIn (F.bytes files.now) (map (λ name. name.now) names.now) presumes) }
{
    let texts = match read_texts(alloc, files, names) {
        Ok(texts) => texts,
        Err(fault) => return Err(fault),
    };
    match LogSet::read(alloc, names, &texts) {
        Ok(set) => merged_in(alloc, names, texts, set, form, presumes),
        Err(fault) => {
            drop(texts);
            Err(fault)
        }
    }
}

// The same of the logs in the set, which these texts have.
fn merged_in(
    alloc: Global,
    names: &[&str],
    texts: Vec<Vec<u8>>,
    set: LogSet,
    form: Form,
    presumes: bool,
) -> Result<AcceptedRun, MergeFault>
    requires { HasTaken (texts_of texts.items) (length texts.items) set }
    ensures ok { IfOk result (λ run. (logs : Logs) × AreLogsIn (texts_of texts.items) logs
        × IsTextOfOne (IsRunOf presumes logs) form run.text.items) }
    ensures fault { IfErr result (IsFaultOf (AreNoLogs (texts_of texts.items)) (AreLogsIn (texts_of texts.items)) presumes) }
{
    let mut set = set;
    match judged_in(alloc, names, &mut set, presumes) {
        Ok(judged) => end_of(alloc, names, texts, set, judged, form),
        Err(fault) => {
            drop(texts);
            drop(set);
            Err(fault)
        }
    }
}

// What the logs in the set come to.
fn judged_in(
    alloc: Global,
    names: &[&str],
    set: &mut LogSet,
    presumes: bool,
) -> Result<Judged, MergeFault>
    ensures ok { IfOk result (IsJudgedOf presumes set.old set.new.expected) }
    ensures fault { IfErr result (IsNoLogs ((setup : Setup) → IsSetupOf set.old setup → ⊥)) }
{
    let setup = match set.setup(alloc, names) {
        Ok(setup) => setup,
        Err(fault) => return Err(fault),
    };
    set.name_senders(setup.group);
    judged_by(alloc, setup, set, presumes)
}

// What the logs of the group come to; with their ends presumed, where that is asked for.
fn judged_by(
    alloc: Global,
    setup: Setup,
    set: &mut LogSet,
    presumes: bool,
) -> Result<Judged, MergeFault>
    ensures ok { IfOk result (IsJudged presumes (logs_in setup set.old)) }
    ensures expected { set.new.expected ≡ set.old.expected }
    ensures fault { IfErr result IsSilent }
{
    match presumes {
        true => presumed_of(alloc, setup, set),
        false => judged_of(alloc, setup, set),
    }
}

// What the logs of the group come to.
fn judged_of(alloc: Global, setup: Setup, set: &LogSet) -> Result<Judged, MergeFault>
    ensures ok { IfOk result (IsJudged false (logs_in setup set.now)) }
    ensures fault { IfErr result IsSilent }
{
    let same = setup;
    let logs = set.logs(same.group.n());
    let verdict = merge(alloc, setup, logs)?;
    with_stopped(alloc, same, verdict, logs, String::new(alloc))
}
