//! The program `ct`: it replays a record and reports where it leads on standard output, or runs a group freely and writes the
//! record of the run.
#![tactic(auto)]

mod front;
mod opening;

ghost use Rattle.std.specs.Prelude.{◌≡◌, ◌<◌, ◌^◌, Err, OnOk, IfOk, IfErr};
ghost use Rattle.ct_program.specs.FreeOptions.{FreeInRange, InRange};
ghost use Rattle.ct_program.specs.FreeRun.{IsFreeFault, WritesRun, WritesRunPart};

use ct_detect::Detector;
use ct_program::{
    Asked, Call, CommandFault, FreeOptions, LineFault, answer_status, free, line, seeded,
};
use ct_records::{ProgramFault, ReadFault, run_replay};
use ct_streams::{Counted, Fault, FileFault, NamedFault, Sink, Status};
use ct_told::{NoRecord, begins_schedule};
use front::Front;
use opening::open;
use std::alloc::{AllocError, Global};
use std::fmt::Display;
use std::io;
use std::process::ExitCode;
use std::sync::Wait;
use std::thread::Threads;

fn main(rt: HostRuntime) -> ExitCode {
    let words = match words(&rt) {
        Ok(words) => words,
        Err(fault) => return fail(&rt, fault, fault.status()),
    };
    let texts = match texts(rt.alloc(), &words) {
        Ok(texts) => texts,
        Err(fault) => return fail(&rt, fault, fault.status()),
    };
    match asked(&rt, texts.as_slice()) {
        Ok(
            Asked {
                call: Call::Replay,
                file,
            },
        ) => replay(&rt, file),
        // Only `main` may hand the runtime on as one that starts threads.
        Ok(
            Asked {
                call: Call::Free(options),
                ..
            },
        ) => run_freely(&rt, &rt, &options),
        Err(status) => status,
    }
}

// What the command line asks for, or the status where that was answered.
fn asked<'a>(rt: &HostRuntime, words: &'a [&'a str]) -> Result<Asked<'a>, ExitCode>
    ensures { IfOk result (λ asked. FreeInRange asked.call) }
{
    match line(rt.alloc(), words) {
        Ok(asked) => Ok(asked),
        Err(fault) => Err(refuse(rt, &fault)),
    }
}

// The words of the command line, the program's name first.
fn words(rt: &HostRuntime) -> Result<Vec<String>, CommandFault> {
    let args = std::env::args(rt)?;
    Ok(args.collect(rt.alloc())?)
}

fn texts<'a>(alloc: Global, words: &'a [String]) -> Result<Vec<&'a str>, CommandFault> {
    let mut texts = Vec::new(alloc);
    for word in words {
        texts.push(word.as_str())?;
    }
    Ok(texts)
}

fn replay(rt: &HostRuntime, name: &str) -> ExitCode {
    let mut reader = match open(rt, name) {
        Ok(reader) => Front::new(rt.alloc(), reader),
        Err(fault) => return unread(rt, name, fault),
    };
    let mut writer = Counted::new(io::writer(rt));
    match run_replay(rt.alloc(), &mut reader, &mut writer) {
        Ok(()) => ExitCode::SUCCESS,
        Err(ProgramFault::Reader) => unread(rt, name, FileFault::Read),
        Err(fault) => match told(rt.alloc(), &reader, fault) {
            Ok(Some(told)) => fail(rt, told, fault.status()),
            Ok(None) => fail(rt, fault, fault.status()),
            Err(_) => fail(rt, ProgramFault::Memory, ProgramFault::Memory.status()),
        },
    }
}

// Tells why the file is not read.
fn unread(rt: &HostRuntime, name: &str, fault: FileFault) -> ExitCode {
    let fault = NamedFault { name, fault };
    fail(rt, fault, fault.status())
}

// What `ct_tool` tells of an input that is no record, where all of it is there, or it begins as a schedule does.
fn told<R>(
    alloc: Global,
    input: &Front<R>,
    fault: ProgramFault,
) -> Result<Option<NoRecord>, AllocError> {
    match fault {
        ProgramFault::Read(fault) if !input.is_cut() || is_schedule(input.bytes(), fault) => {
            Ok(Some(NoRecord::of(alloc, fault, input.bytes())?))
        }
        _ => Ok(None),
    }
}

fn is_schedule(bytes: &[u8], fault: ReadFault) -> bool {
    fault == ReadFault::NotJson && begins_schedule(bytes)
}

fn run_freely<T: Threads + Wait + Sync>(
    rt: &HostRuntime,
    threads: &T,
    options: &FreeOptions,
) -> ExitCode
    requires { InRange options.now }
{
    let mut writer = Counted::new(io::writer(rt));
    match run(threads, rt.alloc(), options, &mut writer) {
        Ok(()) => ExitCode::SUCCESS,
        Err(fault) => fail(rt, fault, fault.status()),
    }
}

// A free run, in which each member has its detector of `seeded`.
fn run<T: Threads + Wait + Sync, W: Sink>(
    threads: &T,
    alloc: Global,
    options: &FreeOptions,
    writer: &mut W,
) -> Result<(), ProgramFault>
    requires range { InRange options.now }
    requires writes { W.failures writer.old < 2 ^ 63 }
    ensures ok { OnOk result (WritesRun options.now (W.written writer.old) (W.written writer.new)) }
    ensures fault { IfErr result IsFreeFault }
    ensures part { result ≡ Err ProgramFault.Write →
        WritesRunPart options.now (W.written writer.old) (W.written writer.new) }
{
    let mut detectors: Vec<Box<dyn Detector>> = Vec::new(alloc);
    for detector in seeded(alloc, options)? {
        detectors.push(Box::new(alloc, detector)?)?;
    }
    free(threads, alloc, options, detectors, writer)
}

// Tells why the words are refused, or prints the help or the version that they ask for.
fn refuse(rt: &HostRuntime, fault: &LineFault) -> ExitCode {
    let answer = match fault {
        LineFault::Clap(error) => answer_status(error.use_stderr(), error.print(rt).is_ok()),
        LineFault::Range(line) => return fail(rt, line.as_str(), Status::Words.code()),
        LineFault::Memory => Err(CommandFault::Memory),
    };
    match answer {
        Ok(status) => ExitCode::from(status),
        Err(fault) => fail(rt, fault, fault.status()),
    }
}

// Prints the fault's line. Where standard error fails too, the status alone tells of the fault.
fn fail<D: Display + Drop>(rt: &HostRuntime, fault: D, status: u8) -> ExitCode {
    let _ = eprintln!(rt; "{fault}");
    ExitCode::from(status)
}
