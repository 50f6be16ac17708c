//! The program of cases/growths.sh, which refuses each of its calls for memory in turn: it does the steps of a record one by one,
//! trying one again that was refused, makes a free run, and tells what is left.
#![tactic(auto)]

ghost use Rattle.std.specs.Prelude.{◌≡◌};
ghost use Rattle.ct_growths.specs.declared.free_run.TheConstants.{PARTS};

mod free_run;
mod one_by_one;

use crate::free_run::{PARTS, free_run};
use crate::one_by_one::do_one_by_one;
use ct_records::{ProgramFault, report};
use ct_rehearse::{Made, RunFault};
use std::alloc::{AllocError, Global};
use std::io;
use std::io::{Read, Write};
use std::marker::Brand;
use std::process::ExitCode;
use std::sync::Wait;
use std::sync::ledger::{Blank, Ledger};
use std::thread::Threads;

fn main(rt: HostRuntime) -> ExitCode {
    match tried::<Brand, HostRuntime>(&rt, &rt, Blank::new(PARTS)) {
        Ok(text) => {
            let status = written(&rt, &text);
            drop(text);
            status
        }
        Err(fault) => {
            let _ = eprintln!(rt; "{fault}");
            ExitCode::from(fault.status())
        }
    }
}

// Writes the text to standard output.
fn written(rt: &HostRuntime, text: &[u8]) -> ExitCode {
    if io::writer(rt).write_all(text).is_ok() {
        ExitCode::SUCCESS
    } else {
        ExitCode::FAILURE
    }
}

// What is printed: the report of the record on standard input, which of its steps was refused for want of memory before it
// was done, and what the turns of a free run came to.
fn tried<L: Ledger + Send + Sync, R: Threads + Wait + Sync>(
    rt: &HostRuntime,
    threads: &R,
    blank: Blank,
) -> Result<Vec<u8>, ProgramFault>
    requires name { blank.name ≡ L.name }
    requires parts { blank.parts ≡ L.parts }
    requires whole { L.parts ≡ PARTS }
{
    let alloc = rt.alloc();
    let record = input(rt)?;
    let mut text = told_one_by_one(alloc, &record)?;
    let made = free_run::<L, R>(threads, alloc, blank)?;
    let told = told_run(alloc, made)?;
    text.extend_from_slice(told.as_bytes())?;
    Ok(text)
}

// What the turns of a free run came to.
fn told_run(alloc: Global, made: Result<Made, RunFault>) -> Result<String, AllocError> {
    match made {
        Ok(made) => format!(in alloc;
            "free run: {} steps, {} refused\n",
            made.steps, made.refused
        ),
        Err(fault) => format!(in alloc; "free run: {fault:?}\n"),
    }
}

// The report of the record, and the last of its steps that was refused for want of memory.
fn told_one_by_one(alloc: Global, record: &[u8]) -> Result<Vec<u8>, ProgramFault> {
    let (world, refused) = do_one_by_one(alloc, record)?;
    let mut text = report(alloc, &world)?;
    let told = format!(in alloc; "refused at step {refused}\n")?;
    text.extend_from_slice(told.as_bytes())?;
    Ok(text)
}

fn input(rt: &HostRuntime) -> Result<Vec<u8>, ProgramFault> {
    let mut bytes = Vec::new(rt.alloc());
    match rt.reader().read_to_end(&mut bytes) {
        Ok(_) => Ok(bytes),
        Err(error) => Err(input_fault(&error)),
    }
}

fn input_fault(error: &io::Error) -> ProgramFault {
    match error.kind() {
        io::ErrorKind::OutOfMemory => ProgramFault::Memory,
        _ => ProgramFault::Reader,
    }
}
