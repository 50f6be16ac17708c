//! The program `ct_tool`: it makes runs that can be made again, and shows runs. Each of its subcommands is a library's.
#![tactic(auto)]

mod clockwork;
mod ending;
mod file_identity;
mod host;
mod meter;
mod named_file;
mod searching;
mod sessions;
mod showing;
mod terminal;
mod told_files;
mod trials;

use clap::{ArgMatches, Command};
use ct_complete::complete_command;
use ct_diagram::diagram_command;
use ct_find::find_command;
use ct_judge::{interact_command, record_command};
use ct_listing::schedule_command;
use ct_logs::merge_command;
use ct_order::order_command;
use ct_program::{CommandFault, answer_status};
use ct_shrink::shrink_command;
use ct_streams::Counted;
use ct_views::{
    CheckOptions, View, check, check_command, report_command, state_command, state_view,
    steps_command, steps_view,
};
use ct_walk::walk_command;
use ending::close;
use host::Host;
use searching::{find, walk};
use sessions::{hold_session, merge, order};
use showing::{complete, diagram, record_schedule, schedule, shrink, view};
use std::alloc::{AllocError, Global};
use std::io::{self, ErrorKind};
use std::process::ExitCode;
use std::thread::Threads;

fn main(rt: HostRuntime) -> ExitCode {
    let words = match words(&rt) {
        Ok(words) => words,
        Err(fault) => return refuse(&rt, fault),
    };
    let Ok(command) = command(rt.alloc()) else {
        return refuse(&rt, CommandFault::Memory);
    };
    match command.try_get_matches_from(&words) {
        Ok(matches) => match call(&rt, &rt, &matches) {
            Ok(()) => ExitCode::SUCCESS,
            Err(code) => code,
        },
        Err(error) => answer(&rt, &error),
    }
}

// The words of the command line, the program's name first.
fn words(rt: &HostRuntime) -> Result<Vec<String>, CommandFault> {
    Ok(std::env::args(rt)?.collect(rt.alloc())?)
}

fn command<'a>(alloc: Global) -> Result<Command<'a>, AllocError> {
    Command::new(alloc, "ct_tool")
        .version("0.1.0")
        .about("Makes runs of a group of members that can be made again, and shows runs")
        .subcommand_required(true)
        .subcommand(check_command(alloc)?)?
        .subcommand(complete_command(alloc)?)?
        .subcommand(diagram_command(alloc)?)?
        .subcommand(find_command(alloc)?)?
        .subcommand(interact_command(alloc)?)?
        .subcommand(merge_command(alloc)?)?
        .subcommand(order_command(alloc)?)?
        .subcommand(record_command(alloc)?)?
        .subcommand(report_command(alloc)?)?
        .subcommand(schedule_command(alloc)?)?
        .subcommand(shrink_command(alloc)?)?
        .subcommand(state_command(alloc)?)?
        .subcommand(steps_command(alloc)?)?
        .subcommand(walk_command(alloc)?)
}

// Does what the subcommand asks for; a search takes threads.
fn call<R: Threads + Sync>(
    rt: &HostRuntime,
    threads: &R,
    matches: &ArgMatches<'_>,
) -> Result<(), ExitCode> {
    match matches.subcommand() {
        Some(("check", found)) => check_files(rt, found),
        Some(("complete", found)) => complete(rt, found),
        Some(("diagram", found)) => diagram(rt, found),
        Some(("find", found)) => find(rt, threads, found),
        Some(("interact", found)) => hold_session(rt, found),
        Some(("merge", found)) => merge(rt, found),
        Some(("order", found)) => order(rt, found),
        Some(("record", found)) => record_schedule(rt, found),
        Some(("report", found)) => view(rt, found, Ok(View::Report)),
        Some(("schedule", found)) => schedule(rt, found),
        Some(("shrink", found)) => shrink(rt, found),
        Some(("state", found)) => view(rt, found, state_view(found)),
        Some(("steps", found)) => view(rt, found, steps_view(found)),
        Some(("walk", found)) => walk(rt, found),
        _ => Err(refuse(rt, CommandFault::NoSubcommand)),
    }
}

// Checks the files that the words name.
fn check_files(rt: &HostRuntime, found: &ArgMatches<'_>) -> Result<(), ExitCode> {
    let options = CheckOptions {
        expects: found.get_flag("expect-reports"),
        quiet: found.get_flag("quiet"),
    };
    let names = found.get_strs("files").unwrap_or(&[]);
    let mut writer = Counted::new(io::writer(rt));
    match check(rt.alloc(), &Host::new(rt), names, &options, &mut writer) {
        Ok(status) => Err(ExitCode::from(status)),
        Err(fault) => Err(close(rt, fault, fault.status())),
    }
}

// A call for help or for the version is answered on standard output. Nothing is wrong where nobody reads it any more.
fn answer(rt: &HostRuntime, error: &clap::Error) -> ExitCode {
    let printed = match error.print(rt) {
        Ok(()) => true,
        Err(error) => error.kind() == ErrorKind::BrokenPipe,
    };
    match answer_status(error.use_stderr(), printed) {
        Ok(status) => ExitCode::from(status),
        Err(fault) => refuse(rt, fault),
    }
}

// Tells of a fault of the command line.
fn refuse(rt: &HostRuntime, fault: CommandFault) -> ExitCode {
    close(rt, fault, fault.status())
}
