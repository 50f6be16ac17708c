//! The words of a command line.

ghost use Rattle.std.specs.Prelude.{◌≡◌, ℕ, false, List, [], ◌∷◌, fold, map, codes, unwrap_or, Some, None, Ok, Err, OnOk, IfOk, IfErr};
ghost use Rattle.clap.specs.Words.{app_of, first_of, found_of, rows_of, rule_of, subcommand_rows_of, with_rule};
ghost use Rattle.ct_streams.specs.Arguments.{option_rule};
ghost use Rattle.ct_program.specs.FreeOptions.{FreeInRange, InRange};
ghost use Rattle.ct_program.specs.Line.{program, free_app, free_rules, group_rules, members_rule, replay_app, seedless_rules};
ghost use Rattle.ct_program.specs.Line.{faults_of, call_of};
ghost use Rattle.ct_program.specs.Line.{file_in, file_of, options_of, options_with, seedless_of, IsOfKind, IsMemory};
ghost use Rattle.ct_program.specs.Line.{IsRangeOf, IsTold};

use crate::call::{Asked, Call};
use crate::free_options::{FreeOptions, MAX_EACH, MAX_RATE, MAX_TURNS};
use crate::line_fault::LineFault;
use clap::{Arg, ArgMatches, Command};
use ct_names::{MAX_BOUND, MAX_CELLS, MAX_MEMBERS};
use ct_streams::{
    WordFault, default_option, file_argument, option_in, required_option, subcommand,
};
use std::alloc::{AllocError, Global};

/// What the words ask for, the program's name first: the subcommand `replay` with a file, or `free` with its options. A call for
/// help or for the version is a fault whose text is the answer.
pub fn line<'a>(alloc: Global, words: &'a [&'a str]) -> Result<Asked<'a>, LineFault>
    ensures ok { OnOk result (faults_of (map (λ word. word.now) words.now) ≡ []) }
    ensures call { IfOk result (λ asked. call_of (map (λ word. word.now) words.now) ≡ Some (Ok asked.call)) }
    ensures file { IfOk result (λ asked. asked.file.now ≡ file_of (map (λ word. word.now) words.now)) }
    ensures in_range { IfOk result (λ asked. FreeInRange asked.call) }
    ensures err { IfErr result (IsOfKind (faults_of (map (λ word. word.now) words.now))) }
    ensures range { IfErr result (IsRangeOf (map (λ word. word.now) words.now)) }
    // After the name the one word `replay` is refused for want of memory alone.
    ensures replay { (name : List ℕ) → map (λ word. word.now) words.now ≡ name ∷ codes "replay" ∷ [] → IfErr result IsMemory }
{
    let matches = match command(alloc)?.try_get_matches_from(words) {
        Ok(matches) => matches,
        Err(error) => return Err(LineFault::Clap(error)),
    };
    match matches.subcommand_matches("free") {
        None => Ok(Asked {
            call: Call::Replay,
            file: file_in(&matches),
        }),
        Some(found) => match found_options(found) {
            Ok(options) => Ok(Asked {
                call: Call::Free(options),
                file: "-",
            }),
            Err(fault) => Err(out_of_range(alloc, fault)),
        },
    }
}

// What is told of an option whose value isn't of its range.
fn out_of_range(alloc: Global, fault: WordFault<'_>) -> LineFault
    ensures { IsTold fault.entry result }
{
    match format!(in alloc; "{fault}") {
        Ok(line) => LineFault::Range(line),
        Err(_) => LineFault::Memory,
    }
}

// The file that is replayed; standard input where none is named.
fn file_in<'a>(found: &ArgMatches<'a>) -> &'a str
    ensures { result.now ≡ file_in (subcommand_rows_of found.now) }
{
    match found.subcommand_matches("replay") {
        None => "-",
        Some(found) => named_file(found),
    }
}

fn named_file<'a>(found: &ArgMatches<'a>) -> &'a str
    ensures { result.now ≡ unwrap_or (first_of (codes "file") (rows_of (found_of found.now))) (codes "-") }
{
    match found.get_str("file") {
        None => "-",
        Some(name) => name,
    }
}

/// The options of a free run that clap found; else the fault of the first one, in the order of the definition, that is no whole
/// number of its range.
pub fn found_options<'a>(found: &'a ArgMatches<'_>) -> Result<FreeOptions, WordFault<'a>>
    ensures exact { result ≡ options_of (rows_of (found_of found.now)) }
    ensures range { IfOk result InRange }
{
    options_with(found, option_in(found, "seed", 0, u32::MAX))
}

/// The same of a command without the option `seed`; the seed is 0.
pub fn seedless_options<'a>(found: &'a ArgMatches<'_>) -> Result<FreeOptions, WordFault<'a>>
    ensures exact { result ≡ seedless_of (rows_of (found_of found.now)) }
    ensures range { IfOk result InRange }
{
    options_with(found, Ok(0))
}

// The options of a free run of this seed, where there is one.
#[tactic(auto, unfolding(crate::specs::Line::options_with))]
fn options_with<'a>(
    found: &'a ArgMatches<'_>,
    seed: Result<u32, WordFault<'a>>,
) -> Result<FreeOptions, WordFault<'a>>
    ensures exact { result ≡ options_with (rows_of (found_of found.now)) seed.entry }
    ensures range { IfOk result InRange }
{
    Ok(FreeOptions {
        members: option_in(found, "members", 1, MAX_MEMBERS as u32)? as u8,
        turns: option_in(found, "turns", 0, MAX_TURNS)?,
        seed: seed?,
        rate: option_in(found, "rate", 0, MAX_RATE as u32)? as u16,
        cells: option_in(found, "cells", 0, MAX_CELLS as u32)? as u16,
        submit: option_in(found, "submit", 0, MAX_EACH as u32)? as u16,
        crash: option_in(found, "crash", 0, MAX_MEMBERS as u32)? as u8,
        postpone: option_in(found, "postpone", 0, MAX_EACH as u32)? as u16,
        lose: option_in(found, "lose", 0, MAX_EACH as u32)? as u16,
        repeat: option_in(found, "repeat", 0, MAX_EACH as u32)? as u16,
        batch: option_in(found, "batch", 1, MAX_BOUND)?,
    })
}

// What `replay` ends with.
const STATUSES: &str = "Status:
  0  the report was written
  1  a step of the record is refused
  2  the input is no record
  3  the words of the command line are refused
  4  a read or a write failed
  5  memory was refused";

fn command<'a>(alloc: Global) -> Result<Command<'a>, AllocError>
    ensures { IfOk result (λ command. app_of command ≡ program) }
{
    Command::new(alloc, "ct")
        .version("0.1.0")
        .about("Rehearses a group of members that broadcast commands to one another")
        .subcommand_required(true)
        .subcommand(replay(alloc)?)?
        .subcommand(free(alloc)?)
}

fn replay<'a>(alloc: Global) -> Result<Command<'a>, AllocError>
    ensures { IfOk result (λ command. app_of command ≡ replay_app) }
{
    subcommand(
        alloc,
        "replay",
        "Replays a record and writes the report to standard output",
        STATUSES,
    )
    .arg(file_argument(
        alloc,
        "The file that the record stands in; - for standard input",
    ))
}

fn free<'a>(alloc: Global) -> Result<Command<'a>, AllocError>
    ensures { IfOk result (λ command. app_of command ≡ free_app) }
{
    let command = Command::new(alloc, "free").about(concat!(
        "Runs a group of members under threads, with failure detectors that\n",
        "answer at random, and writes the record of the run to standard output",
    ));
    let turns = "How many turns the thread of each member takes,\n0 to 100000";
    with_free_options(alloc, command, turns)
}

// The help of the option `seed`.
const SEED: &str = concat!(
    "Where the random answers come from,\n",
    "0 to 4294967295: the failure detector of member m\n",
    "is seeded with this number plus m",
);

// The options of a free run but for `members`, `turns` and `seed`: each with its name, the value where none is given, and its help.
const OPTIONS: [(&str, &str, &str); 8] = [
    (
        "rate",
        "64",
        "How many of 256 answers of a failure detector\nsuspect the coordinator, 0 to 256",
    ),
    (
        "cells",
        "64",
        "How many batches of messages there is room for,\n0 to 1024",
    ),
    (
        "submit",
        "8",
        "How many commands are submitted, 0 to 1000, by the\nmembers in turn",
    ),
    (
        "crash",
        "0",
        "The member that crashes after the submissions,\n1 to 16, or 0 for none",
    ),
    (
        "postpone",
        "0",
        "How many times a waiting envelope is postponed,\n0 to 1000, at the members in turn",
    ),
    (
        "lose",
        "0",
        "How many times a waiting envelope is lost,\n0 to 1000, at the members in turn",
    ),
    (
        "repeat",
        "0",
        "How many envelopes are repeated, 0 to 1000: those\nof serial 1, 2 and so on,\nat the members in turn",
    ),
    (
        "batch",
        "1048560",
        "How many messages a member proposes at most for an\ninstance, 1 to 1048560",
    ),
];

/// The command, and after its own arguments the options of a free run but for `seed`. This is the help of the option `turns`.
pub fn with_seedless_options<'a>(
    alloc: Global,
    command: Command<'a>,
    turns: &'a str,
) -> Result<Command<'a>, AllocError>
    ensures { IfOk result (λ longer. app_of longer ≡ fold with_rule (app_of command.entry) seedless_rules) }
{
    let command = with_group_options(alloc, command, turns)?;
    with_options(alloc, command, &OPTIONS)
}

/// The command, and after its own arguments the options of a free run. This is the help of the option `turns`.
pub fn with_free_options<'a>(
    alloc: Global,
    command: Command<'a>,
    turns: &'a str,
) -> Result<Command<'a>, AllocError>
    ensures { IfOk result (λ longer. app_of longer ≡ fold with_rule (app_of command.entry) free_rules) }
{
    let command = with_group_options(alloc, command, turns)?;
    let seed = default_option(alloc, "seed", "0", SEED);
    with_options(alloc, command.arg(seed)?, &OPTIONS)
}

// The command, and the options `members` and `turns`.
fn with_group_options<'a>(
    alloc: Global,
    command: Command<'a>,
    turns: &'a str,
) -> Result<Command<'a>, AllocError>
    ensures { IfOk result (λ longer. app_of longer ≡ fold with_rule (app_of command.entry) group_rules) }
{
    let members = members_arg(alloc);
    let turns = default_option(alloc, "turns", "1000", turns);
    command.arg(members)?.arg(turns)
}

fn members_arg<'a>(alloc: Global) -> Arg<'a>
    ensures rule { rule_of result ≡ members_rule }
    ensures local { result.global ≡ false }
{
    required_option(alloc, "members", "The number of members, 1 to 16").value_name("N")
}

// The command with these options too.
fn with_options<'a>(
    alloc: Global,
    mut command: Command<'a>,
    options: &[(&'a str, &'a str, &'a str)],
) -> Result<Command<'a>, AllocError>
    ensures { IfOk result (λ longer. app_of longer
        ≡ fold (λ app o. with_rule app (option_rule o.0.now o.1.now)) (app_of command.entry) options.now) }
{
    for (name, default, help) in options {
        command = command.arg(default_option(alloc, name, default, help))?;
    }
    Ok(command)
}
