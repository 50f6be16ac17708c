//! The words after `walk` on a command line.

ghost use Rattle.std.specs.Prelude.{◌≡◌, false, fold, option_map, Ok, IfOk, IfErr, IfSome};
ghost use Rattle.clap.specs.Words.{app_of, found_of, rows_of, rule_of, with_rule};
ghost use Rattle.ct_walk.specs.Line.{goal_rule, own_rule, own_rules, walk_app, with_search_rules};
ghost use Rattle.ct_walk.specs.Line.{given_seeds, options_with, search_options, seeds_in, seeds_or_line, walk_call, walk_options};
ghost use Rattle.ct_walk.specs.Line.{IsCallFault, IsSeedsInRange};
ghost use Rattle.ct_program.specs.FreeOptions.{InRange};
ghost use Rattle.ct_walk.specs.Options.{IsInRange};
ghost use Rattle.ct_walk.specs.Texts.{seeds_of};

use crate::call::{Seeds, WalkCall};
use crate::call_fault::CallFault;
use crate::goals::goal_in;
use crate::options::WalkOptions;
use clap::{Arg, ArgMatches, Command};
use ct_program::{
    FreeOptions, MAX_EACH, MAX_RATE, MAX_TURNS, found_options, seedless_options, with_free_options,
    with_seedless_options,
};
use ct_streams::{
    Given, Wanted, WordFault, default_option, number_in, option_in, subcommand, value_option,
};
use std::alloc::{AllocError, Global};

// The help of the option `turns`.
const TURNS: &str = concat!(
    "How many turns there are for each member,\n",
    "0 to 100000: N times the members are made, and one\n",
    "for each entry of the scripts; whose each is, is\n",
    "drawn, so a member takes more than N of them\n",
    "or fewer",
);

// The help of the options that a walk has and a free run hasn't.
const EVERY: &str = concat!(
    "Makes the submissions and the crash at the turns N,\n",
    "2N, 3N and so on, 0 to 100000; at 0 their turns are\n",
    "drawn like all others",
);

const SCATTER: &str = concat!(
    "How many of 256 receipts are of an envelope from a\n",
    "place of the line that is drawn, 0 to 256; the\n",
    "others are of the first",
);

const LASTING: &str = concat!(
    "How many of 256 suspicions last, 0 to 256, when the\n",
    "same coordinator is asked about again",
);

const CRASHES: &str = concat!(
    "How many members crash at drawn turns, fewer than\n",
    "half of them; one may be drawn twice",
);

const CUT: &str = concat!(
    "How many times the group is cut in two, 0 to 1000;\n",
    "sides, beginning and end are drawn",
);

// What stands after the options.
const AFTER: &str = "Examples:
  ct_tool walk --members 3 > run.json
  ct_tool walk --members 5 --seed 7 --submit 20 --every 100 > run.json
  ct_tool walk --members 3 --rate 128 --until 'any decided 2' > run.json

Goals are those that `ct_tool find --help` tells; find tries many seeds.

Status:
  0  the record was written
  1  the walk doesn't show the goal of --until
  3  the words of the command line are refused
  4  a write of standard output failed
  5  memory was refused";

// What may stand after `--seeds`.
const SEEDS: &str = "A..B, whole numbers from 0 to 4294967295, A no larger than B";

/// What the options of `walk` ask for; else the fault of the first one, in the order of the definition, that asks for nothing.
#[tactic(auto, unfolding(crate::specs::Line::walk_call))]
pub fn walk_call<'a>(alloc: Global, found: &'a ArgMatches<'_>) -> Result<WalkCall, CallFault<'a>>
    ensures ok { IfOk result (λ call. walk_call (rows_of (found_of found.now)) ≡ Ok call) }
    ensures range { IfOk result (λ call. IsInRange call.options) }
    ensures err { IfErr result (IsCallFault (walk_call (rows_of (found_of found.now)))) }
{
    let options = walk_options(found)?;
    let until = goal_in(alloc, found, options.run.members, "until")?;
    Ok(WalkCall { options, until })
}

// The options of a walk.
fn walk_options<'a>(found: &'a ArgMatches<'_>) -> Result<WalkOptions, WordFault<'a>>
    ensures exact { result ≡ walk_options (rows_of (found_of found.now)) }
    ensures range { IfOk result IsInRange }
{
    options_with(found, found_options(found)?)
}

/// The same of a command without the option `seed`; the seed is 0.
pub fn search_options<'a>(found: &'a ArgMatches<'_>) -> Result<WalkOptions, WordFault<'a>>
    ensures exact { result ≡ search_options (rows_of (found_of found.now)) }
    ensures range { IfOk result IsInRange }
{
    options_with(found, seedless_options(found)?)
}

// These options, where the member that crashes is one of the group, and the others of a walk.
#[tactic(auto, unfolding(crate::specs::Line::options_with))]
fn options_with<'a>(
    found: &'a ArgMatches<'_>,
    run: FreeOptions,
) -> Result<WalkOptions, WordFault<'a>>
    requires { InRange run }
    ensures exact { result ≡ options_with (rows_of (found_of found.now)) run }
    ensures range { IfOk result IsInRange }
{
    let _ = option_in(found, "crash", 0, u32::from(run.members))?;
    let half = u32::from((run.members - 1) / 2);
    Ok(WalkOptions {
        run,
        every: option_in(found, "every", 0, MAX_TURNS)?,
        scatter: option_in(found, "scatter", 0, MAX_RATE as u32)? as u16,
        lasting: option_in(found, "lasting", 0, MAX_RATE as u32)? as u16,
        crashes: option_in(found, "crashes", 0, half)? as u8,
        cuts: option_in(found, "cut", 0, MAX_EACH as u32)? as u16,
    })
}

/// The seeds that are given.
pub fn seeds_in<'a>(found: &'a ArgMatches<'_>) -> Result<Seeds, WordFault<'a>>
    ensures exact { result ≡ seeds_in (rows_of (found_of found.now)) }
    ensures range { IfOk result IsSeedsInRange }
{
    seeds_or_line(found.get_str("seeds"))
}

fn seeds_or_line<'a>(text: Option<&'a str>) -> Result<Seeds, WordFault<'a>>
    ensures exact { result ≡ seeds_or_line (option_map (λ text. text.now) text.entry) }
    ensures range { IfOk result IsSeedsInRange }
{
    match text {
        Some(text) => given_seeds(text),
        None => Err(WordFault::new("seeds", Given::Nothing, Wanted::Words(SEEDS))),
    }
}

// The seeds that the text names, which is given for `seeds`.
fn given_seeds<'a>(text: &'a str) -> Result<Seeds, WordFault<'a>>
    ensures exact { result ≡ given_seeds text.now }
    ensures range { IfOk result IsSeedsInRange }
{
    match seeds(text) {
        Some(seeds) => Ok(seeds),
        None => Err(WordFault::new("seeds", Given::One(text), Wanted::Words(SEEDS))),
    }
}

// The seeds from the first number to the last one, with two points between them.
#[tactic(auto, unfolding(crate::specs::Texts::seeds_of))]
fn seeds(text: &str) -> Option<Seeds>
    ensures exact { result ≡ seeds_of text.now }
    ensures range { IfSome result IsSeedsInRange }
{
    let (first, last) = text.split_once("..")?;
    let first = number_in(first, 0, u32::MAX)?;
    let last = number_in(last, first, u32::MAX)?;
    Some(Seeds { first, last })
}

/// The subcommand `walk`.
pub fn walk_command<'a>(alloc: Global) -> Result<Command<'a>, AllocError>
    ensures { IfOk result (λ command. app_of command ≡ walk_app) }
{
    let command = subcommand(
        alloc,
        "walk",
        concat!(
            "Runs a group of members in one thread, each turn's member drawn from\n",
            "the seed, and writes the record of the run to standard output; the\n",
            "same options give the same record",
        ),
        AFTER,
    );
    let command = with_free_options(alloc, command, TURNS)?;
    with_own_options(alloc, command)?.arg(goal_arg(
        alloc,
        "until",
        "Stops once the run shows the goal: decided N,\nround N, 'any round >= 4 and never 2 crashed' ..",
    ))
}

/// The command, and after its arguments the options of a walk but for `seed`.
pub fn with_search_options<'a>(
    alloc: Global,
    command: Command<'a>,
) -> Result<Command<'a>, AllocError>
    ensures { IfOk result (λ longer. app_of longer ≡ with_search_rules (app_of command.entry)) }
{
    let command = with_seedless_options(alloc, command, TURNS)?;
    with_own_options(alloc, command)
}

// The command, and after its arguments the options that a walk has and a free run hasn't.
fn with_own_options<'a>(alloc: Global, command: Command<'a>) -> Result<Command<'a>, AllocError>
    ensures { IfOk result (λ longer. app_of longer ≡ fold with_rule (app_of command.entry) own_rules) }
{
    command
        .arg(own(alloc, "every", EVERY))?
        .arg(own(alloc, "scatter", SCATTER))?
        .arg(own(alloc, "lasting", LASTING))?
        .arg(own(alloc, "crashes", CRASHES))?
        .arg(own(alloc, "cut", CUT))
}

fn own<'a>(alloc: Global, name: &'a str, help: &'a str) -> Arg<'a>
    ensures rule { rule_of result ≡ own_rule name.entry.now }
    ensures local { result.global ≡ false }
{
    default_option(alloc, name, "0", help).value_name("N")
}

// An option that is given a goal, that need not be given.
fn goal_arg<'a>(alloc: Global, name: &'a str, help: &'a str) -> Arg<'a>
    ensures rule { rule_of result ≡ goal_rule name.entry.now }
    ensures local { result.global ≡ false }
{
    value_option(alloc, name, help)
        .num_args(1..)
        .value_name("GOAL")
}
