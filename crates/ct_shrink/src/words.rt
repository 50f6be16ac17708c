//! The words after `shrink` on a command line.

ghost use Rattle.std.specs.Prelude.{◌≡◌, false, IfOk};
ghost use Rattle.clap.specs.Words.{app_of, found_of, rows_of, rule_of};
ghost use Rattle.ct_shrink.specs.Line.{form_in, goal_rule, options_of, shrink_app, tries_rule};

use crate::options::{Form, ShrinkOptions};
use clap::{Arg, ArgMatches, Command};
use ct_streams::{
    WordFault, default_option, file_argument, flag, is_set, option_in, required_option, subcommand,
};
use std::alloc::{AllocError, Global};

/// How many trials may be made at most.
pub const MOST_TRIES: u32 = 1_000_000;

// How many trials are made at most where nothing else is said.
const USUAL_TRIES: &str = "10000";

// What stands after the options.
const AFTER: &str =
    "A trial takes the steps of the run one by one, without some of them. An envelope
goes by what it carries and its sender. A step that is refused is left out, or
another one is taken in its place: the same from another sender, suspect for
adopt, follow for deliver and each the other way, the choice of an estimate with
the largest ts. Where the goal is shown after fewer steps, these are the run
from then on. In the end no step can be left out, unless the trials came to
their number. On a terminal a line tells how many trials were made; --tries with
that number stops there.

Goals are those that `ct_tool find --help` tells.

Examples:
  ct_tool shrink --goal 'any round >= 4' run.json > small.schedule
  ct_tool walk --members 3 --until 'round 4' | ct_tool shrink --goal 'round 4'
  ct_tool shrink --goal 'any round >= 4' --record run.json > small.json

Status:
  0  the smaller run was written
  1  the goal is not shown, or a step of the run is refused; nothing is written
  2  the input is no record
  3  the words of the command line are refused
  4  a read or a write failed
  5  memory was refused";

/// What the options of `shrink` ask for beside the goal; else the fault of `tries`, where that is no number of its range.
#[tactic(auto, unfolding(crate::specs::Line::options_of))]
pub fn shrink_options<'a>(found: &'a ArgMatches<'_>) -> Result<ShrinkOptions, WordFault<'a>>
    ensures { result ≡ options_of (rows_of (found_of found.now)) }
{
    let tries = option_in(found, "tries", 1, MOST_TRIES)?;
    Ok(ShrinkOptions {
        tries,
        form: form_in(found),
    })
}

// As what the run is to be written.
fn form_in(found: &ArgMatches<'_>) -> Form
    ensures { result ≡ form_in (rows_of (found_of found.now)) }
{
    if is_set(found, "record") {
        Form::Record
    } else {
        Form::Schedule
    }
}

/// The subcommand `shrink`.
pub fn shrink_command<'a>(alloc: Global) -> Result<Command<'a>, AllocError>
    ensures { IfOk result (λ command. app_of command ≡ shrink_app) }
{
    subcommand(
        alloc,
        "shrink",
        "Makes a smaller run that shows a goal too, of a record that does,\nand writes it as a schedule",
        AFTER,
    )
    .arg(goal(alloc))?
    .arg(tries(alloc))?
    .arg(flag(
        alloc,
        "record",
        "Writes the run as a record, in place of a schedule",
    ))?
    .arg(flag(alloc, "quiet", "Tells nothing on standard error but faults"))?
    .arg(file_argument(
        alloc,
        "The file that the record stands in; - for standard input",
    ))
}

fn goal<'a>(alloc: Global) -> Arg<'a>
    ensures rule { rule_of result ≡ goal_rule }
    ensures local { result.global ≡ false }
{
    required_option(
        alloc,
        "goal",
        "What the run has to show, in one word for the\nshell, so in quotes: 'any round >= 4'",
    )
    .value_name("'GOAL'")
}

fn tries<'a>(alloc: Global) -> Arg<'a>
    ensures rule { rule_of result ≡ tries_rule }
    ensures local { result.global ≡ false }
{
    default_option(
        alloc,
        "tries",
        USUAL_TRIES,
        "How many trials are made at most,\n1 to 1000000",
    )
    .value_name("N")
}
