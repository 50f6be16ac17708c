//! The words after `interact` and `record` on a command line.

ghost use Rattle.std.specs.Prelude.{◌≡◌, IfOk};
ghost use Rattle.clap.specs.Words.{app_of};
ghost use Rattle.ct_judge.specs.Line.{interact_app, record_app};

use clap::Command;
use ct_streams::{file_argument, flag, subcommand, value_option};
use std::alloc::{AllocError, Global};

// What stands after the options of `interact`.
const AFTER_INTERACT: &str = "Lines are those of `record`, and questions:
  enabled 2                    the steps that a member may take by itself
  next 2                       what a driver would try
  state 2                      where a member stands
  waiting 2                    the envelopes that wait at a member
  report                       the report as JSON
  record                       the record so far as JSON
  limits                       how much of each limit is used

Examples:
  ct_tool interact
  ct_tool interact --record run.json < run.txt
  ct_tool interact --strict < run.txt

Status:
  0  the input came to its end
  1  a line was refused, with --strict; or there is no record to keep, as the
     number of members was not given
  3  the words of the command line are refused
  4  a read or a write failed
  5  memory was refused";

// What stands after the options of `record`.
const AFTER_RECORD: &str = "Lines:
  members 3                    the number of members, before all else
  1 submit set 0 7             a step of a member; 1,3 or all: of several
  all receive data 1.1 from 1  an envelope by what it carries; by its serial: #2
  cut 1,2 | 3                  sides that nothing passes between, up to heal
  1 begin
  all settle suspecting 2      turns as a driver makes them, until nothing moves
  all turns 20                 so many turns of each
  all turns until all delivered 1.1
  expect all received 1.1      what has to be so
  expect 1 refuses enter Idle
  expect never any round >= 3  a goal, as `ct_tool find --help` tells

Examples:
  ct_tool record run.txt > run.json
  ct_tool record run.txt | ct_tool report
  ct_tool record --partial run.txt > run.json

Status:
  0  the record was written
  1  a line is refused; with --partial the lines before it were written
  2  the input is too long
  3  the words of the command line are refused
  4  a read or a write failed
  5  memory was refused";

/// The subcommand `interact`.
pub fn interact_command<'a>(alloc: Global) -> Result<Command<'a>, AllocError>
    ensures { IfOk result (λ command. app_of command ≡ interact_app) }
{
    subcommand(
        alloc,
        "interact",
        "Judges the lines on standard input as they come, and answers each\nwith one line",
        AFTER_INTERACT,
    )
    .arg(value_option(
        alloc,
        "record",
        "Writes the record of the session to this file in the end",
    )
    .value_name("FILE"))?
    .arg(flag(
        alloc,
        "strict",
        "Ends with status 1 where a line was refused",
    ))
}

/// The subcommand `record`.
pub fn record_command<'a>(alloc: Global) -> Result<Command<'a>, AllocError>
    ensures { IfOk result (λ command. app_of command ≡ record_app) }
{
    subcommand(
        alloc,
        "record",
        "Judges a schedule line by line and writes its record as JSON to\nstandard output",
        AFTER_RECORD,
    )
    .arg(file_argument(alloc, "The file with the schedule; - for standard input"))?
    .arg(flag(
        alloc,
        "partial",
        "Writes the record of the lines before one that is refused, too",
    ))
}
