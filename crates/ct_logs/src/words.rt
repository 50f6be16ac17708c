//! The words after `merge` on a command line.

ghost use Rattle.std.specs.Prelude.{◌≡◌, false, IfOk};
ghost use Rattle.clap.specs.Words.{app_of, found_of, rows_of, rule_of};
ghost use Rattle.ct_logs.specs.Line.{form_in, merge_app, presume_rule};

use crate::form::Form;
use clap::{Arg, ArgMatches, Command};
use ct_streams::{files_argument, flag, idle_option, is_set, subcommand};
use std::alloc::{AllocError, Global};

// What stands after the options.
const AFTER: &str = "A log has the lines of one member, in its order:
  members 3                        how many there are, in any log; else the logs
  1 submit set 0 7                 a step of the member
  receive data 1.1 from 2 set 0 7  a receipt, with who passed it on
  begin {1.1}                      what a step came to may stand behind it
  expect 1 delivered 1.1           a fact of the member that has to be so there

The first log is member 1's, unless its lines name another member, and so on.

With --follow logs are read as they grow, and judged once the log that gives
members has an act. A line that is refused whatever comes is told at once, all
else in the end: once each log ends with a crash, or after S seconds without a
line. A file that is replaced, removed or truncated ends it, with status 4. ^C
ends it, with nothing told.

With --presume members go on behind incomplete logs, so that they send what
others received. How many steps of whom are presumed is told; it isn't known
that they were these.

Examples:
  ct_tool merge 1.log 2.log 3.log > run.schedule
  ct_tool merge --record *.log | ct_tool report
  ct_tool merge --follow --idle 10 *.log > run.schedule

Status:
  0  the logs are accepted, and their run was written
  1  the logs are refused: no order of them is a run, or a fact isn't so
  2  a file is no log, or the logs are not those of a group
  3  the words of the command line are refused
  4  a read or a write failed
  5  memory was refused
  6  the logs are incomplete: one of them would have to go on
  7  they are incomplete, and a run was written in which they go on (--presume)
  8  a limit of what is judged is met, which accuses nobody";

/// The subcommand `merge`.
pub fn merge_command<'a>(alloc: Global) -> Result<Command<'a>, AllocError>
    ensures { IfOk result (λ command. app_of command ≡ merge_app) }
{
    subcommand(
        alloc,
        "merge",
        concat!(
            "Merges the logs of members into one run and writes it as a schedule,\n",
            "or tells of a line that stands in no run",
        ),
        AFTER,
    )
    .arg(files_argument(
        alloc,
        "LOG",
        "The files that the members' logs stand in; - for standard input",
    ))?
    .arg(flag(
        alloc,
        "record",
        "Writes the run as a record, in place of a schedule",
    ))?
    .arg(presume(alloc)?)?
    .arg(flag(
        alloc,
        "follow",
        "Reads the logs as they grow, and refuses at once",
    ))?
    .arg(idle_option(
        alloc,
        "Takes logs that are followed to be over after S\nseconds without a line, 1 to 86400",
    )?)
}

// Whether ends of logs may be lost, which is not asked of logs that grow.
fn presume<'a>(alloc: Global) -> Result<Arg<'a>, AllocError>
    ensures rule { IfOk result (λ presume. rule_of presume ≡ presume_rule) }
    ensures local { IfOk result (λ presume. presume.global ≡ false) }
{
    flag(
        alloc,
        "presume",
        concat!(
            "Where the logs are incomplete: takes their ends to be lost,\n",
            "and what others received as sent behind them",
        ),
    )
    .conflicts_with("follow")
}

/// As what the run is to be written.
pub fn merge_form(found: &ArgMatches<'_>) -> Form
    ensures { result ≡ form_in (rows_of (found_of found.now)) }
{
    if is_set(found, "record") {
        Form::Record
    } else {
        Form::Schedule
    }
}
