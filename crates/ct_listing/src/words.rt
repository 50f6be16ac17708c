//! The words after `schedule` on a command line.

ghost use Rattle.std.specs.Prelude.{◌≡◌, IfOk};
ghost use Rattle.clap.specs.Words.{app_of};
ghost use Rattle.ct_listing.specs.Line.{schedule_app};

use clap::Command;
use ct_streams::{file_argument, subcommand};
use std::alloc::{AllocError, Global};

// What stands after the options.
const AFTER: &str = "Examples:
  ct_tool schedule run.json > run.txt
  ct_tool walk --members 3 | ct_tool schedule
  ct_tool schedule run.json | ct_tool record

Status:
  0  the schedule was written
  1  a step of the record is refused; nothing is written
  2  the input is no record
  3  the words of the command line are refused
  4  a read or a write failed
  5  memory was refused";

/// The subcommand `schedule`.
pub fn schedule_command<'a>(alloc: Global) -> Result<Command<'a>, AllocError>
    ensures { IfOk result (λ command. app_of command ≡ schedule_app) }
{
    subcommand(
        alloc,
        "schedule",
        "Replays a record and writes it as a schedule, of which `record`\nmakes the same record",
        AFTER,
    )
    .arg(file_argument(
        alloc,
        "The file that the record stands in; - for standard input",
    ))
}
