//! The words after `complete` on a command line.

ghost use Rattle.std.specs.Prelude.{◌≡◌, IfOk};
ghost use Rattle.clap.specs.Words.{app_of};
ghost use Rattle.ct_complete.specs.Line.{complete_app};

use clap::Command;
use ct_streams::{file_argument, flag, subcommand};
use std::alloc::{AllocError, Global};

// What stands after the options.
const AFTER: &str = "Behind the steps of the record come turns of all members, as of a line
`all settle suspecting` those that crashed, until nothing moves any more. Where
not all is done then, the first thing that stands in the way is told, as
`not settled: 2 waits for #9 data 1.3 from 1, which was lost`.

Examples:
  ct_tool complete run.json > whole.json
  ct_tool complete run.json | ct_tool report
  ct_tool record run.txt | ct_tool complete | ct_tool schedule

Status:
  0  all that are up have delivered the same; the record was written
  1  something stands in the way, or a step of the record is refused; nothing
     is written
  2  the input is no record
  3  the words of the command line are refused
  4  a read or a write failed
  5  memory was refused";

/// The subcommand `complete`.
pub fn complete_command<'a>(alloc: Global) -> Result<Command<'a>, AllocError>
    ensures { IfOk result (λ command. app_of command ≡ complete_app) }
{
    subcommand(
        alloc,
        "complete",
        "Replays a record, goes on until all that are up have delivered the\nsame, and writes the record of that",
        AFTER,
    )
    .arg(flag(
        alloc,
        "json",
        "Where something stands in the way, writes that as JSON, too",
    ))?
    .arg(file_argument(
        alloc,
        "The file that the record stands in; - for standard input",
    ))
}
