//! The words after `order` on a command line.

ghost use Rattle.std.specs.Prelude.{◌≡◌, false, IfOk};
ghost use Rattle.clap.specs.Words.{app_of, found_of, rows_of, rule_of};
ghost use Rattle.ct_order.specs.Command.{alone_rule, asked_in, order_app};

use crate::asked::Asked;
use clap::{Arg, ArgMatches, Command};
use ct_streams::{files_argument, flag, idle_option, is_set, subcommand};
use std::alloc::{AllocError, Global};

// What stands after the options.
const AFTER: &str = "A log has the lines of one process, in its order:
  broadcast ID   it submitted the message of this name, up to 64 bytes
  deliver ID     it delivered the message
  state WORD     a digest of its state, behind the deliveries so far
  from N         it took over a snapshot of N deliveries
  restart N      it goes on behind N deliveries
  crash          it crashed
  end            the log is whole
  # ..           a comment

They are accepted where there is one order of messages, without repeats, of
which the deliveries of each log are the part that it says, each message
broadcast in some log, and the same state behind the same deliveries.

With --follow logs are read as they grow, until each ends with end.

Examples:
  ct_tool order a.log b.log c.log
  ct_tool order --settled --fifo *.log
  ct_tool order --schedule *.log | ct_tool record | ct_tool diagram
  ct_tool order --follow --idle 10 *.log

Status:
  0  the logs are accepted
  1  the logs are refused: a line contradicts one before it, or more is asked
     of them than they have
  2  a file is no log
  3  the words of the command line are refused
  4  a read or a write failed
  5  memory was refused
  6  a message is delivered whose broadcast may stand in a log without end
  8  a limit of what is judged is met";

/// The subcommand `order`.
pub fn order_command<'a>(alloc: Global) -> Result<Command<'a>, AllocError>
    ensures { IfOk result (λ command. app_of command ≡ order_app) }
{
    subcommand(
        alloc,
        "order",
        "Judges the logs of processes that deliver messages in one order",
        AFTER,
    )
    .arg(files_argument(
        alloc,
        "LOG",
        "The files that the logs stand in; - for standard input",
    ))?
    .arg(flag(
        alloc,
        "settled",
        concat!(
            "Asks that each process that did not crash delivered all\n",
            "that one of them broadcast or delivered",
        ),
    ))?
    .arg(flag(
        alloc,
        "fifo",
        concat!(
            "Asks that messages of one process are delivered in the\n",
            "order in which it broadcast them",
        ),
    ))?
    .arg(flag(alloc, "json", "Writes what the logs come to as JSON"))?
    .arg(alone(
        alloc,
        "schedule",
        "json",
        concat!(
            "Writes, of logs that are accepted, a schedule whose\n",
            "run has their deliveries",
        ),
    )?)?
    .arg(alone(
        alloc,
        "all",
        "follow",
        "Tells of each log what is wrong with it first",
    )?)?
    .arg(flag(
        alloc,
        "follow",
        "Reads the logs as they grow, and refuses at once",
    ))?
    .arg(idle_option(
        alloc,
        "Takes logs that are followed to be over after S\nseconds without a line, 1 to 86400",
    )?)
}

// An option with no value that may not stand beside another.
fn alone<'a>(
    alloc: Global,
    name: &'a str,
    other: &'a str,
    help: &'a str,
) -> Result<Arg<'a>, AllocError>
    ensures rule { IfOk result (λ option. rule_of option ≡ alone_rule name.entry.now) }
    ensures local { IfOk result (λ option. option.global ≡ false) }
{
    flag(alloc, name, help).conflicts_with(other)
}

/// What is asked of logs besides.
pub fn order_asked(found: &ArgMatches<'_>) -> Asked
    ensures { result ≡ asked_in (rows_of (found_of found.now)) }
{
    Asked {
        settled: is_set(found, "settled"),
        fifo: is_set(found, "fifo"),
        json: is_set(found, "json"),
        all: is_set(found, "all"),
    }
}
