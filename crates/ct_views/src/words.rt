//! The words after `check`, `report`, `state` and `steps` on a command line.

ghost use Rattle.std.specs.Prelude.{◌≡◌, IfOk, option_map};
ghost use Rattle.clap.specs.Words.{app_of, found_of, rows_of};
ghost use Rattle.ct_views.specs.Line.{form_in, member_in, member_of, state_of, steps_of};
ghost use Rattle.ct_views.specs.Line.{check_app, report_app, state_app, steps_app};

use crate::form::Form;
use crate::selection::Selection;
use crate::view::View;
use clap::{ArgMatches, Command};
use ct_names::{MAX_MEMBERS, Member};
use ct_streams::{
    WordFault, default_option, file_argument, files_argument, flag, is_set, number_for, option_in,
    subcommand, value_option,
};
use std::alloc::{AllocError, Global};

// The help of the argument `file`.
const FILE: &str = "The file that the record stands in; - for standard input";

// What stands after the options of `check`.
const AFTER_CHECK: &str = "Examples:
  ct_tool check run.json another.json
  ct_tool check --quiet run.json && ct_tool report run.json
  ct_tool check --expect-reports examples/*.json

A step of one of the project's examples is refused: the last line names it,
and ends with status 1.

Status, the largest of those of the records:
  0  each record is replayed
  1  a step of a record is refused, or its report is not the expected one
  2  an input is no record
  3  the words of the command line are refused
  4  a read or a write failed
  5  memory was refused";

// What stands after the options of `report`.
const AFTER_REPORT: &str = "Examples:
  ct_tool walk --members 3 | ct_tool report
  ct_tool report run.json

Status:
  0  the report was written
  1  a step of the record is refused
  2  the input is no record
  3  the words of the command line are refused
  4  a read or a write failed
  5  memory was refused";

// What stands after the options of `state`.
const AFTER_STATE: &str = "Examples:
  ct_tool state run.json
  ct_tool state run.json --after 20
  ct_tool state run.json --json

Status:
  0  the state was written
  1  one of the steps is refused
  2  the input is no record
  3  the words of the command line are refused
  4  a read or a write failed
  5  memory was refused";

// What stands after the options of `steps`.
const AFTER_STEPS: &str = "Examples:
  ct_tool walk --members 3 | ct_tool steps
  ct_tool steps run.json --from 20 --to 40
  ct_tool steps run.json --member 2
  ct_tool steps run.json --json > steps.jsonl

Status:
  0  the lines were written
  1  a step of the record is refused; its line is the last one
  2  the input is no record
  3  the words of the command line are refused
  4  a read or a write failed
  5  memory was refused";

/// The steps that the options of `steps` ask for; else the fault of the first of `from`, `to` and `member` that is no whole number
/// of its range. The last step is no smaller than the first.
#[tactic(auto, unfolding(crate::specs::Line::steps_of))]
pub fn steps_view<'a>(found: &'a ArgMatches<'_>) -> Result<View, WordFault<'a>>
    ensures { result ≡ steps_of (rows_of (found_of found.now)) }
{
    let from = option_in(found, "from", 1, u32::MAX)?;
    let to = option_in(found, "to", from, u32::MAX)?;
    let member = member_in(found)?;
    Ok(View::Steps(Selection { from, to, member }, form_in(found)))
}

// JSON where the option `json` is given.
fn form_in(found: &ArgMatches<'_>) -> Form
    ensures { result ≡ form_in (rows_of (found_of found.now)) }
{
    if is_set(found, "json") {
        Form::Json
    } else {
        Form::Text
    }
}

// The member that the option `member` names, where it is given.
fn member_in<'a>(found: &'a ArgMatches<'_>) -> Result<Option<Member>, WordFault<'a>>
    ensures { result ≡ member_in (rows_of (found_of found.now)) }
{
    member_of(found.get_str("member"))
}

// The member that the text names, where there is one.
fn member_of<'a>(text: Option<&'a str>) -> Result<Option<Member>, WordFault<'a>>
    ensures { result ≡ member_of (option_map (λ t. t.now) text.entry) }
{
    match text {
        None => Ok(None),
        Some(text) => Ok(Some(number_for("member", text, 1, u32::from(MAX_MEMBERS))? as u8)),
    }
}

/// The steps after which `state` shows the state, and its form; else the fault of their number.
#[tactic(auto, unfolding(crate::specs::Line::state_of))]
pub fn state_view<'a>(found: &'a ArgMatches<'_>) -> Result<View, WordFault<'a>>
    ensures { result ≡ state_of (rows_of (found_of found.now)) }
{
    let count = option_in(found, "after", 0, u32::MAX)?;
    Ok(View::State(count, form_in(found)))
}

/// The subcommand `check`.
pub fn check_command<'a>(alloc: Global) -> Result<Command<'a>, AllocError>
    ensures { IfOk result (λ command. app_of command ≡ check_app) }
{
    subcommand(
        alloc,
        "check",
        "Replays records, and writes a line for each that is refused: the\nfile and the fault",
        AFTER_CHECK,
    )
    .arg(files_argument(
        alloc,
        "FILE",
        "The files that the records stand in; - for standard input",
    ))?
    .arg(flag(
        alloc,
        "expect-reports",
        "Compares each report with the one beside the record:\nNAME.report beside NAME.json",
    ))?
    .arg(flag(alloc, "quiet", "Writes no line"))
}

/// The subcommand `report`.
pub fn report_command<'a>(alloc: Global) -> Result<Command<'a>, AllocError>
    ensures { IfOk result (λ command. app_of command ≡ report_app) }
{
    subcommand(
        alloc,
        "report",
        "Replays a record and writes the report as JSON to standard output",
        AFTER_REPORT,
    )
    .arg(file_argument(alloc, FILE))
}

/// The subcommand `state`.
pub fn state_command<'a>(alloc: Global) -> Result<Command<'a>, AllocError>
    ensures { IfOk result (λ command. app_of command ≡ state_app) }
{
    subcommand(
        alloc,
        "state",
        concat!(
            "Replays the first steps of a record and writes where each member\n",
            "stands, what waits for it, and what it may do next",
        ),
        AFTER_STATE,
    )
    .arg(file_argument(alloc, FILE))?
    .arg(default_option(
        alloc,
        "after",
        "4294967295",
        "How many steps are replayed; all by default",
    )
    .hide_default_value(true))?
    .arg(flag(
        alloc,
        "json",
        "Writes a JSON object for the whole and one for each\nmember",
    ))
}

/// The subcommand `steps`.
pub fn steps_command<'a>(alloc: Global) -> Result<Command<'a>, AllocError>
    ensures { IfOk result (λ command. app_of command ≡ steps_app) }
{
    subcommand(
        alloc,
        "steps",
        concat!(
            "Replays a record and writes a line for each step: its number, its\n",
            "member, what it read and what it sent",
        ),
        AFTER_STEPS,
    )
    .arg(file_argument(alloc, FILE))?
    .arg(default_option(
        alloc,
        "from",
        "1",
        "The first step that is shown, from 1 on",
    ))?
    .arg(default_option(
        alloc,
        "to",
        "4294967295",
        "The last step that is shown",
    ).hide_default_value(true))?
    .arg(value_option(
        alloc,
        "member",
        "Shows the steps of this member alone, 1 to 16",
    ))?
    .arg(flag(alloc, "json", "Writes a JSON object for each step"))
}
