//! The words after `diagram` on a command line.

ghost use Rattle.std.specs.Prelude.{◌≡◌, IfOk, option_map};
ghost use Rattle.clap.specs.Words.{app_of, found_of, rows_of};
ghost use Rattle.ct_diagram.specs.Line.{diagram_app, members_in, members_for, is_consensus_in, is_consensus_for, window_of};

use crate::window::Window;
use clap::{ArgMatches, Command};
use ct_grammar::members;
use ct_names::MemberSet;
use ct_streams::{
    Given, Wanted, WordFault, default_option, file_argument, option_in, subcommand, value_option,
};
use std::alloc::{AllocError, Global};

// What may stand after `--member` and `--only`.
const MEMBERS: &str = "a member or a list, 1 to 16, as 2 or 1,3";

const KINDS: &str = "consensus";

// What stands after the options.
const AFTER: &str = "Examples:
  ct_tool diagram run.json > run.svg
  ct_tool diagram run.json --from 120 --to 180 > part.svg
  ct_tool diagram run.json --member 1,3 --only consensus > rounds.svg
  ct_tool walk --members 3 --until decided 1 | ct_tool diagram > run.svg

Status:
  0  the diagram was written
  1  a step of the record is refused; --to draws what comes before it
  2  the input is no record
  3  the words of the command line are refused, or ask for more than 400 steps
  4  a read or a write failed
  5  memory was refused";

/// What the options of `diagram` ask for; else the fault of the first of `from`, `to`, `columns`, `member` and `only` that has
/// another value than it may have. The last step is no smaller than the first.
#[tactic(auto, unfolding(crate::specs::Line::window_of))]
pub fn diagram_window<'a>(found: &'a ArgMatches<'_>) -> Result<Window, WordFault<'a>>
    ensures { result ≡ window_of (rows_of (found_of found.now)) }
{
    let from = option_in(found, "from", 1, u32::MAX)?;
    let to = option_in(found, "to", from, u32::MAX)?;
    let columns = option_in(found, "columns", 1, 400)?;
    let members = members_in(found)?;
    let consensus = is_consensus_in(found)?;
    Ok(Window {
        from,
        to,
        columns: columns as u16,
        members,
        consensus,
    })
}

// The members that the option names, where it is given.
fn members_in<'a>(found: &'a ArgMatches<'_>) -> Result<Option<MemberSet>, WordFault<'a>>
    ensures { result ≡ members_in (rows_of (found_of found.now)) }
{
    members_for(found.get_str("member"))
}

// Those that the text names.
fn members_for<'a>(text: Option<&'a str>) -> Result<Option<MemberSet>, WordFault<'a>>
    ensures { result ≡ members_for (option_map (λ t. t.now) text.entry) }
{
    let Some(text) = text else {
        return Ok(None);
    };
    match members(text.as_bytes()) {
        Some(set) => Ok(Some(set)),
        None => Err(WordFault::new("member", Given::One(text), Wanted::Words(MEMBERS))),
    }
}

// Whether messages alone are left out.
fn is_consensus_in<'a>(found: &'a ArgMatches<'_>) -> Result<bool, WordFault<'a>>
    ensures { result ≡ is_consensus_in (rows_of (found_of found.now)) }
{
    is_consensus_for(found.get_str("only"))
}

fn is_consensus_for<'a>(text: Option<&'a str>) -> Result<bool, WordFault<'a>>
    ensures { result ≡ is_consensus_for (option_map (λ t. t.now) text.entry) }
{
    match text {
        None => Ok(false),
        Some("consensus") => Ok(true),
        Some(text) => Err(WordFault::new("only", Given::One(text), Wanted::Words(KINDS))),
    }
}

/// The subcommand `diagram`.
pub fn diagram_command<'a>(alloc: Global) -> Result<Command<'a>, AllocError>
    ensures { IfOk result (λ command. app_of command ≡ diagram_app) }
{
    subcommand(
        alloc,
        "diagram",
        concat!(
            "Replays a record and writes a picture of at most 400 of its steps as\n",
            "SVG: a line for each member, an arrow for each envelope",
        ),
        AFTER,
    )
    .arg(file_argument(
        alloc,
        "The file that the record stands in; - for standard input",
    ))?
    .arg(default_option(
        alloc,
        "from",
        "1",
        "The first step that is drawn, from 1 on",
    ))?
    .arg(default_option(
        alloc,
        "to",
        "4294967295",
        "The last step that is drawn",
    ).hide_default_value(true))?
    .arg(default_option(
        alloc,
        "columns",
        "30",
        "How many columns a row has, 1 to 400",
    ))?
    .arg(value_option(
        alloc,
        "member",
        "Draws the steps of this member, or of a list of\nmembers as 1,3, and the envelopes to and from them",
    ))?
    .arg(value_option(
        alloc,
        "only",
        concat!(
            "Draws steps and envelopes of this kind alone:\n",
            "consensus, which leaves out messages and what is done\n",
            "with them",
        ),
    ))
}
