//! The line behind a schedule that expects a goal.

ghost use Rattle.std.specs.Prelude.{◌≡◌, ◌++◌, OnOk, IfOk, IfErr, is_ok, string_bytes};
ghost use Rattle.ct_play.specs.Expecting.{expected};
ghost use Rattle.ct_play.specs.Faults.{IsShort};
ghost use Rattle.ct_text.specs.Adds.{Adds};
ghost use Rattle.ct_listing.specs.Goals.{goal_line, if_taken, is_taken, line_if};
ghost use Rattle.ct_listing.specs.Leading.{Leads, one_line};

use crate::told::push_with_feed;
use ct_grammar::{Goal, Line, Play, line_of};
use ct_play::{LineFault, Stage, play};
use ct_print::push_goal;
use std::alloc::{AllocError, Global};

// Writes the line that expects the goal, where it is taken on the stage.
pub(crate) fn push_expected(
    alloc: Global,
    text: &mut String,
    stage: &mut Stage,
    goal: &Goal,
) -> Result<(), LineFault>
    requires { Leads (string_bytes text.old) stage.old }
    ensures leads { OnOk result (Leads (string_bytes text.new) stage.old) }
    ensures is { OnOk result (string_bytes text.new ≡ string_bytes text.old ++ if_taken stage.old (goal_line goal.now)) }
    ensures err { IfErr result IsShort }
{
    let line = goal_line(alloc, goal)?;
    let shown = line.as_str();
    let is_taken = is_taken(alloc, stage, shown)?;
    push_if(text, shown, is_taken)?;
    Ok(())
}

// Appends the line and a line feed, where it is wanted.
fn push_if(text: &mut String, line: &str, is_wanted: bool) -> Result<(), AllocError>
    ensures { OnOk result (Adds text.old text.new (line_if is_wanted line.now)) }
{
    if is_wanted {
        push_with_feed(text, line)
    } else {
        Ok(())
    }
}

// The line that expects the goal.
fn goal_line(alloc: Global, goal: &Goal) -> Result<String, AllocError>
    ensures { IfOk result (λ line. string_bytes line ≡ goal_line goal.now) }
{
    let mut line = String::new(alloc);
    line.push_str("expect ")?;
    push_goal(&mut line, goal)?;
    Ok(line)
}

// Whether the text is one line, which expects a goal that holds on the stage.
fn is_taken(alloc: Global, stage: &mut Stage, line: &str) -> Result<bool, LineFault>
    ensures ok { IfOk result (λ taken. taken ≡ is_taken stage.old line.now) }
    ensures err { IfErr result IsShort }
{
    if !is_one_line(line) {
        return Ok(false);
    }
    match line_of(alloc, line)? {
        Ok(Line::Play(Play::Expect(goal))) => is_met(alloc, stage, goal),
        _ => Ok(false),
    }
}

fn is_one_line(text: &str) -> bool
    ensures { result ≡ one_line text.now }
{
    text.as_bytes().iter().all(|byte| *byte != b'\n')
}

// Whether the goal holds on the stage.
fn is_met(alloc: Global, stage: &mut Stage, goal: Goal) -> Result<bool, LineFault>
    ensures ok { IfOk result (λ met. met ≡ is_ok (expected stage.old goal)) }
    ensures err { IfErr result IsShort }
{
    match play(alloc, stage, &Play::Expect(goal)) {
        Ok(()) => Ok(true),
        Err(fault) if fault.is_short() => Err(fault),
        Err(_) => Ok(false),
    }
}
