//! Lines, as text.

ghost use Rattle.std.specs.Prelude.{◌≡◌, ◌++◌, OnOk, codes, string_bytes};
ghost use Rattle.ct_print.specs.Lines.{given_text, line_text, play_text, question_text, suspecting_text};
ghost use Rattle.ct_grammar.specs.declared.play.Play.TheVariants.{Until};
ghost use Rattle.ct_print.specs.Members.{set_text, who_text};

use crate::acts::push_act;
use crate::cuts::push_sides;
use crate::goals::push_goal;
use crate::members::{push_set, push_who};
use crate::statements::push_statement;
use ct_grammar::{Given, Goal, Line, Play, Question, Who};
use ct_names::MemberSet;
use std::alloc::AllocError;

/// Puts the line behind the text, as `1,3 receive est 1/2 from 3`, with no line feed; of a blank one nothing. Where memory is refused, a
/// beginning of it may stand there.
#[tactic(auto, unfolding(crate::specs::Lines::line_text))]
pub fn push_line(text: &mut String, line: &Line) -> Result<(), AllocError>
    ensures { OnOk result (string_bytes text.new ≡ string_bytes text.old ++ line_text line.now) }
{
    match line {
        Line::Blank => Ok(()),
        Line::Given(given) => push_given(text, *given),
        Line::Play(play) => push_play(text, play),
    }
}

// A number of the group.
#[tactic(auto, unfolding(crate::specs::Lines::given_text))]
fn push_given(text: &mut String, given: Given) -> Result<(), AllocError>
    ensures { OnOk result (string_bytes text.new ≡ string_bytes text.old ++ given_text given) }
{
    match given {
        Given::Members(n) => write!(text, "members {n}"),
        Given::Cells(n) => write!(text, "cells {n}"),
        Given::Batch(n) => write!(text, "batch {n}"),
    }
}

// What is played.
#[tactic(auto, unfolding(crate::specs::Lines::play_text))]
fn push_play(text: &mut String, play: &Play) -> Result<(), AllocError>
    ensures { OnOk result (string_bytes text.new ≡ string_bytes text.old ++ play_text play.now) }
{
    match play {
        Play::Act(who, act) => {
            push_whose(text, *who)?;
            push_act(text, act)
        }
        Play::Stated(who, act, said) => {
            push_whose(text, *who)?;
            push_act(text, act)?;
            text.push_str(" ")?;
            push_statement(text, said)
        }
        Play::Turns(who, count, set) => {
            push_whose(text, *who)?;
            write!(text, "turns {count}")?;
            push_suspecting(text, *set)
        }
        Play::Settle(who, set) => {
            push_whose(text, *who)?;
            text.push_str("settle")?;
            push_suspecting(text, *set)
        }
        Play::Until(who, set, goal) => push_until(text, *who, *set, goal),
        Play::Cut(sides) => {
            text.push_str("cut ")?;
            push_sides(text, sides)
        }
        Play::Heal => text.push_str("heal"),
        Play::Expect(goal) => {
            text.push_str("expect ")?;
            push_goal(text, goal)
        }
        Play::Ask(question) => push_question(text, *question),
    }
}

// Members, and a space.
fn push_whose(text: &mut String, who: Who) -> Result<(), AllocError>
    ensures { OnOk result (string_bytes text.new ≡ string_bytes text.old ++ who_text who ++ codes " ") }
{
    push_who(text, who)?;
    text.push_str(" ")
}

// Turns until a goal holds.
#[tactic(auto, unfolding(crate::specs::Lines::play_text))]
fn push_until(text: &mut String, who: Who, set: MemberSet, goal: &Goal) -> Result<(), AllocError>
    ensures { OnOk result (string_bytes text.new ≡ string_bytes text.old ++ play_text (Until who set goal.now)) }
{
    push_whose(text, who)?;
    text.push_str("turns")?;
    push_suspecting(text, set)?;
    text.push_str(" until ")?;
    push_goal(text, goal)
}

// Whom the failure detectors suspect; nothing where that is nobody.
#[tactic(auto, unfolding(crate::specs::Lines::suspecting_text))]
fn push_suspecting(text: &mut String, set: MemberSet) -> Result<(), AllocError>
    ensures { OnOk result (string_bytes text.new ≡ string_bytes text.old ++ suspecting_text set) }
{
    if set.is_empty() {
        Ok(())
    } else {
        push_suspected(text, set)
    }
}

fn push_suspected(text: &mut String, set: MemberSet) -> Result<(), AllocError>
    ensures { OnOk result (string_bytes text.new ≡ string_bytes text.old ++ codes " suspecting " ++ set_text set) }
{
    text.push_str(" suspecting ")?;
    push_set(text, set)
}

// A question.
#[tactic(auto, unfolding(crate::specs::Lines::question_text))]
fn push_question(text: &mut String, question: Question) -> Result<(), AllocError>
    ensures { OnOk result (string_bytes text.new ≡ string_bytes text.old ++ question_text question) }
{
    match question {
        Question::Enabled(member) => write!(text, "enabled {member}"),
        Question::Next(member) => write!(text, "next {member}"),
        Question::State(member) => write!(text, "state {member}"),
        Question::Waiting(member) => write!(text, "waiting {member}"),
        Question::Report => text.push_str("report"),
        Question::Record => text.push_str("record"),
        Question::Limits => text.push_str("limits"),
    }
}
