//! The goals that options are given.

ghost use Rattle.std.specs.Prelude.{◌≡◌, Ok, IfOk, IfErr, map, option_map, string_bytes};
ghost use Rattle.clap.specs.Words.{found_of, rows_of};
ghost use Rattle.ct_walk.specs.Line.{given_goal, goal_in, goal_or_none, group_goal, joined, no_goal_line, no_member_line, IsCallFault};
ghost use Rattle.ct_walk.specs.Sights.{in_full, sight_by, sight_of};

use crate::call_fault::CallFault;
use crate::sight::Sight;
use clap::ArgMatches;
use ct_grammar::{Goal, Misfit, goal_of};
use ct_names::Member;
use ct_play::stranger;
use ct_streams::number_in;
use std::alloc::{AllocError, Global};

// The goal of a group of n members that is given for the option, in one word or several, where it is given. `decided N` and
// `round N` are short for `any decided N` and `any round >= N`.
pub(crate) fn goal_in<'a>(
    alloc: Global,
    found: &'a ArgMatches<'_>,
    n: u8,
    name: &'a str,
) -> Result<Option<Goal>, CallFault<'a>>
    ensures ok { IfOk result (λ goal. goal_in (rows_of (found_of found.now)) n name.now ≡ Ok goal) }
    ensures err { IfErr result (IsCallFault (goal_in (rows_of (found_of found.now)) n name.now)) }
{
    goal_or_none(alloc, n, name, found.get_strs(name))
}

// The goal of the words that are given for the option, where it is given.
fn goal_or_none<'a>(
    alloc: Global,
    n: u8,
    name: &'a str,
    words: Option<&[&'a str]>,
) -> Result<Option<Goal>, CallFault<'a>>
    ensures ok { IfOk result (λ goal.
        goal_or_none n name.now (option_map (λ words. map (λ word. word.now) words.now) words.entry) ≡ Ok goal) }
    ensures err { IfErr result
        (IsCallFault (goal_or_none n name.now (option_map (λ words. map (λ word. word.now) words.now) words.entry))) }
{
    match words {
        None => Ok(None),
        Some(words) => {
            let text = joined(alloc, words)?;
            Ok(Some(group_goal(alloc, n, name, &text)?))
        }
    }
}

/// The words, with a space between them.
pub fn joined(alloc: Global, words: &[&str]) -> Result<String, AllocError>
    ensures { IfOk result (λ text. string_bytes text ≡ joined (map (λ word. word.now) words.now)) }
{
    words.join(alloc, " ")
}

/// The goal of the text that is given for the option.
pub fn given_goal<'a>(alloc: Global, name: &'a str, text: &str) -> Result<Goal, CallFault<'a>>
    ensures ok { IfOk result (λ goal. given_goal name.now text.now ≡ Ok goal) }
    ensures err { IfErr result (IsCallFault (given_goal name.now text.now)) }
{
    let full = in_full(alloc, text)?;
    match goal_of(alloc, &full)? {
        Ok(goal) => Ok(goal),
        Err(misfit) => {
            let line = no_goal_line(alloc, name, text, &misfit)?;
            Err(CallFault::NoGoal(line))
        }
    }
}

/// The same, where a group of n members has those that it names.
pub fn group_goal<'a>(
    alloc: Global,
    n: u8,
    name: &'a str,
    text: &str,
) -> Result<Goal, CallFault<'a>>
    ensures ok { IfOk result (λ goal. group_goal n name.now text.now ≡ Ok goal) }
    ensures err { IfErr result (IsCallFault (group_goal n name.now text.now)) }
{
    let goal = given_goal(alloc, name, text)?;
    match stranger(n, &goal) {
        None => Ok(goal),
        Some(member) => Err(CallFault::NoGoal(no_member_line(alloc, name, text, member, n)?)),
    }
}

// The line of a goal that names a member that a group of n hasn't.
fn no_member_line(
    alloc: Global,
    name: &str,
    text: &str,
    member: Member,
    n: u8,
) -> Result<String, AllocError>
    ensures { IfOk result (λ line. string_bytes line ≡ no_member_line name.now text.now member n) }
{
    format!(in alloc; "--{name} {text}: no member {member} of {n}")
}

// The line of a text that is no goal.
fn no_goal_line(
    alloc: Global,
    name: &str,
    text: &str,
    misfit: &Misfit,
) -> Result<String, AllocError>
    ensures { IfOk result (λ line. string_bytes line ≡ no_goal_line name.now text.now misfit.now) }
{
    let mut line = format!(in alloc; "--{name} {text}: not understood: ")?;
    misfit.push_onto(&mut line)?;
    Ok(line)
}

// The text as goals are written.
fn in_full(alloc: Global, text: &str) -> Result<String, AllocError>
    ensures { IfOk result (λ full. string_bytes full ≡ in_full text.now) }
{
    match sight_of(text) {
        None => format!(in alloc; "{text}"),
        Some(Sight::Decided(instance)) => format!(in alloc; "any decided {instance}"),
        Some(Sight::Round(round)) => format!(in alloc; "any round >= {round}"),
    }
}

// What the text names, which has a space between `decided`, or `round`, and a number.
fn sight_of(text: &str) -> Option<Sight>
    ensures { result ≡ sight_of text.now }
{
    let (kind, number) = text.split_once(' ')?;
    sight_by(kind, number)
}

// What `decided`, or `round`, and a number name.
fn sight_by(kind: &str, number: &str) -> Option<Sight>
    ensures { result ≡ sight_by kind.now number.now }
{
    let number = number_in(number, 1, u32::MAX)?;
    match kind {
        "decided" => Some(Sight::Decided(number)),
        "round" => Some(Sight::Round(number)),
        _ => None,
    }
}
