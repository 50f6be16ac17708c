//! From the text of a line to what it says.

ghost use Rattle.std.specs.Prelude.{◌≡◌, ◌≤◌, IfOk, map};
ghost use Rattle.ct_grammar.specs.Lines.{settled_or_acted, done_by, played_of, lone_number, heading_of, named, worded, of_words, line_of};
ghost use Rattle.ct_grammar.specs.Questions.{alone};
ghost use Rattle.ct_grammar.specs.declared.play.Play.TheVariants.{Heal};

use crate::act::Act;
use crate::asking::{lone_member, question};
use crate::cutting::cut;
use crate::given::Given;
use crate::goals::goal;
use crate::leading::{number_first, over};
use crate::line::Line;
use crate::misfit::{Misfit, told};
use crate::naming_members::who;
use crate::numbers::has_comma;
use crate::play::Play;
use crate::stating::acted;
use crate::turning::{settle, turns};
use crate::unfit::Unfit;
use crate::wanted::Wanted;
use crate::who::Who;
use crate::words::words_of;
use ct_names::{MAX_BOUND, MAX_CELLS, MAX_MEMBERS};
use std::alloc::{AllocError, Global};

/// What the line says, a text without its line feed, or why it is not understood.
#[tactic(auto, unfolding(crate::specs::Lines::line_of))]
pub fn line_of(alloc: Global, text: &str) -> Result<Result<Line, Misfit>, AllocError>
    ensures { IfOk result (λ line. line ≡ line_of text.now) }
{
    let words = words_of(alloc, text)?;
    of_words(alloc, words.as_slice())
}

// The line of these words.
#[tactic(auto, unfolding(crate::specs::Lines::of_words, crate::specs::Lines::begun))]
fn of_words(alloc: Global, words: &[&str]) -> Result<Result<Line, Misfit>, AllocError>
    ensures { IfOk result (λ line. line ≡ of_words (map (λ word. word.now) words.now)) }
{
    let [name, rest @ ..] = words else {
        return Ok(Ok(Line::Blank));
    };
    let Some(who) = who(name) else {
        return worded(alloc, words);
    };
    Ok(done_by(alloc, who, rest)?.map(Line::Play))
}

// What stands behind the members: `turns`, `settle` or an act.
#[tactic(auto, unfolding(crate::specs::Lines::done_by))]
fn done_by(alloc: Global, who: Who, words: &[&str]) -> Result<Result<Play, Misfit>, AllocError>
    ensures { IfOk result (λ play. play ≡ done_by who (map (λ word. word.now) words.now)) }
{
    match words {
        [name, rest @ ..] if *name == "turns" => turns(alloc, who, rest),
        _ => told(alloc, words, settled_or_acted(alloc, who, words)?),
    }
}

// What stands behind the members and is not `turns`: `settle` or an act.
#[tactic(auto, unfolding(crate::specs::Lines::settled_or_acted))]
fn settled_or_acted(
    alloc: Global,
    who: Who,
    words: &[&str],
) -> Result<Result<Play, Unfit>, AllocError>
    ensures { IfOk result (λ play. play ≡ settled_or_acted who (map (λ word. word.now) words.now)) }
{
    let [name, rest @ ..] = words else {
        return Ok(Err(Unfit::End(Wanted::Doing)));
    };
    if *name == "settle" {
        return Ok(settle(who, rest));
    }
    acted(alloc, who, words)
}

// What is expected; otherwise a line that another word of its own begins.
#[tactic(auto, unfolding(crate::specs::Lines::worded))]
fn worded(alloc: Global, words: &[&str]) -> Result<Result<Line, Misfit>, AllocError>
    ensures { IfOk result (λ line. line ≡ worded (map (λ word. word.now) words.now)) }
{
    let [name, rest @ ..] = words else {
        return Ok(Ok(Line::Blank));
    };
    if *name != "expect" {
        return told(alloc, words, named(name, rest));
    }
    Ok(goal(alloc, rest)?.map(Play::Expect).map(Line::Play))
}

// No list of members, which this word is not; otherwise a number of the group, and the others.
#[tactic(auto, unfolding(crate::specs::Lines::named))]
fn named(name: &str, words: &[&str]) -> Result<Line, Unfit>
    ensures { result ≡ named name.now (map (λ word. word.now) words.now) }
{
    if has_comma(name.as_bytes()) {
        Err(Unfit::before(words, Wanted::Set))
    } else {
        heading(name, words)
    }
}

// The size of the group, the number of cells, the bound on a proposal; otherwise what is played.
#[tactic(auto, unfolding(crate::specs::Lines::heading_of))]
fn heading(name: &str, words: &[&str]) -> Result<Line, Unfit>
    ensures { result ≡ heading_of name.now (map (λ word. word.now) words.now) }
{
    match name {
        "members" => {
            let n = lone_number(words, 1, MAX_MEMBERS as u64, Wanted::GroupSize)?;
            Ok(Line::Given(Given::Members(n as u8)))
        }
        "cells" => {
            let n = lone_number(words, 0, MAX_CELLS as u64, Wanted::CellCount)?;
            Ok(Line::Given(Given::Cells(n as u16)))
        }
        "batch" => {
            let n = lone_number(words, 1, MAX_BOUND as u64, Wanted::Bound)?;
            Ok(Line::Given(Given::Batch(n as u32)))
        }
        _ => Ok(Line::Play(played(name, words)?)),
    }
}

// A number from `low` to `high`, alone.
#[tactic(auto, unfolding(crate::specs::Lines::lone_number))]
fn lone_number(words: &[&str], low: u64, high: u64, wanted: Wanted) -> Result<u64, Unfit>
    ensures value { result ≡ lone_number low high wanted (map (λ word. word.now) words.now) }
    ensures within { IfOk result (λ n. n ≤ high) }
{
    let (n, rest) = number_first(words, low, high, wanted)?;
    over(rest, Wanted::Nothing)?;
    Ok(n)
}

// A crash, a cut or its end; otherwise a question.
#[tactic(auto, unfolding(crate::specs::Lines::played_of))]
fn played(name: &str, words: &[&str]) -> Result<Play, Unfit>
    ensures { result ≡ played_of name.now (map (λ word. word.now) words.now) }
{
    match name {
        "crash" => Ok(Play::Act(Who::One(lone_member(words)?), Act::Crash)),
        "cut" => Ok(Play::Cut(cut(words)?)),
        "heal" => heal(words),
        _ => Ok(Play::Ask(question(name, words)?)),
    }
}

// Nothing stands behind `heal`.
fn heal(words: &[&str]) -> Result<Play, Unfit>
    ensures { result ≡ alone Heal (map (λ word. word.now) words.now) }
{
    over(words, Wanted::Nothing)?;
    Ok(Play::Heal)
}
