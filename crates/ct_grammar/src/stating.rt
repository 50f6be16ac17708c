//! What an act does, stated behind it.

ghost use Rattle.std.specs.Prelude.{◌≡◌, IfOk, map};
ghost use Rattle.ct_grammar.specs.Stated.{acted, carried_statement, lone_command, lone_value, no_statement, pick_statement, says_value};
ghost use Rattle.ct_grammar.specs.Stated.{statement, statement_behind, taken, value_stated, with_ts};

use crate::act::Act;
use crate::acting::{act_first, behind_act, command_first};
use crate::carried::Carried;
use crate::leading::over;
use crate::pick::Pick;
use crate::picking::behind_sender;
use crate::play::Play;
use crate::reports::{Listed, listed, ts};
use crate::statement::Statement;
use crate::unfit::Unfit;
use crate::wanted::Wanted;
use crate::who::Who;
use crate::words::begins_with;
use ct_names::Member;
use std::alloc::{AllocError, Global};

// Whether a value stands there.
#[tactic(auto, unfolding(crate::specs::Stated::says_value))]
fn says_value(words: &[&str]) -> bool
    ensures { result ≡ says_value (map (λ word. word.now) words.now) }
{
    match words {
        [] => false,
        [word, ..] => begins_with(word, b'{'),
    }
}

// Nothing is stated: the first word is left over.
#[tactic(auto, unfolding(crate::specs::Stated::no_statement))]
fn no_statement(words: &[&str], wanted: Wanted) -> Result<Statement, Unfit>
    ensures { result ≡ no_statement wanted (map (λ word. word.now) words.now) }
{
    match words {
        [] => Err(Unfit::End(wanted)),
        [_, rest @ ..] => Err(Unfit::before(rest, wanted)),
    }
}

// The value, and the ts where one stands behind it.
fn with_ts(listed: Listed, words: &[&str]) -> Result<Statement, Unfit>
    ensures { result ≡ with_ts listed (map (λ word. word.now) words.now) }
{
    if words.is_empty() {
        return Ok(Statement::Value(listed));
    }
    match ts(words) {
        Ok(ts) => Ok(Statement::Estimate(listed, ts)),
        Err(unfit) => {
            drop(listed);
            Err(unfit)
        }
    }
}

// A value, alone or with a ts.
#[tactic(auto, unfolding(crate::specs::Stated::value_stated))]
fn value_stated(
    alloc: Global,
    word: &str,
    words: &[&str],
) -> Result<Result<Statement, Unfit>, AllocError>
    ensures { IfOk result (λ said. said ≡ value_stated word.now (map (λ word. word.now) words.now)) }
{
    match listed(alloc, word, words)? {
        None => Ok(Err(Unfit::before(words, Wanted::Estimate))),
        Some((listed, rest)) => Ok(with_ts(listed, rest)),
    }
}

// The same; otherwise the first word is left over.
#[tactic(auto, unfolding(crate::specs::Stated::lone_value))]
fn lone_value(
    alloc: Global,
    words: &[&str],
    wanted: Wanted,
) -> Result<Result<Statement, Unfit>, AllocError>
    ensures { IfOk result (λ said. said ≡ lone_value wanted (map (λ word. word.now) words.now)) }
{
    let [word, rest @ ..] = words else {
        return Ok(Err(Unfit::End(wanted)));
    };
    if begins_with(word, b'{') {
        value_stated(alloc, word, rest)
    } else {
        Ok(Err(Unfit::before(rest, wanted)))
    }
}

// A command, alone.
#[tactic(auto, unfolding(crate::specs::Stated::lone_command))]
fn lone_command(words: &[&str], wanted: Wanted) -> Result<Statement, Unfit>
    ensures { result ≡ lone_command wanted (map (λ word. word.now) words.now) }
{
    let (command, rest) = command_first(words, wanted)?;
    over(rest, Wanted::Nothing)?;
    Ok(Statement::Command(command))
}

// What could stand behind a message with this sender.
fn statement_behind(from: Option<Member>) -> Wanted
    ensures { result ≡ statement_behind from }
{
    match from {
        None => Wanted::SenderOrStatement,
        Some(_) => Wanted::Statement,
    }
}

// What is stated of what an envelope carries.
#[tactic(auto, unfolding(crate::specs::Stated::carried_statement))]
fn carried_statement(
    alloc: Global,
    carried: Carried,
    from: Option<Member>,
    words: &[&str],
) -> Result<Result<Statement, Unfit>, AllocError>
    ensures { IfOk result (λ said. said ≡ carried_statement carried from (map (λ word. word.now) words.now)) }
{
    match carried {
        Carried::Data(_, _) => Ok(lone_command(words, statement_behind(from))),
        Carried::Est(_, _) | Carried::Prop(_, _) | Carried::Dec(_, _) => {
            lone_value(alloc, words, behind_sender(from))
        }
        Carried::Ack(_, _) | Carried::Nack(_, _) => Ok(no_statement(words, behind_sender(from))),
    }
}

// What is stated of the envelope that is received.
#[tactic(auto, unfolding(crate::specs::Stated::pick_statement))]
fn pick_statement(
    alloc: Global,
    pick: Pick,
    words: &[&str],
) -> Result<Result<Statement, Unfit>, AllocError>
    ensures { IfOk result (λ said. said ≡ pick_statement pick (map (λ word. word.now) words.now)) }
{
    match pick {
        Pick::Serial(_) => {
            if says_value(words) {
                lone_value(alloc, words, Wanted::Statement)
            } else {
                Ok(lone_command(words, Wanted::Statement))
            }
        }
        Pick::First(carried, from) => carried_statement(alloc, carried, from, words),
    }
}

// What is stated behind the act.
#[tactic(auto, unfolding(crate::specs::Stated::statement))]
fn statement(
    alloc: Global,
    act: Act,
    words: &[&str],
) -> Result<Result<Statement, Unfit>, AllocError>
    ensures { IfOk result (λ said. said ≡ statement act (map (λ word. word.now) words.now)) }
{
    match act {
        Act::Receive(pick) => pick_statement(alloc, pick, words),
        Act::Begin
        | Act::Enter
        | Act::Choose(_)
        | Act::Adopt
        | Act::Conclude
        | Act::Deliver
        | Act::Follow => lone_value(alloc, words, Wanted::Nothing),
        Act::Submit(_)
        | Act::Suspect
        | Act::Crash
        | Act::Postpone(_)
        | Act::Lose(_)
        | Act::Repeat(_)
        | Act::LoseFrom(_) => Ok(no_statement(words, behind_act(&act))),
    }
}

// The act of these members, alone or with what is stated behind it.
#[tactic(auto, unfolding(crate::specs::Stated::taken))]
fn taken(
    alloc: Global,
    who: Who,
    act: Act,
    words: &[&str],
) -> Result<Result<Play, Unfit>, AllocError>
    ensures { IfOk result (λ play. play ≡ taken who act (map (λ word. word.now) words.now)) }
{
    if words.is_empty() {
        return Ok(Ok(Play::Act(who, act)));
    }
    let same = act;
    match statement(alloc, same, words)? {
        Ok(said) => Ok(Ok(Play::Stated(who, act, said))),
        Err(unfit) => Ok(Err(unfit)),
    }
}

/// What these members do: an act, alone or with what is stated behind it.
#[tactic(auto, unfolding(crate::specs::Stated::acted))]
pub(crate) fn acted(
    alloc: Global,
    who: Who,
    words: &[&str],
) -> Result<Result<Play, Unfit>, AllocError>
    ensures { IfOk result (λ play. play ≡ acted who (map (λ word. word.now) words.now)) }
{
    match act_first(words, Wanted::Doing) {
        Ok((act, rest)) => taken(alloc, who, act, rest),
        Err(unfit) => Ok(Err(unfit)),
    }
}
