//! What lines expect, in words.

ghost use Rattle.std.specs.Prelude.{◌≡◌, IfOk, map};
ghost use Rattle.ct_grammar.specs.Facts.{phase_of, short_fact, ended, lone_act, lone_pick, phase_first, reason_first};
ghost use Rattle.ct_grammar.specs.Facts.{refusal_of, plain_fact};
ghost use Rattle.ct_grammar.specs.Facts.{act_fact, number_fact, set_or_dash, lone_set, named_fact};

use crate::act::Act;
use crate::acting::{act_first, behind_act};
use crate::fact::Fact;
use crate::leading::{behind_term, lone_whole, over};
use crate::naming::reason;
use crate::numbers::members;
use crate::pick::Pick;
use crate::picking::{behind_pick, pick_first};
use crate::reason::Reason;
use crate::reports::{decisions, estimate, messages, table};
use crate::unfit::Unfit;
use crate::wanted::Wanted;
use ct_model::Phase;
use ct_names::MemberSet;
use std::alloc::{AllocError, Global};

// A phase, by its name.
#[tactic(auto, unfolding(crate::specs::Facts::phase_of))]
fn phase(name: &str) -> Option<Phase>
    ensures { result ≡ phase_of name.now }
{
    match name {
        "Rest" => Some(Phase::Rest),
        "Gather" => Some(Phase::Gather),
        "Wait" => Some(Phase::Wait),
        "Tally" => Some(Phase::Tally),
        _ => None,
    }
}

// The facts of one word.
#[tactic(auto, unfolding(crate::specs::Facts::short_fact))]
fn short_fact(name: &str) -> Option<Fact>
    ensures { result ≡ short_fact name.now }
{
    match name {
        "up" => Some(Fact::Up),
        "crashed" => Some(Fact::Crashed),
        "idle" => Some(Fact::Idle),
        _ => None,
    }
}

// The act, where no words stand behind it.
#[tactic(auto, unfolding(crate::specs::Facts::ended))]
fn ended(act: Act, words: &[&str]) -> Result<Act, Unfit>
    ensures { result ≡ ended act (map (λ word. word.now) words.now) }
{
    over(words, behind_term(words, behind_act(&act)))?;
    Ok(act)
}

// An act, alone.
#[tactic(auto, unfolding(crate::specs::Facts::lone_act))]
fn lone_act(words: &[&str]) -> Result<Act, Unfit>
    ensures { result ≡ lone_act (map (λ word. word.now) words.now) }
{
    match act_first(words, Wanted::Act) {
        Ok((act, rest)) => ended(act, rest),
        Err(unfit) => Err(unfit),
    }
}

// An envelope, alone.
#[tactic(auto, unfolding(crate::specs::Facts::lone_pick))]
fn lone_pick(words: &[&str]) -> Result<Pick, Unfit>
    ensures { result ≡ lone_pick (map (λ word. word.now) words.now) }
{
    let (pick, rest) = pick_first(words, Wanted::Envelope)?;
    over(rest, behind_term(rest, behind_pick(pick)))?;
    Ok(pick)
}

// A phase, alone.
#[tactic(auto, unfolding(crate::specs::Facts::phase_first))]
fn phase_first(words: &[&str]) -> Result<Phase, Unfit>
    ensures { result ≡ phase_first (map (λ word. word.now) words.now) }
{
    let [word, rest @ ..] = words else {
        return Err(Unfit::End(Wanted::Phase));
    };
    let Some(phase) = phase(word) else {
        return Err(Unfit::before(rest, Wanted::Phase));
    };
    over(rest, behind_term(rest, Wanted::Nothing))?;
    Ok(phase)
}

// The name of a reason, alone.
#[tactic(auto, unfolding(crate::specs::Facts::reason_first))]
fn reason_first(words: &[&str]) -> Result<Reason, Unfit>
    ensures { result ≡ reason_first (map (λ word. word.now) words.now) }
{
    let [word, rest @ ..] = words else {
        return Err(Unfit::End(Wanted::Reason));
    };
    let Some(reason) = reason(word) else {
        return Err(Unfit::before(rest, Wanted::Reason));
    };
    over(rest, behind_term(rest, Wanted::Nothing))?;
    Ok(reason)
}

// An act, and behind it the name of the reason for which it is refused.
#[tactic(auto, unfolding(crate::specs::Facts::refusal_of))]
fn refusal(words: &[&str]) -> Result<Fact, Unfit>
    ensures { result ≡ refusal_of (map (λ word. word.now) words.now) }
{
    match act_first(words, Wanted::Act) {
        Ok((act, rest)) => Ok(Fact::Refuses(act, reason_first(rest)?)),
        Err(unfit) => Err(unfit),
    }
}

// The facts of an act and of an envelope; otherwise those of one word.
#[tactic(auto, unfolding(crate::specs::Facts::act_fact))]
fn act_fact(name: &str, words: &[&str]) -> Result<Fact, Unfit>
    ensures { result ≡ act_fact name.now (map (λ word. word.now) words.now) }
{
    match name {
        "refuses" => refusal(words),
        "may" => Ok(Fact::May(lone_act(words)?)),
        "waits" => Ok(Fact::Waits(lone_pick(words)?)),
        _ => plain_fact(name, words),
    }
}

// A fact of one word, alone.
fn plain_fact(name: &str, words: &[&str]) -> Result<Fact, Unfit>
    ensures { result ≡ plain_fact name.now (map (λ word. word.now) words.now) }
{
    match short_fact(name) {
        Some(fact) => match over(words, behind_term(words, Wanted::Nothing)) {
            Ok(()) => Ok(fact),
            Err(unfit) => {
                drop(fact);
                Err(unfit)
            }
        },
        None => Err(Unfit::before(words, Wanted::Fact)),
    }
}

// The facts of a number, of a phase and of a set; otherwise those of an act and of an envelope.
#[tactic(auto, unfolding(crate::specs::Facts::number_fact))]
fn number_fact(name: &str, words: &[&str]) -> Result<Fact, Unfit>
    ensures { result ≡ number_fact name.now (map (λ word. word.now) words.now) }
{
    match name {
        "instance" => Ok(Fact::Instance(lone_whole(words, Wanted::Instance)?)),
        "round" => Ok(Fact::Round(lone_whole(words, Wanted::Round)?)),
        "phase" => Ok(Fact::Phase(phase_first(words)?)),
        "waiting" => Ok(Fact::Waiting(lone_whole(words, Wanted::Waiting)?)),
        "heard" => Ok(Fact::Heard(lone_set(words)?)),
        "acked" => Ok(Fact::Acked(lone_set(words)?)),
        _ => act_fact(name, words),
    }
}

// A set of members; `-` has none.
#[tactic(auto, unfolding(crate::specs::Facts::set_or_dash))]
fn set_or_dash(word: &str) -> Option<MemberSet>
    ensures { result ≡ set_or_dash word.now }
{
    match word {
        "-" => Some(MemberSet::new()),
        _ => members(word.as_bytes()),
    }
}

// The same, alone.
#[tactic(auto, unfolding(crate::specs::Facts::lone_set))]
fn lone_set(words: &[&str]) -> Result<MemberSet, Unfit>
    ensures { result ≡ lone_set (map (λ word. word.now) words.now) }
{
    let [word, rest @ ..] = words else {
        return Err(Unfit::End(Wanted::Members));
    };
    let Some(set) = set_or_dash(word) else {
        return Err(Unfit::before(rest, Wanted::Members));
    };
    over(rest, behind_term(rest, Wanted::Nothing))?;
    Ok(set)
}

/// The fact of this name.
#[tactic(auto, unfolding(crate::specs::Facts::named_fact))]
pub(crate) fn named_fact(
    alloc: Global,
    name: &str,
    words: &[&str],
) -> Result<Result<Fact, Unfit>, AllocError>
    ensures { IfOk result (λ fact. fact ≡ named_fact name.now (map (λ word. word.now) words.now)) }
{
    match name {
        "received" => Ok(messages(alloc, words)?.map(Fact::Received)),
        "decided" => Ok(decisions(alloc, words)?.map(Fact::Decided)),
        "delivered" => Ok(messages(alloc, words)?.map(Fact::Delivered)),
        "table" => Ok(table(words).map(Fact::Table)),
        "estimate" => Ok(estimate(alloc, words)?.map(Fact::Estimate)),
        _ => Ok(number_fact(name, words)),
    }
}
