//! What reports say of members, in words.

ghost use Rattle.std.specs.Prelude.{◌≡◌, [], IfOk, map};
ghost use Rattle.ct_table.specs.Table.{zeros};
ghost use Rattle.ct_grammar.specs.Reports.{adopted_of, decisions_of, estimate_of, lone_dash, messages_of, table_of, ts_of};
ghost use Rattle.ct_grammar.specs.Reports.{with_decisions, with_names, with_registers};

use super::decisions::Decisions;
use super::estimate::Estimate;
use super::names::Names;
use super::reading_names::{decision, glued, name, value, with_register};
use crate::leading::{behind_term, lone_whole, over};
use crate::unfit::Unfit;
use crate::wanted::Wanted;
use ct_names::Round;
use ct_table::Table;
use std::alloc::{AllocError, Global};

// A dash alone; None where another word stands there.
#[tactic(auto, unfolding(crate::specs::Reports::lone_dash))]
fn lone_dash(words: &[&str], wanted: Wanted) -> Option<Result<(), Unfit>>
    ensures { result ≡ lone_dash wanted (map (λ word. word.now) words.now) }
{
    let [word, rest @ ..] = words else {
        return Some(Err(Unfit::End(wanted)));
    };
    if *word == "-" {
        Some(over(rest, behind_term(rest, Wanted::Nothing)))
    } else {
        None
    }
}

// The messages of these names.
fn names(alloc: Global, words: &[&str]) -> Result<Result<Names, Unfit>, AllocError>
    ensures { IfOk result (λ names. names ≡ with_names [] (map (λ word. word.now) words.now)) }
{
    let mut names = Vec::new(alloc);
    let mut rest = words;
    while let [word, behind @ ..] = rest {
        let Some(name) = name(word.as_bytes()) else {
            return Ok(Err(Unfit::before(behind, Wanted::Messages)));
        };
        names.push(name)?;
        rest = behind;
    }
    Ok(Ok(Names::new(names)))
}

/// Messages.
#[tactic(auto, unfolding(crate::specs::Reports::messages_of))]
pub(crate) fn messages(alloc: Global, words: &[&str]) -> Result<Result<Names, Unfit>, AllocError>
    ensures { IfOk result (λ names. names ≡ messages_of (map (λ word. word.now) words.now)) }
{
    match lone_dash(words, Wanted::Messages) {
        None => names(alloc, words),
        Some(Ok(())) => Ok(Ok(Names::new(Vec::new(alloc)))),
        Some(Err(unfit)) => Ok(Err(unfit)),
    }
}

// The decisions of these instances, which rise.
fn some_decisions(alloc: Global, words: &[&str]) -> Result<Result<Decisions, Unfit>, AllocError>
    ensures { IfOk result (λ decisions. decisions ≡ with_decisions [] 0 (map (λ word. word.now) words.now)) }
{
    let mut decisions = Vec::new(alloc);
    let mut last = 0;
    let mut rest = words;
    while let [word, behind @ ..] = rest {
        let Some(decision) = decision(alloc, last, word.as_bytes())? else {
            return Ok(Err(Unfit::before(behind, Wanted::Decisions)));
        };
        last = decision.instance;
        decisions.push(decision)?;
        rest = behind;
    }
    Ok(Ok(Decisions::new(decisions)))
}

/// Decisions.
#[tactic(auto, unfolding(crate::specs::Reports::decisions_of))]
pub(crate) fn decisions(
    alloc: Global,
    words: &[&str],
) -> Result<Result<Decisions, Unfit>, AllocError>
    ensures { IfOk result (λ decisions. decisions ≡ decisions_of (map (λ word. word.now) words.now)) }
{
    match lone_dash(words, Wanted::Decisions) {
        None => some_decisions(alloc, words),
        Some(Ok(())) => Ok(Ok(Decisions::new(Vec::new(alloc)))),
        Some(Err(unfit)) => Ok(Err(unfit)),
    }
}

// The table of these registers.
fn registers(words: &[&str]) -> Result<Table, Unfit>
    ensures { result ≡ with_registers zeros (map (λ word. word.now) words.now) }
{
    let mut table = Table::new();
    let mut rest = words;
    while let [word, behind @ ..] = rest {
        let Some(more) = with_register(table, word.as_bytes()) else {
            return Err(Unfit::before(behind, Wanted::Registers));
        };
        table = more;
        rest = behind;
    }
    Ok(table)
}

/// A table.
#[tactic(auto, unfolding(crate::specs::Reports::table_of))]
pub(crate) fn table(words: &[&str]) -> Result<Table, Unfit>
    ensures { result ≡ table_of (map (λ word. word.now) words.now) }
{
    match lone_dash(words, Wanted::Registers) {
        None => registers(words),
        Some(Ok(())) => Ok(Table::new()),
        Some(Err(unfit)) => Err(unfit),
    }
}

/// `ts` and a round, alone.
#[tactic(auto, unfolding(crate::specs::Reports::ts_of))]
pub(crate) fn ts(words: &[&str]) -> Result<Round, Unfit>
    ensures { result ≡ ts_of (map (λ word. word.now) words.now) }
{
    let [word, rest @ ..] = words else {
        return Err(Unfit::End(Wanted::Ts));
    };
    if *word == "ts" {
        lone_whole(rest, Wanted::Count)
    } else {
        Err(Unfit::before(rest, Wanted::Ts))
    }
}

// A value and its ts.
#[tactic(auto, unfolding(crate::specs::Reports::adopted_of))]
fn adopted(alloc: Global, words: &[&str]) -> Result<Result<Estimate, Unfit>, AllocError>
    ensures { IfOk result (λ estimate. estimate ≡ adopted_of (map (λ word. word.now) words.now)) }
{
    let [word, rest @ ..] = words else {
        return Ok(Err(Unfit::End(Wanted::Estimate)));
    };
    let (whole, behind) = glued(alloc, word, rest)?;
    let Some(names) = value(alloc, whole.as_bytes())? else {
        return Ok(Err(Unfit::before(rest, Wanted::Estimate)));
    };
    match ts(behind) {
        Ok(ts) => Ok(Ok(Estimate { names, ts })),
        Err(unfit) => {
            drop(names);
            Ok(Err(unfit))
        }
    }
}

/// An estimate, if there is one.
#[tactic(auto, unfolding(crate::specs::Reports::estimate_of))]
pub(crate) fn estimate(
    alloc: Global,
    words: &[&str],
) -> Result<Result<Option<Estimate>, Unfit>, AllocError>
    ensures { IfOk result (λ estimate. estimate ≡ estimate_of (map (λ word. word.now) words.now)) }
{
    match lone_dash(words, Wanted::Estimate) {
        None => Ok(adopted(alloc, words)?.map(Some)),
        Some(Ok(())) => Ok(Ok(None)),
        Some(Err(unfit)) => Ok(Err(unfit)),
    }
}
