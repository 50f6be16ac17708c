//! The names of messages, and what stands behind instances and registers, in words.

ghost use Rattle.std.specs.Prelude.{◌≡◌, IfOk, map, nat_eq, option_map, string_bytes, codes};
ghost use Rattle.std.specs.List.{ends_with};
ghost use Rattle.ct_grammar.specs.Names.{decision_of, glued, listed_first, listed_in, more_first, name_of, names_or_dash};
ghost use Rattle.ct_grammar.specs.Names.{names_within, shortened, value_of, with_register, within_braces};

use super::decision::Decision;
use super::listed::Listed;
use super::names::Names;
use crate::claim::Name;
use crate::numbers::{name_of_message, number_in, parted};
use ct_names::{Command, Instance, REGISTERS};
use ct_table::Table;
use std::alloc::{AllocError, Global};

/// The name of a message.
#[tactic(auto, unfolding(crate::specs::Names::name_of))]
pub(crate) fn name(word: &[u8]) -> Option<Name>
    ensures { result ≡ name_of word.now }
{
    let (origin, number) = name_of_message(word)?;
    Some(Name { origin, number })
}

// The names that stand between the commas.
#[tactic(auto, unfolding(crate::specs::Names::names_within))]
fn names_within(alloc: Global, word: &[u8]) -> Result<Option<Names>, AllocError>
    ensures { IfOk result (λ names. names ≡ names_within word.now) }
{
    let mut names = Vec::new(alloc);
    let mut rest = word;
    while let Some((part, behind)) = parted(rest, b',') {
        let Some(name) = name(part) else {
            return Ok(None);
        };
        names.push(name)?;
        rest = behind;
    }
    let Some(name) = name(rest) else {
        return Ok(None);
    };
    names.push(name)?;
    Ok(Some(Names::new(names)))
}

// The same; a dash for none.
#[tactic(auto, unfolding(crate::specs::Names::names_or_dash))]
fn names_or_dash(alloc: Global, word: &[u8]) -> Result<Option<Names>, AllocError>
    ensures { IfOk result (λ names. names ≡ names_or_dash word.now) }
{
    if word == b"-".as_slice() {
        Ok(Some(Names::new(Vec::new(alloc))))
    } else {
        names_within(alloc, word)
    }
}

/// An instance behind the last one, and its messages.
#[tactic(auto, unfolding(crate::specs::Names::decision_of))]
pub(crate) fn decision(
    alloc: Global,
    last: Instance,
    word: &[u8],
) -> Result<Option<Decision>, AllocError>
    ensures { IfOk result (λ decision. decision ≡ decision_of last word.now) }
{
    let Some((instance, names)) = parted(word, b':') else {
        return Ok(None);
    };
    let Some(instance) = number_in(instance, u64::from(last) + 1, u32::MAX as u64) else {
        return Ok(None);
    };
    match names_or_dash(alloc, names)? {
        Some(names) => Ok(Some(Decision {
            instance: instance as u32,
            names,
        })),
        None => Ok(None),
    }
}

// What stands between braces.
fn within_braces(word: &[u8]) -> Option<&[u8]>
    ensures { option_map (λ names. names.now) result ≡ within_braces word.now }
{
    let [b'{', rest @ ..] = word else {
        return None;
    };
    match parted(rest, b'}') {
        Some((names, [])) => Some(names),
        _ => None,
    }
}

/// The messages of a value.
#[tactic(auto, unfolding(crate::specs::Names::value_of))]
pub(crate) fn value(alloc: Global, word: &[u8]) -> Result<Option<Names>, AllocError>
    ensures { IfOk result (λ names. names ≡ value_of word.now) }
{
    match within_braces(word) {
        None => Ok(None),
        Some(names) => {
            if names.is_empty() {
                Ok(Some(Names::new(Vec::new(alloc))))
            } else {
                names_within(alloc, names)
            }
        }
    }
}

/// The word, and the words behind it as long as that ends with a comma; and the words behind them.
pub(crate) fn glued<'w, 'a>(
    alloc: Global,
    word: &str,
    words: &'w [&'a str],
) -> Result<(String, &'w [&'a str]), AllocError>
    ensures { IfOk result (λ r. (string_bytes r.0, map (λ word. word.now) r.1.now) ≡ glued word.now (map (λ word. word.now) words.now)) }
{
    let mut whole = String::new(alloc);
    whole.push_str(word)?;
    let mut rest = words;
    while let [next, behind @ ..] = rest {
        if !goes_on(whole.as_bytes()) {
            return Ok((whole, rest));
        }
        whole.push_str(next)?;
        rest = behind;
    }
    Ok((whole, rest))
}

// Whether the word ends with a comma.
fn goes_on(word: &[u8]) -> bool
    ensures { result ≡ ends_with nat_eq word.now (codes ",") }
{
    word.ends_with(b",")
}

/// The messages of a value, and the words behind them.
#[tactic(auto, unfolding(crate::specs::Names::listed_first))]
pub(crate) fn listed<'w, 'a>(
    alloc: Global,
    word: &str,
    words: &'w [&'a str],
) -> Result<Option<(Listed, &'w [&'a str])>, AllocError>
    ensures { IfOk result (λ r. option_map (λ r. (r.0, map (λ word. word.now) r.1.now)) r
        ≡ listed_first word.now (map (λ word. word.now) words.now)) }
{
    let (whole, rest) = glued(alloc, word, words)?;
    listed_in(alloc, whole.as_bytes(), rest)
}

// All messages of a value; otherwise some, and how many more there are.
#[tactic(auto, unfolding(crate::specs::Names::listed_in))]
fn listed_in<'w, 'a>(
    alloc: Global,
    word: &[u8],
    words: &'w [&'a str],
) -> Result<Option<(Listed, &'w [&'a str])>, AllocError>
    ensures { IfOk result (λ r. option_map (λ r. (r.0, map (λ word. word.now) r.1.now)) r
        ≡ listed_in word.now (map (λ word. word.now) words.now)) }
{
    match value(alloc, word)? {
        Some(names) => Ok(Some((Listed { names, more: 0 }, words))),
        None => shortened(alloc, word, words),
    }
}

// Some messages of a value, and how many more there are.
#[tactic(auto, unfolding(crate::specs::Names::shortened))]
fn shortened<'w, 'a>(
    alloc: Global,
    word: &[u8],
    words: &'w [&'a str],
) -> Result<Option<(Listed, &'w [&'a str])>, AllocError>
    ensures { IfOk result (λ r. option_map (λ r. (r.0, map (λ word. word.now) r.1.now)) r
        ≡ shortened word.now (map (λ word. word.now) words.now)) }
{
    let [b'{', inside @ ..] = word else {
        return Ok(None);
    };
    let Some((more, rest)) = more_first(words) else {
        return Ok(None);
    };
    match names_within(alloc, inside)? {
        None => Ok(None),
        Some(names) => Ok(Some((Listed { names, more }, rest))),
    }
}

// `and N more}`, and the words behind that.
#[tactic(auto, unfolding(crate::specs::Names::more_first))]
fn more_first<'w, 'a>(words: &'w [&'a str]) -> Option<(u32, &'w [&'a str])>
    ensures { option_map (λ r. (r.0, map (λ word. word.now) r.1.now)) result ≡ more_first (map (λ word. word.now) words.now) }
{
    let [and, count, more, rest @ ..] = words else {
        return None;
    };
    if *and == "and" && *more == "more}" {
        let n = number_in(count.as_bytes(), 1, u32::MAX as u64)?;
        Some((n as u32, rest))
    } else {
        None
    }
}

/// The table, where also a register that holds 0 has the number behind it.
#[tactic(auto, unfolding(crate::specs::Names::with_register))]
pub(crate) fn with_register(table: Table, word: &[u8]) -> Option<Table>
    ensures { result ≡ with_register table word.now }
{
    let (register, value) = parted(word, b'=')?;
    let register = number_in(register, 0, REGISTERS as u64 - 1)? as u8;
    let value = number_in(value, 1, u64::MAX)?;
    let mut table = table;
    match table.get(register) {
        Some(0) => {
            table.apply(&Command::Set(register, value));
            Some(table)
        }
        _ => None,
    }
}
