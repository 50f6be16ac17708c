//! Words that stand first, and what stands behind them.

ghost use Rattle.std.specs.Prelude.{◌≡◌, ◌≤◌, IfOk, map};
ghost use Rattle.ct_grammar.specs.Leading.{number_first, member_first, whole_first, set_first, over, behind_term, or_and, lone_whole};
ghost use Rattle.ct_grammar.specs.Unfits.{map_ok};

use crate::numbers::{members, number_in};
use crate::unfit::Unfit;
use crate::wanted::Wanted;
use ct_names::{Member, MemberSet};

/// A number from `low` to `high`, and the words behind it.
#[tactic(auto, unfolding(crate::specs::Leading::number_first))]
pub(crate) fn number_first<'w, 'a>(
    words: &'w [&'a str],
    low: u64,
    high: u64,
    wanted: Wanted,
) -> Result<(u64, &'w [&'a str]), Unfit>
    ensures value { map_ok (λ r. (r.0, map (λ word. word.now) r.1.now)) result
        ≡ number_first low high wanted (map (λ word. word.now) words.now) }
    ensures within { IfOk result (λ r. r.0 ≤ high) }
{
    match words {
        [] => Err(Unfit::End(wanted)),
        [word, rest @ ..] => match number_in(word.as_bytes(), low, high) {
            Some(n) => Ok((n, rest)),
            None => Err(Unfit::before(rest, wanted)),
        },
    }
}

/// A member or a register, and the words behind it.
#[tactic(auto, unfolding(crate::specs::Leading::member_first))]
pub(crate) fn member_first<'w, 'a>(
    words: &'w [&'a str],
    wanted: Wanted,
) -> Result<(Member, &'w [&'a str]), Unfit>
    ensures { map_ok (λ r. (r.0, map (λ word. word.now) r.1.now)) result ≡ member_first wanted (map (λ word. word.now) words.now) }
{
    let (p, rest) = number_first(words, 0, u8::MAX as u64, wanted)?;
    Ok((p as u8, rest))
}

/// An instance, a round or an amount, and the words behind it.
#[tactic(auto, unfolding(crate::specs::Leading::whole_first))]
pub(crate) fn whole_first<'w, 'a>(
    words: &'w [&'a str],
    wanted: Wanted,
) -> Result<(u32, &'w [&'a str]), Unfit>
    ensures { map_ok (λ r. (r.0, map (λ word. word.now) r.1.now)) result ≡ whole_first wanted (map (λ word. word.now) words.now) }
{
    let (n, rest) = number_first(words, 0, u32::MAX as u64, wanted)?;
    Ok((n as u32, rest))
}

/// A set of members, and the words behind it.
#[tactic(auto, unfolding(crate::specs::Leading::set_first))]
pub(crate) fn set_first<'w, 'a>(words: &'w [&'a str]) -> Result<(MemberSet, &'w [&'a str]), Unfit>
    ensures { map_ok (λ r. (r.0, map (λ word. word.now) r.1.now)) result ≡ set_first (map (λ word. word.now) words.now) }
{
    match words {
        [] => Err(Unfit::End(Wanted::Set)),
        [word, rest @ ..] => match members(word.as_bytes()) {
            Some(set) => Ok((set, rest)),
            None => Err(Unfit::before(rest, Wanted::Set)),
        },
    }
}

/// No words; otherwise the first is left over.
#[tactic(auto, unfolding(crate::specs::Leading::over))]
pub(crate) fn over(words: &[&str], wanted: Wanted) -> Result<(), Unfit>
    ensures { result ≡ over wanted (map (λ word. word.now) words.now) }
{
    match words {
        [] => Ok(()),
        [_, rest @ ..] => Err(Unfit::before(rest, wanted)),
    }
}

/// What could stand in a goal in place of these words, where this could elsewhere: behind a term also `and`; there is no `or`.
#[tactic(auto, unfolding(crate::specs::Leading::behind_term))]
pub(crate) fn behind_term(words: &[&str], wanted: Wanted) -> Wanted
    ensures { result ≡ behind_term wanted (map (λ word. word.now) words.now) }
{
    match words {
        [] => wanted,
        [word, ..] if *word == "or" => Wanted::Or,
        _ => or_and(wanted),
    }
}

fn or_and(wanted: Wanted) -> Wanted
    ensures { result ≡ or_and wanted }
{
    match wanted {
        Wanted::Sender => Wanted::SenderOrAnd,
        _ => Wanted::And,
    }
}

/// An instance, a round or an amount, alone.
#[tactic(auto, unfolding(crate::specs::Leading::lone_whole))]
pub(crate) fn lone_whole(words: &[&str], wanted: Wanted) -> Result<u32, Unfit>
    ensures { result ≡ lone_whole wanted (map (λ word. word.now) words.now) }
{
    let (n, rest) = whole_first(words, wanted)?;
    over(rest, behind_term(rest, Wanted::Nothing))?;
    Ok(n)
}
