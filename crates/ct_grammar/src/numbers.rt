//! The numbers of lines.

ghost use Rattle.std.specs.Prelude.{◌≡◌, ◌-◌, ◌<◌, ◌≤◌, Some, None, IfSome, if◌then◌else◌, option_map, position, length, ◌==◌, ◌∷◌, []};
ghost use Rattle.std.specs.Prelude.{IfNone, is_some};
ghost use Rattle.std.specs.Char.{is_ascii_digit};
ghost use Rattle.std.specs.List.{slice_split};
ghost use Rattle.ct_names.specs.Group.{IsMember};
ghost use Rattle.ct_names.specs.declared.limit.TheConstants.{MAX_MEMBERS};
ghost use Rattle.ct_grammar.specs.Numbers.{number_of, number_in, IsParted, parted, two_numbers, members_of, max_u8, max_u32};
ghost use Rattle.ct_grammar.specs.Numbers.{has_comma};

use ct_names::{MAX_MEMBERS, Member, MemberSet};

// The number that the word writes, where it is decimal digits alone and the number is at most `high`.
#[tactic(auto, unfolding(crate::specs::Numbers::number_of))]
fn number(word: &[u8], high: u64) -> Option<u64>
    ensures value { result ≡ number_of high word.now }
    ensures within { IfSome result (λ n. n ≤ high) }
{
    if word.is_empty() {
        return None;
    }
    let mut n = 0u64;
    for c in word {
        n = n.checked_mul(10)?.checked_add(digit(*c)?)?;
    }
    if n <= high { Some(n) } else { None }
}

// The number that the byte writes.
fn digit(c: u8) -> Option<u64>
    ensures value { result ≡ (if is_ascii_digit c then Some (c - 48) else None) }
    ensures some { IfSome result (λ n. n ≡ c - 48) }
    ensures small { IfSome result (λ n. n < 10) }
{
    if c.is_ascii_digit() {
        Some((c - b'0') as u64)
    } else {
        None
    }
}

/// The number that the word writes, where it is decimal digits alone, and the number is at most `high` and at least `low`.
#[tactic(auto, unfolding(crate::specs::Numbers::number_in))]
pub(crate) fn number_in(word: &[u8], low: u64, high: u64) -> Option<u64>
    ensures value { result ≡ number_in low high word.now }
    ensures low { IfSome result (λ n. low ≤ n) }
    ensures high { IfSome result (λ n. n ≤ high) }
{
    let n = number(word, high)?;
    if low <= n { Some(n) } else { None }
}

/// A member, or a register: any number of its type.
pub(crate) fn byte(word: &[u8]) -> Option<u8>
    ensures { result ≡ number_of max_u8 word.now }
{
    let n = number(word, u8::MAX as u64)?;
    Some(n as u8)
}

/// A serial, an instance, a round or an amount.
pub(crate) fn whole(word: &[u8]) -> Option<u32>
    ensures { result ≡ number_of max_u32 word.now }
{
    let n = number(word, u32::MAX as u64)?;
    Some(n as u32)
}

/// What stands before the first such byte, and what stands behind it.
#[tactic(auto, unfolding(crate::specs::Numbers::parted))]
pub(crate) fn parted(word: &[u8], at: u8) -> Option<(&[u8], &[u8])>
    ensures value { option_map (λ parts. (parts.0.now, parts.1.now)) result ≡ parted at word.now }
    ensures one { IfNone result (slice_split (λ c. c == at) word.now ≡ word.now ∷ []) }
    ensures two { IfSome result (λ parts. IsParted at word.now parts.0.now parts.1.now) }
{
    let i = first(word, at)?;
    Some((&word[..i], &word[i + 1..]))
}

// The place of the first such byte.
fn first(word: &[u8], at: u8) -> Option<usize>
    ensures place { result ≡ position (λ c. c == at) word.now }
    ensures within { IfSome result (λ i. i < length word.now) }
{
    word.iter().position(|c| *c == at)
}

/// A member and a number of its own, with a dot between them.
#[tactic(auto, unfolding(crate::specs::Numbers::two_numbers))]
pub(crate) fn name_of_message(word: &[u8]) -> Option<(u8, u32)>
    ensures { result ≡ two_numbers 46 max_u8 max_u32 word.now }
{
    let (origin, number) = parted(word, b'.')?;
    Some((byte(origin)?, whole(number)?))
}

/// An instance and a round, with a slash between them.
#[tactic(auto, unfolding(crate::specs::Numbers::two_numbers))]
pub(crate) fn place(word: &[u8]) -> Option<(u32, u32)>
    ensures { result ≡ two_numbers 47 max_u32 max_u32 word.now }
{
    let (instance, round) = parted(word, b'/')?;
    Some((whole(instance)?, whole(round)?))
}

/// The set of the members that stand between the commas, each 1 to 16; None where one of them is none.
#[tactic(auto, unfolding(crate::specs::Numbers::members_of))]
pub fn members(word: &[u8]) -> Option<MemberSet>
    ensures { result ≡ members_of word.now }
{
    let mut set = MemberSet::new();
    let mut rest = word;
    while let Some((part, behind)) = parted(rest, b',') {
        set.insert(member(part)?);
        rest = behind;
    }
    set.insert(member(rest)?);
    Some(set)
}

/// A member of a group.
pub(crate) fn member(word: &[u8]) -> Option<Member>
    ensures value { result ≡ number_in 1 MAX_MEMBERS word.now }
    ensures good { IfSome result (IsMember MAX_MEMBERS) }
{
    let n = number_in(word, 1, MAX_MEMBERS as u64)?;
    Some(n as u8)
}

/// Whether the word has a comma.
pub(crate) fn has_comma(word: &[u8]) -> bool
    ensures { result ≡ has_comma word.now }
{
    first(word, b',').is_some()
}
