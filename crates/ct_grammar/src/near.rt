//! Names that are near to a word.

ghost use Rattle.std.specs.Prelude.{◌≡◌, map, drop, option_map};
ghost use Rattle.ct_grammar.specs.Near.{tail, behind_common, is_swapped, is_count_apart, is_near, near_by, near_name};

// How many letters a name has at least in which one may be missing or another: `<=` is no slip for `>=`.
const LETTERS: usize = 3;

// How a word and a name differ, the nearest first.
#[derive(Clone, Copy)]
pub(crate) enum Slip {
    // In the case of letters.
    Case,
    // A letter is more or less, or two are swapped.
    Count,
    // A letter is another.
    Letter,
}

/// The first of the names that is nearest to the word.
pub(crate) fn near_name(word: &str, names: &'static [&'static str]) -> Option<&'static str>
    ensures { option_map (λ name. name.now) result ≡ near_name word.now (map (λ name. name.now) names.now) }
{
    if let Some(name) = near_by(word, names, Slip::Case) {
        return Some(name);
    }
    if let Some(name) = near_by(word, names, Slip::Count) {
        return Some(name);
    }
    near_by(word, names, Slip::Letter)
}

// The first of them that differs so.
fn near_by(word: &str, names: &'static [&'static str], slip: Slip) -> Option<&'static str>
    ensures { option_map (λ name. name.now) result ≡ near_by slip word.now (map (λ name. name.now) names.now) }
{
    for name in names {
        if is_near(word, name, slip) {
            return Some(*name);
        }
    }
    None
}

// Whether they differ so.
#[tactic(auto, unfolding(crate::specs::Near::is_near))]
fn is_near(word: &str, name: &str, slip: Slip) -> bool
    ensures { result ≡ is_near slip word.now name.now }
{
    let is_long = name.len() >= LETTERS;
    let (rest, other) = behind_common(word.as_bytes(), name.as_bytes());
    match slip {
        Slip::Case => word.eq_ignore_ascii_case(name),
        Slip::Count => is_count_apart(is_long, rest, other),
        Slip::Letter => is_long && tail(rest) == tail(other),
    }
}

// What is left of the two behind their longest common beginning.
fn behind_common<'a, 'b>(word: &'a [u8], name: &'b [u8]) -> (&'a [u8], &'b [u8])
    ensures { (result.0.now, result.1.now) ≡ behind_common word.now name.now }
{
    let mut i = 0;
    while i < word.len() && i < name.len() && word[i] == name[i] {
        i += 1;
    }
    (&word[i..], &name[i..])
}

// Whether the word has the first letter more, or less, where it may, or the first two are swapped.
#[tactic(auto, unfolding(crate::specs::Near::is_count_apart))]
fn is_count_apart(may_lack: bool, word: &[u8], name: &[u8]) -> bool
    ensures { result ≡ is_count_apart may_lack word.now name.now }
{
    tail(word) == name || (may_lack && word == tail(name)) || is_swapped(word, name)
}

// What stands behind the first letter.
fn tail(word: &[u8]) -> &[u8]
    ensures { result.now ≡ tail word.now }
{
    match word {
        [] => word,
        [_, rest @ ..] => rest,
    }
}

// Whether the first two letters are swapped, and the others are the same.
#[tactic(auto, unfolding(crate::specs::Near::is_swapped))]
fn is_swapped(word: &[u8], name: &[u8]) -> bool
    ensures { result ≡ is_swapped word.now name.now }
{
    if word.len() < 2 || name.len() < 2 {
        return false;
    }
    word[0] == name[1] && word[1] == name[0] && word[2..] == name[2..]
}
