//! The words of lines.

ghost use Rattle.std.specs.Prelude.{◌≡◌, ◌∷◌, ◌<◌, [], IfOk, IfSome, MatchOption, length, map};
ghost use Rattle.std.specs.List.{prefix_len, position_or_len};
ghost use Rattle.ct_grammar.specs.Words.{is_blank, begins_comment, words_of, begins_with};

use std::alloc::{AllocError, Global};

/// The words of the line that stand before its comment.
pub(crate) fn words_of<'a>(alloc: Global, line: &'a str) -> Result<Vec<&'a str>, AllocError>
    ensures { IfOk result (λ words. map (λ word. word.now) words.items ≡ words_of line.entry.now) }
{
    let mut words = Vec::new(alloc);
    let mut rest = line;
    while let Some((word, behind)) = next_word(rest) {
        words.push(word)?;
        rest = behind;
    }
    Ok(words)
}

// The first word and what stands behind it.
fn next_word(line: &str) -> Option<(&str, &str)>
    ensures words { MatchOption result (words_of line.now ≡ []) (λ r. words_of line.now ≡ r.0.now ∷ words_of r.1.now) }
    ensures shorter { IfSome result (λ r. length r.1.now < length line.now) }
{
    let rest = &line[blanks(line.as_bytes())..];
    let (word, behind) = rest.split_at(letters(rest.as_bytes()));
    if word.is_empty() {
        return None;
    }
    if begins_comment(word.as_bytes()) {
        return None;
    }
    Some((word, behind))
}

// How many blanks stand first.
fn blanks(text: &[u8]) -> usize
    ensures { result ≡ prefix_len is_blank text.now }
{
    for (i, c) in text.iter().enumerate() {
        if !is_blank(*c) {
            return i;
        }
    }
    text.len()
}

// How many bytes stand before the first blank.
fn letters(text: &[u8]) -> usize
    ensures { result ≡ position_or_len is_blank text.now }
{
    for (i, c) in text.iter().enumerate() {
        if is_blank(*c) {
            return i;
        }
    }
    text.len()
}

fn is_blank(c: u8) -> bool
    ensures { result ≡ is_blank c }
{
    c == b' ' || c == b'\t' || c == b'\r'
}

fn begins_comment(word: &[u8]) -> bool
    ensures { result ≡ begins_comment word.now }
{
    match word {
        [b'#', next, ..] => !next.is_ascii_digit(),
        [b'#'] => true,
        _ => false,
    }
}

/// Whether the word begins with this byte.
pub(crate) fn begins_with(word: &str, first: u8) -> bool
    ensures { result ≡ begins_with first word.now }
{
    match word.as_bytes() {
        [] => false,
        [c, ..] => *c == first,
    }
}
