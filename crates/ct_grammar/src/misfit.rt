//! Why lines are not understood.

ghost use Rattle.std.specs.Prelude.{◌≡◌, ◌++◌, IfOk, OnOk, map, string_bytes};
ghost use Rattle.ct_grammar.specs.Misfits.{misfit_of, misfit_text, word_text, act_hint, hint_text, listed_text, names_text, shown_word};
ghost use Rattle.ct_grammar.specs.Misfits.{told};

use crate::near::near_name;
use crate::places::{denied, due, is_listed, names};
use crate::text::Text;
use crate::unfit::Unfit;
use crate::wanted::Wanted;
use std::alloc::{AllocError, Global};

/// How many bytes a word has at most that is told as it stands.
pub const LONGEST_WORD: usize = 64;

/// Why a line is not understood: the first word that does not fit, or its end, and what could stand there.
#[derive(Drop)]
pub struct Misfit {
    // None at the end of the line.
    word: Option<Text>,
    wanted: Wanted,
}

impl Misfit {
    /// Puts behind the text what is wrong with the line, as `recieve is no act; receive?`.
    #[tactic(auto, unfolding(crate::specs::Misfits::misfit_text))]
    pub fn push_onto(&self, text: &mut String) -> Result<(), AllocError>
        ensures { OnOk result (string_bytes text.new ≡ string_bytes text.old ++ misfit_text self.now) }
    {
        match &self.word {
            None => {
                text.push_str("the line ends where ")?;
                text.push_str(due(self.wanted))?;
                text.push_str(" is due")
            }
            Some(word) => push_word(text, word.as_str(), self.wanted),
        }
    }
}

/// Puts behind the text the act that is near to the word, as `; receive?`, or else the acts, as `: submit, receive, ..`.
pub fn push_act_hint(text: &mut String, word: &str) -> Result<(), AllocError>
    ensures { OnOk result (string_bytes text.new ≡ string_bytes text.old ++ act_hint word.now) }
{
    push_hint(text, word, Wanted::Act)
}

/// What does not fit among these words.
#[tactic(auto, unfolding(crate::specs::Misfits::misfit_of))]
pub(crate) fn misfit_of(alloc: Global, words: &[&str], unfit: Unfit) -> Result<Misfit, AllocError>
    ensures { IfOk result (λ misfit. misfit ≡ misfit_of (map (λ word. word.now) words.now) unfit) }
{
    match unfit {
        Unfit::End(wanted) => Ok(Misfit { word: None, wanted }),
        Unfit::Word(behind, wanted) => {
            let place = words.len().saturating_sub(1).saturating_sub(behind);
            let mut text = String::new(alloc);
            if let Some(word) = words.get(place) {
                text.push_str(word)?;
            }
            Ok(Misfit {
                word: Some(Text::new(text)),
                wanted,
            })
        }
    }
}

/// What the words say, or why they are not understood.
pub(crate) fn told<T: Drop>(
    alloc: Global,
    words: &[&str],
    said: Result<T, Unfit>,
) -> Result<Result<T, Misfit>, AllocError>
    ensures { IfOk result (λ found. found ≡ told (map (λ word. word.now) words.now) said) }
{
    match said {
        Ok(found) => Ok(Ok(found)),
        Err(unfit) => Ok(Err(misfit_of(alloc, words, unfit)?)),
    }
}

// What is said of a word.
#[tactic(auto, unfolding(crate::specs::Misfits::word_text))]
fn push_word(text: &mut String, word: &str, wanted: Wanted) -> Result<(), AllocError>
    ensures { OnOk result (string_bytes text.new ≡ string_bytes text.old ++ word_text word.now wanted) }
{
    push_shown(text, word)?;
    text.push_str(" ")?;
    text.push_str(denied(wanted))?;
    push_hint(text, word, wanted)
}

// The word; of a long one how many bytes it has.
#[tactic(auto, unfolding(crate::specs::Misfits::shown_word))]
fn push_shown(text: &mut String, word: &str) -> Result<(), AllocError>
    ensures { OnOk result (string_bytes text.new ≡ string_bytes text.old ++ shown_word word.now) }
{
    if word.len() <= LONGEST_WORD {
        return text.push_str(word);
    }
    let count = word.len();
    write!(text, "a word of {count} bytes")
}

// The name that is near to the word, or the names that could stand there.
#[tactic(auto, unfolding(crate::specs::Misfits::hint_text))]
fn push_hint(text: &mut String, word: &str, wanted: Wanted) -> Result<(), AllocError>
    ensures { OnOk result (string_bytes text.new ≡ string_bytes text.old ++ hint_text word.now wanted) }
{
    match near_name(word, names(wanted)) {
        Some(name) => {
            text.push_str("; ")?;
            text.push_str(name)?;
            text.push_str("?")
        }
        None => push_listed(text, wanted),
    }
}

// The names that could stand there, where they are told.
#[tactic(auto, unfolding(crate::specs::Misfits::listed_text))]
fn push_listed(text: &mut String, wanted: Wanted) -> Result<(), AllocError>
    ensures { OnOk result (string_bytes text.new ≡ string_bytes text.old ++ listed_text wanted) }
{
    if !is_listed(wanted) {
        return Ok(());
    }
    text.push_str(":")?;
    push_names(text, names(wanted))
}

// The names, with commas between them.
fn push_names(text: &mut String, names: &[&str]) -> Result<(), AllocError>
    ensures { OnOk result (string_bytes text.new ≡ string_bytes text.old ++ names_text (map (λ name. name.now) names.now)) }
{
    let Some((first, others)) = names.split_first() else {
        return Ok(());
    };
    text.push_str(" ")?;
    text.push_str(first)?;
    for name in others {
        text.push_str(", ")?;
        text.push_str(name)?;
    }
    Ok(())
}
