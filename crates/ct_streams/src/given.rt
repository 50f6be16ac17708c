//! What is given for an option.

ghost use Rattle.std.specs.Prelude.{Some};
ghost use Rattle.ct_streams.specs.WordFaults.{words_of, given_text};

use std::fmt;

/// What is given for an option. Its text has a space before each word.
#[derive(Clone, Copy, Debug, Drop)]
pub enum Given<'a> {
    /// Nothing.
    Nothing,
    /// One word.
    One(&'a str),
    /// Two words.
    Two(&'a str, &'a str),
}

impl fmt::Display for Given<'_> {
    ghost output = { λ given. Some (given_text (words_of given)) };

    fn fmt<W: fmt::Write>(&self, f: &mut fmt::Formatter<W>) -> fmt::Result {
        match *self {
            Given::Nothing => Ok(()),
            Given::One(word) => write!(f, " {word}"),
            Given::Two(first, second) => write!(f, " {first} {second}"),
        }
    }
}
