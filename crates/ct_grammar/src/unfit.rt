//! Where a line stops to fit.

ghost use Rattle.std.specs.Prelude.{◌≡◌, length, map};
ghost use Rattle.ct_grammar.specs.declared.unfit.Unfit.TheVariants.{Word as Other};

use crate::wanted::Wanted;

/// Where a line stops to fit, and what could stand there.
#[derive(Clone, Copy)]
pub(crate) enum Unfit {
    /// The line ends there.
    End(Wanted),
    /// Another word stands there, with so many words behind it.
    Word(usize, Wanted),
}

impl Unfit {
    /// The word before these does not fit.
    pub(crate) fn before(words: &[&str], wanted: Wanted) -> Unfit
        ensures { result ≡ Other (length (map (λ word. word.now) words.now)) wanted }
    {
        Unfit::Word(words.len(), wanted)
    }
}
