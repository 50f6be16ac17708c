//! Which members a line is about, in words.

ghost use Rattle.std.specs.Prelude.{◌≡◌};
ghost use Rattle.ct_grammar.specs.Who.{who_of};

use crate::numbers::{byte, has_comma, members};
use crate::who::Who;

/// All members, several or one.
#[tactic(auto, unfolding(crate::specs::Who::who_of))]
pub(crate) fn who(word: &str) -> Option<Who>
    ensures { result ≡ who_of word.now }
{
    match word {
        "all" => Some(Who::All),
        _ => {
            let word = word.as_bytes();
            if has_comma(word) {
                Some(Who::Some(members(word)?))
            } else {
                Some(Who::One(byte(word)?))
            }
        }
    }
}
