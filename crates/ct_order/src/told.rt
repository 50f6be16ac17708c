//! What lines of logs told first.

ghost use Rattle.std.specs.Prelude.{◌≡◌, IfOk, MatchOption, string_bytes};
ghost use Rattle.ct_order.specs.Knowing.{IsOther};

use crate::clash::Clash;
use crate::place::Place;
use std::alloc::{AllocError, Global};

/// The message at a position, or the state there, and the first line that tells it.
#[derive(Debug, Drop)]
pub struct Told {
    /// The line.
    pub place: Place,
    /// The message, or the state.
    pub word: String,
}

impl Told {
    // What a line contradicts that tells this word there.
    pub(crate) fn differing(&self, alloc: Global, word: &str) -> Result<Option<Clash>, AllocError>
        ensures { IfOk result (λ r. MatchOption r (string_bytes self.now.word ≡ word.now) (λ clash. IsOther self.now word.now clash)) }
    {
        if self.word.as_str() == word {
            return Ok(None);
        }
        Ok(Some(Clash::Other(Told {
            place: self.place,
            word: String::from_str(alloc, self.word.as_str())?,
        })))
    }
}
