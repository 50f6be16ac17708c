//! Options whose values are refused.

use crate::fault::Fault;
use crate::given::Given;
use crate::status::Status;
use crate::wanted::Wanted;
use std::fmt;
use std::marker::Model;

/// An option of a command line that is given what it may not have. Its text is the line for standard error: the option, what
/// is given for it, and what would be right.
#[derive(Debug, Drop)]
pub struct WordFault<'a> {
    option: &'a str,
    given: Given<'a>,
    wanted: Wanted<'a>,
}

// Contracts see of it its line.
impl<'a> Model for WordFault<'a> {
    ghost use Rattle.std.specs.Prelude.{ℕ, List};
    ghost use Rattle.ct_streams.specs.WordFaults.{fault_line, wanted_text, words_of};

    ghost Value = { List ℕ };

    ghost view = { λ f. fault_line f.option.now (words_of f.given) (wanted_text f.wanted) };
}

impl<'a> WordFault<'a> {
    ghost use Rattle.std.specs.Prelude.{◌≡◌};
    ghost use Rattle.ct_streams.specs.WordFaults.{fault_line, wanted_text, words_of};

    /// The fault of this option.
    pub fn new(option: &'a str, given: Given<'a>, wanted: Wanted<'a>) -> WordFault<'a>
        ensures { result ≡ fault_line option.entry.now (words_of given.entry) (wanted_text wanted.entry) }
    {
        WordFault {
            option,
            given,
            wanted,
        }
    }
}

impl Fault for WordFault<'_> {
    ghost use Rattle.ct_streams.specs.Statuses.{code};
    ghost use Rattle.ct_streams.specs.declared.status.Status.TheVariants.{Words};

    ghost ends_with = { λ _. code Words };

    fn status(&self) -> u8 {
        Status::Words.code()
    }
}

impl fmt::Display for WordFault<'_> {
    ghost use Rattle.std.specs.Prelude.{Some};

    ghost output = { λ line. Some line };

    fn fmt<W: fmt::Write>(&self, f: &mut fmt::Formatter<W>) -> fmt::Result {
        write!(f, "--{}{}: {}", self.option, self.given, self.wanted)
    }
}
