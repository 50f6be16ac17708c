//! Why acts are refused.

ghost use Rattle.std.specs.Prelude.{Some};
ghost use Rattle.ct_grammar.specs.Reasons.{reason_text};

use ct_names::Refusal;
use std::fmt;

/// Why an act is refused. It is shown by its name, as `NotThere`, `Idle` or `Full(Steps)`.
#[derive(Clone, Copy, Debug, PartialEq, Eq)]
pub enum Reason {
    /// No envelope that is so named waits.
    NotThere,
    /// The envelope was sent on another side of a cut.
    Across,
    /// The rules refuse the step.
    Rules(Refusal),
}

impl fmt::Display for Reason {
    ghost output = { λ reason. Some (reason_text reason) };

    fn fmt<W: fmt::Write>(&self, f: &mut fmt::Formatter<W>) -> fmt::Result {
        match self {
            Reason::NotThere => f.write_str("NotThere"),
            Reason::Across => f.write_str("Across"),
            Reason::Rules(refusal) => write!(f, "{refusal}"),
        }
    }
}
