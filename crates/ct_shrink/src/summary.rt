//! What is told of a run that was made smaller.

ghost use Rattle.std.specs.Prelude.{Some};
ghost use Rattle.ct_shrink.specs.Summaries.{summary_text};

use std::fmt;

/// What is told of a run that was made smaller. Its text is the line for standard error.
#[derive(Clone, Copy, Debug, Drop, PartialEq, Eq)]
pub struct Summary {
    /// How many steps the record has.
    pub steps: usize,
    /// How many are left.
    pub left: usize,
    /// How many trials were made.
    pub trials: u32,
    /// Whether no more trials might be made.
    pub is_stopped: bool,
}

impl fmt::Display for Summary {
    ghost output = { λ summary. Some (summary_text summary) };

    fn fmt<W: fmt::Write>(&self, f: &mut fmt::Formatter<W>) -> fmt::Result {
        let (steps, left, trials) = (self.steps, self.left, self.trials);
        let unit = if trials == 1 { "trial" } else { "trials" };
        let after = if self.is_stopped {
            "stopped after "
        } else {
            ""
        };
        write!(
            f,
            "of {steps} steps {left} are left; {after}{trials} {unit}"
        )
    }
}

/// A run that was made smaller, as a text.
#[derive(Drop)]
pub struct SmallerRun {
    /// The text.
    pub text: Vec<u8>,
    /// What is told of the run.
    pub summary: Summary,
}
