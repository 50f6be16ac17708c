//! What was decided, by instances.

ghost use Rattle.std.specs.Prelude.{◌≡◌};

use super::decision::Decision;
use std::marker::Model;

/// Decisions, of rising instances.
#[derive(Drop)]
pub struct Decisions {
    decisions: Vec<Decision>,
}

// Contracts see the list of them.
impl Model for Decisions {
    ghost use Rattle.std.specs.Prelude.{List};
    ghost use Rattle.ct_grammar.specs.declared.reports.decision.Decision.{Decision};

    ghost Value = { List Decision };

    ghost view = { λ decisions. decisions.decisions.items };
}

impl Decisions {
    // These decisions.
    pub(crate) fn new(decisions: Vec<Decision>) -> Decisions
        ensures { result ≡ decisions.items }
    {
        Decisions { decisions }
    }

    /// The decisions.
    pub fn as_slice(&self) -> &[Decision]
        ensures { result.now ≡ self.now }
    {
        self.decisions.as_slice()
    }
}
