//! Messages, by their names.

ghost use Rattle.std.specs.Prelude.{◌≡◌};

use crate::claim::Name;
use std::marker::Model;

/// The names of messages, in order.
#[derive(Drop)]
pub struct Names {
    names: Vec<Name>,
}

// Contracts see the list of the names.
impl Model for Names {
    ghost use Rattle.std.specs.Prelude.{List};
    ghost use Rattle.ct_grammar.specs.declared.claim.Name.{Name};

    ghost Value = { List Name };

    ghost view = { λ names. names.names.items };
}

impl Names {
    /// These names.
    pub fn new(names: Vec<Name>) -> Names
        ensures { result ≡ names.items }
    {
        Names { names }
    }

    /// The names.
    pub fn as_slice(&self) -> &[Name]
        ensures { result.now ≡ self.now }
    {
        self.names.as_slice()
    }
}
