//! What runs are looked for.

use crate::term::Term;
use std::marker::Model;

/// What a run shows: each of these terms, of which there is one at least. It is written as its terms, with `and` between them.
#[derive(Drop)]
pub struct Goal {
    /// The terms.
    pub terms: Vec<Term>,
}

// Contracts see the terms.
impl Model for Goal {
    ghost use Rattle.std.specs.Prelude.{List};
    ghost use Rattle.ct_grammar.specs.declared.term.Term.{Term};

    ghost Value = { List Term };

    ghost view = { λ goal. goal.terms.items };
}
