//! Where an envelope is looked for.

use ct_grammar::Carried;
use ct_names::Member;

/// An envelope's receiver and what it carries, as a key.
#[derive(Clone, Copy, Drop, PartialEq, Eq, Hash)]
pub(crate) struct Address {
    pub(crate) to: Member,
    pub(crate) carried: Carried,
}
