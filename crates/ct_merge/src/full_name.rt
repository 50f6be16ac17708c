//! The names of envelopes.

use ct_grammar::Carried;
use ct_names::Member;

/// The full name of an envelope: what it carries, and whose step sent it.
#[derive(Clone, Copy, PartialEq, Eq, Hash)]
pub struct FullName {
    pub carried: Carried,
    pub from: Member,
}
