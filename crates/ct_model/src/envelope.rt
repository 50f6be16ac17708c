//! Wires on their way.

ghost use Rattle.std.specs.Prelude.{◌≡◌};
ghost use Rattle.ct_model.specs.Mapped.{without_value};

use crate::wire::Wire;
use ct_names::{Member, ValueId};

/// A wire, and the member that it goes to. Its serial is its place among all that were sent, counted from 1.
#[derive(Clone, Copy, Debug, PartialEq, Eq)]
pub struct Envelope<V = ValueId> {
    /// The member that gets it, counted from 1.
    pub to: Member,
    /// What it carries.
    pub wire: Wire<V>,
}

impl<V: Copy> Envelope<V> {
    /// The same envelope with nothing in place of a value.
    pub fn without_value(&self) -> Envelope<()>
        ensures { result ≡ without_value self.now }
    {
        Envelope {
            to: self.to,
            wire: self.wire.without_value(),
        }
    }
}
