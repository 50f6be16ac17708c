//! What members send one another.

ghost use Rattle.std.specs.Prelude.{◌≡◌};
ghost use Rattle.ct_model.specs.Mapped.{wire_map};
ghost use Rattle.ct_model.specs.Wire.{instance_of, vote_round, value_of, decision_value};

use ct_names::{Instance, Member, Message, Round, ValueId};

/// What members send one another (Chandra and Toueg, section 6.2). `V` is the type of values of consensus, which go by
/// their numbers where nothing else is said.
#[derive(Clone, Copy, Debug, PartialEq, Eq)]
pub enum Wire<V = ValueId> {
    /// A message, broadcast.
    Data(Message),
    /// The estimate of `from` at the beginning of a round, and the round in which it took that value over.
    Est {
        instance: Instance,
        round: Round,
        from: Member,
        value: V,
        ts: Round,
    },
    /// The proposal of the round's coordinator.
    Prop {
        instance: Instance,
        round: Round,
        value: V,
    },
    /// `from` took the round's proposal over.
    Ack {
        instance: Instance,
        round: Round,
        from: Member,
    },
    /// `from` took the round's coordinator for crashed.
    Nack {
        instance: Instance,
        round: Round,
        from: Member,
    },
    /// The instance's decision, as the round's coordinator made it.
    Dec {
        instance: Instance,
        round: Round,
        value: V,
    },
}

impl<V: Copy> Wire<V> {
    /// The instance of consensus that it is of, None for a message.
    pub fn instance(&self) -> Option<Instance>
        ensures { result ≡ instance_of self.now }
    {
        match *self {
            Wire::Data(_) => None,
            Wire::Est { instance, .. }
            | Wire::Prop { instance, .. }
            | Wire::Ack { instance, .. }
            | Wire::Nack { instance, .. }
            | Wire::Dec { instance, .. } => Some(instance),
        }
    }

    /// The round that it is a vote of, None for a message and a decision.
    pub fn vote_round(&self) -> Option<Round>
        ensures { result ≡ vote_round self.now }
    {
        match *self {
            Wire::Data(_) | Wire::Dec { .. } => None,
            Wire::Est { round, .. }
            | Wire::Prop { round, .. }
            | Wire::Ack { round, .. }
            | Wire::Nack { round, .. } => Some(round),
        }
    }

    /// The value of consensus that it carries.
    pub fn value(&self) -> Option<V>
        ensures { result ≡ value_of self.now }
    {
        match *self {
            Wire::Est { value, .. } | Wire::Prop { value, .. } | Wire::Dec { value, .. } => {
                Some(value)
            }
            Wire::Data(_) | Wire::Ack { .. } | Wire::Nack { .. } => None,
        }
    }

    /// The value that it says is decided, None where it is no decision.
    pub fn decision(&self) -> Option<V>
        ensures { result ≡ decision_value self.now }
    {
        match *self {
            Wire::Dec { value, .. } => Some(value),
            _ => None,
        }
    }

    /// The same wire with nothing in place of a value.
    pub fn without_value(&self) -> Wire<()>
        ensures { result ≡ wire_map (λ _. tt) self.now }
    {
        match *self {
            Wire::Data(message) => Wire::Data(message),
            Wire::Est {
                instance,
                round,
                from,
                ts,
                ..
            } => Wire::Est {
                instance,
                round,
                from,
                value: (),
                ts,
            },
            Wire::Prop {
                instance,
                round,
                ..
            } => Wire::Prop {
                instance,
                round,
                value: (),
            },
            Wire::Ack {
                instance,
                round,
                from,
            } => Wire::Ack {
                instance,
                round,
                from,
            },
            Wire::Nack {
                instance,
                round,
                from,
            } => Wire::Nack {
                instance,
                round,
                from,
            },
            Wire::Dec {
                instance,
                round,
                ..
            } => Wire::Dec {
                instance,
                round,
                value: (),
            },
        }
    }
}
