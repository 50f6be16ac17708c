//! Wires in few bytes.

ghost use Rattle.std.specs.Prelude.{◌≡◌, ℕ, List, true, length, if◌then◌else◌, is_some, nat_lt, IfSome, Some, None};
ghost use Rattle.std.specs.Int.{w32, from_le_bytes};
ghost use Rattle.ct_names.specs.Command.{is_good};
ghost use Rattle.ct_model.specs.declared.wire.Wire.{Wire as AnyWire};
ghost use Rattle.ct_model.specs.declared.wire.Wire.TheVariants.{Data};
ghost use Rattle.ct_network.specs.Packed.{is_readable, is_small, wire_of};

use ct_model::Wire;
use ct_names::{Command, Member, Message, ValueId};

/// A wire in 14 bytes. Larger numbers stand as their bytes, the lowest first, so that no bytes are left out between fields.
#[derive(Clone, Copy)]
pub(crate) enum Short {
    /// A message: its origin and number, the register that it sets, and to what value.
    Set(Member, u16, u8, [u8; 8]),
    /// A message: its origin and number, the register that it adds to, and the amount.
    Add(Member, u16, u8, [u8; 8]),
    /// A message: its origin and number, the register that it copies, and the one that it copies to.
    Copy(Member, u16, u8, u8),
    /// An estimate: from whom, the instance and the round, the timestamp, and the value.
    Est(Member, u16, u16, u16, [u8; 4]),
    /// A proposal: the instance, the round and the value.
    Prop(u16, u16, [u8; 4]),
    /// An acknowledgement: from whom, the instance and the round.
    Ack(Member, u16, u16),
    /// A refusal: from whom, the instance and the round.
    Nack(Member, u16, u16),
    /// A decision: the instance, the round and the value.
    Dec(u16, u16, [u8; 4]),
    /// The wire at this place of a list.
    Listed([u8; 4]),
}

impl Short {
    /// The wire with no list. None where a message's number, an instance, a round or a timestamp is above 65535.
    pub(crate) fn of(wire: &Wire) -> Option<Short>
        ensures small { is_some result ≡ is_small wire.now }
        ensures wire { IfSome result (λ short. (wires : List (AnyWire ℕ)) → wire_of wires short ≡ wire.now) }
        ensures readable { IfSome result (λ short. (n : ℕ) → is_readable n short ≡ true) }
    {
        match *wire {
            Wire::Data(message) => Short::of_message(&message),
            Wire::Est {
                instance,
                round,
                from,
                value,
                ts,
            } => Some(Short::Est(
                from,
                half(instance)?,
                half(round)?,
                half(ts)?,
                bytes_of(value),
            )),
            Wire::Prop {
                instance,
                round,
                value,
            } => Some(Short::Prop(half(instance)?, half(round)?, bytes_of(value))),
            Wire::Ack {
                instance,
                round,
                from,
            } => Some(Short::Ack(from, half(instance)?, half(round)?)),
            Wire::Nack {
                instance,
                round,
                from,
            } => Some(Short::Nack(from, half(instance)?, half(round)?)),
            Wire::Dec {
                instance,
                round,
                value,
            } => Some(Short::Dec(half(instance)?, half(round)?, bytes_of(value))),
        }
    }

    // The message with no list, where its number is small.
    fn of_message(message: &Message) -> Option<Short>
        ensures small { is_some result ≡ nat_lt message.now.number 65536 }
        ensures wire { IfSome result (λ short. (wires : List (AnyWire ℕ)) → wire_of wires short ≡ Data message.now) }
        ensures readable { IfSome result (λ short. (n : ℕ) → is_readable n short ≡ true) }
    {
        let origin = message.origin();
        let number = half(message.number())?;
        Some(match message.command() {
            Command::Set(register, value) => {
                Short::Set(origin, number, register, value.to_le_bytes())
            }
            Command::Add(register, amount) => {
                Short::Add(origin, number, register, amount.to_le_bytes())
            }
            Command::Copy(from, to) => Short::Copy(origin, number, from, to),
        })
    }

    /// The wire that it stands for, where these are the listed ones. Callers look at parts of it, so it is inlined.
    #[inline(always)]
    pub(crate) fn wire(self, wires: &[Wire]) -> Wire
        requires { is_readable (length wires.now) self ≡ true }
        ensures { result ≡ wire_of wires.now self }
    {
        match self {
            Short::Set(origin, number, register, value) => {
                let value = u64::from_le_bytes(value);
                data(origin, number, Command::Set(register, value))
            }
            Short::Add(origin, number, register, amount) => {
                let amount = u64::from_le_bytes(amount);
                data(origin, number, Command::Add(register, amount))
            }
            Short::Copy(origin, number, from, to) => data(origin, number, Command::Copy(from, to)),
            Short::Est(from, instance, round, ts, value) => Wire::Est {
                instance: u32::from(instance),
                round: u32::from(round),
                from,
                value: value_of(value),
                ts: u32::from(ts),
            },
            Short::Prop(instance, round, value) => Wire::Prop {
                instance: u32::from(instance),
                round: u32::from(round),
                value: value_of(value),
            },
            Short::Ack(from, instance, round) => Wire::Ack {
                instance: u32::from(instance),
                round: u32::from(round),
                from,
            },
            Short::Nack(from, instance, round) => Wire::Nack {
                instance: u32::from(instance),
                round: u32::from(round),
                from,
            },
            Short::Dec(instance, round, value) => Wire::Dec {
                instance: u32::from(instance),
                round: u32::from(round),
                value: value_of(value),
            },
            Short::Listed(at) => wires[u32::from_le_bytes(at) as usize],
        }
    }
}

// The message with a command of registers that are there.
#[inline(always)]
fn data(origin: Member, number: u16, command: Command) -> Wire
    requires { is_good command ≡ true }
    ensures { result ≡ Data (record { origin = origin; number = number; command = command }) }
{
    Wire::Data(Message::new(origin, u32::from(number), command).unwrap())
}

// The number in 16 bits, where it has no more.
fn half(number: u32) -> Option<u16>
    ensures { result ≡ (if nat_lt number 65536 then Some number else None) }
{
    u16::try_from(number).ok()
}

fn bytes_of(value: ValueId) -> [u8; 4]
    ensures { from_le_bytes w32 result ≡ value }
{
    value.number().to_le_bytes()
}

fn value_of(bytes: [u8; 4]) -> ValueId
    ensures { result ≡ from_le_bytes w32 bytes }
{
    ValueId::new(u32::from_le_bytes(bytes))
}
