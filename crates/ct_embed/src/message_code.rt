//! Messages by their numbers.

ghost use Rattle.std.specs.Prelude.{◌≡◌};
ghost use Rattle.ct_embed.specs.MessageCodes.{message_code, no_message};

use ct_names::{Command, Message};

/// A message, by its numbers: its command's register and value, the kind of that command, its origin and its number.
#[repr(C)]
#[derive(Clone, Copy)]
pub struct MessageCode {
    pub value: u64,
    pub number: u32,
    pub origin: u8,
    pub command: u8,
    pub reg: u8,
}

impl MessageCode {
    // The numbers of no message.
    pub(crate) fn none() -> MessageCode
        ensures { result ≡ no_message }
    {
        MessageCode {
            value: 0,
            number: 0,
            origin: 0,
            command: 0,
            reg: 0,
        }
    }

    // The message's numbers.
    pub(crate) fn of(message: &Message) -> MessageCode
        ensures { result ≡ message_code message.now }
    {
        let (command, reg, value) = match message.command() {
            Command::Set(register, value) => (1, register, value),
            Command::Add(register, amount) => (2, register, amount),
            Command::Copy(from, to) => (3, from, u64::from(to)),
        };
        MessageCode {
            value,
            number: message.number(),
            origin: message.origin(),
            command,
            reg,
        }
    }
}
