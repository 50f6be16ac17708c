//! Messages.

ghost use Rattle.std.specs.Prelude.{◌≡◌, true, Some, None, if◌then◌else◌};
ghost use Rattle.ct_names.specs.Command.{is_good};
ghost use Rattle.ct_names.specs.MessageText.{message_text};

use crate::command::Command;
use crate::numbers::Member;
use std::fmt;
use std::marker::Model;

/// The number-th command that a member broadcasts, counted from 1. Its registers are good: no message has others.
/// Messages are ordered by origin, then number, then command, and shown as `origin.number`.
#[derive(Clone, Copy, Debug, PartialEq, Eq, PartialOrd, Ord, Hash)]
pub struct Message {
    origin: Member,
    number: u32,
    command: Command,
}

impl Model for Message {
    ghost use Rattle.std.specs.Prelude.{IsTrue};
    ghost use Rattle.ct_names.specs.Command.{is_good};
    ghost use Rattle.ct_names.specs.Message.{Message as Plain};

    ghost Value = { Plain };

    ghost view = { λ m. record { origin = m.origin; number = m.number; command = m.command } };

    ghost invariant = { λ m. IsTrue (is_good m.command) };

    ghost inverse = { λ m. record { origin = m.origin; number = m.number; command = m.command } };
}

impl Message {
    /// The message, or None where a register of the command is 16 or more.
    pub fn new(origin: Member, number: u32, command: Command) -> Option<Message>
        ensures { result ≡ (if is_good command then Some (record { origin = origin; number = number; command = command }) else None) }
    {
        if command.good() {
            Some(Message {
                origin,
                number,
                command,
            })
        } else {
            None
        }
    }

    /// The member that broadcasts it.
    pub fn origin(&self) -> Member
        ensures { result ≡ self.now.origin }
    {
        self.origin
    }

    /// Its number among the messages of its origin.
    pub fn number(&self) -> u32
        ensures { result ≡ self.now.number }
    {
        self.number
    }

    /// Its command, whose registers are good.
    pub fn command(&self) -> Command
        ensures value { result ≡ self.now.command }
        ensures good { is_good result ≡ true }
    {
        self.command
    }
}

impl fmt::Display for Message {
    ghost output = { λ m. Some (message_text m) };

    fn fmt<W: fmt::Write>(&self, f: &mut fmt::Formatter<W>) -> fmt::Result {
        write!(f, "{}.{}", self.origin, self.number)
    }
}
