//! The registers of a table.

ghost use Rattle.std.specs.Prelude.{◌≡◌, ◌↔◌, ◌<◌, slice_get, IsTrue, IsSome};
ghost use Rattle.ct_names.specs.Command.{is_good};
ghost use Rattle.ct_table.specs.Table.{zeros, applied, applied_all};

use ct_names::{Command, Message, REGISTERS};
use std::marker::Model;

/// [`REGISTERS`] registers, numbered from 0. They hold 0 at first, and commands change them. Nothing takes memory.
#[derive(Clone, Copy, Debug, PartialEq, Eq)]
pub struct Table {
    registers: [u64; REGISTERS as usize],
}

// Contracts see the list of their values.
impl Model for Table {
    ghost use Rattle.std.specs.Prelude.{ℕ, List};

    ghost Value = { List ℕ };

    ghost view = { λ table. table.registers };

    ghost inverse = { λ values. record { registers = values } };
}

impl Table {
    /// The table in which each register holds 0.
    pub fn new() -> Table
        ensures { result ≡ zeros }
    {
        Table {
            registers: [0; REGISTERS as usize],
        }
    }

    /// The table after the command. Its registers have to be good.
    pub fn apply(&mut self, command: &Command)
        requires { IsTrue (is_good command.now) }
        ensures { self.new ≡ applied self.old command.now }
    {
        match *command {
            Command::Set(register, value) => self.registers[register as usize] = value,
            Command::Add(register, amount) => {
                let register = register as usize;
                self.registers[register] = self.registers[register].saturating_add(amount);
            }
            Command::Copy(from, to) => {
                self.registers[to as usize] = self.registers[from as usize];
            }
        }
    }

    /// The table after the commands of the messages, in order.
    pub fn apply_all(&mut self, messages: &[Message])
        ensures { self.new ≡ applied_all self.old messages.now }
    {
        for message in messages {
            self.apply(&message.command());
        }
    }

    /// The value of the register, or None from [`REGISTERS`] on.
    pub fn get(&self, register: u8) -> Option<u64>
        ensures value { result ≡ slice_get self.now register }
        ensures within { IsSome result ↔ (register < REGISTERS) }
    {
        self.registers.get(register as usize).copied()
    }
}

impl Default for Table {
    fn default() -> Table
        ensures { result ≡ zeros }
    {
        Table::new()
    }
}
