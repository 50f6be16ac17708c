//! Commands and steps by their names.

ghost use Rattle.std.specs.Prelude.{◌≡◌};
ghost use Rattle.std.specs.Str.{bytes_eq};
ghost use Rattle.ct_records.specs.Names.{named_command, short_step, numbered_step, commanded_step};

use ct_model::Step;
use ct_names::{Command, Member};

// The largest number of a member or a register, and the largest serial.
pub(crate) const BYTE: u64 = 255;

pub(crate) const SERIAL: u64 = 4_294_967_295;

// Whether the name is this text.
#[inline(always)]
fn is(name: &[u8], text: &str) -> bool
    ensures { result ≡ bytes_eq name.now text.now }
{
    name == text.as_bytes()
}

/// The command of a name, a register and one more number.
#[tactic(auto, unfolding(crate::specs::Names::named_command))]
#[inline(always)]
pub(crate) fn named_command(name: &[u8], register: u8, n: u64) -> Option<Command>
    ensures { result ≡ named_command name.now register n }
{
    if is(name, "set") {
        Some(Command::Set(register, n))
    } else if is(name, "add") {
        Some(Command::Add(register, n))
    } else if is(name, "copy") && n <= BYTE {
        Some(Command::Copy(register, n as u8))
    } else {
        None
    }
}

/// The step of a name and a member.
#[tactic(auto, unfolding(crate::specs::Names::short_step))]
#[inline(always)]
pub(crate) fn short_step(name: &[u8], p: Member) -> Option<Step>
    ensures { result ≡ short_step name.now p }
{
    if is(name, "begin") {
        Some(Step::Begin(p))
    } else if is(name, "enter") {
        Some(Step::Enter(p))
    } else if is(name, "adopt") {
        Some(Step::Adopt(p))
    } else if is(name, "suspect") {
        Some(Step::Suspect(p))
    } else if is(name, "conclude") {
        Some(Step::Conclude(p))
    } else if is(name, "deliver") {
        Some(Step::Deliver(p))
    } else if is(name, "follow") {
        Some(Step::Follow(p))
    } else if is(name, "crash") {
        Some(Step::Crash(p))
    } else {
        None
    }
}

/// The step of a name, a member and a number.
#[tactic(auto, unfolding(crate::specs::Names::numbered_step))]
#[inline(always)]
pub(crate) fn numbered_step(name: &[u8], p: Member, n: u64) -> Option<Step>
    ensures { result ≡ numbered_step name.now p n }
{
    if is(name, "receive") && n <= SERIAL {
        Some(Step::Receive(p, n as u32))
    } else if is(name, "choose") && n <= BYTE {
        Some(Step::Choose(p, n as u8))
    } else if is(name, "postpone") && n <= SERIAL {
        Some(Step::Postpone(p, n as u32))
    } else if is(name, "lose") && n <= SERIAL {
        Some(Step::Lose(p, n as u32))
    } else if is(name, "repeat") && n <= SERIAL {
        Some(Step::Repeat(p, n as u32))
    } else {
        None
    }
}

/// The step of a name, a member and a command.
#[tactic(auto, unfolding(crate::specs::Names::commanded_step))]
#[inline(always)]
pub(crate) fn commanded_step(name: &[u8], p: Member, command: Command) -> Option<Step>
    ensures { result ≡ commanded_step name.now p command }
{
    if is(name, "submit") {
        Some(Step::Submit(p, command))
    } else {
        None
    }
}
