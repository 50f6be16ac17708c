//! Steps by their numbers.

ghost use Rattle.std.specs.Prelude.{◌≡◌};
ghost use Rattle.ct_embed.specs.StepCodes.{behind_code, code, command_of, plain_step, short_step, step_code, step_of};

use ct_model::Step;
use ct_names::{Command, Member};

/// A step, by its numbers: its kind, its member and what stands behind.
#[repr(C)]
#[derive(Clone, Copy)]
pub struct StepCode {
    pub c: u64,
    pub a: u32,
    pub b: u8,
    pub kind: u8,
    pub member: u8,
}

impl StepCode {
    /// The step of these numbers.
    pub(crate) fn new(kind: u8, member: Member, a: u32, b: u8, c: u64) -> StepCode
        ensures { result ≡ code kind member a b c }
    {
        StepCode {
            c,
            a,
            b,
            kind,
            member,
        }
    }

    /// The numbers of no step.
    pub(crate) fn none() -> StepCode
        ensures { result ≡ behind_code 0 0 0 }
    {
        StepCode::behind(0, 0, 0)
    }

    /// The step's numbers.
    pub(crate) fn of(step: &Step) -> StepCode
        ensures { result ≡ step_code step.now }
    {
        match *step {
            Step::Submit(p, command) => StepCode::submit(p, command),
            Step::Receive(p, serial) => StepCode::behind(2, p, serial),
            Step::Begin(p) => StepCode::behind(3, p, 0),
            Step::Enter(p) => StepCode::behind(4, p, 0),
            Step::Choose(p, from) => StepCode::behind(5, p, u32::from(from)),
            Step::Adopt(p) => StepCode::behind(6, p, 0),
            Step::Suspect(p) => StepCode::behind(7, p, 0),
            Step::Conclude(p) => StepCode::behind(8, p, 0),
            Step::Deliver(p) => StepCode::behind(9, p, 0),
            Step::Follow(p) => StepCode::behind(10, p, 0),
            Step::Crash(p) => StepCode::behind(11, p, 0),
            Step::Postpone(p, serial) => StepCode::behind(12, p, serial),
            Step::Lose(p, serial) => StepCode::behind(13, p, serial),
            Step::Repeat(p, serial) => StepCode::behind(14, p, serial),
        }
    }

    fn submit(member: Member, command: Command) -> StepCode
        ensures { result ≡ step_code (Step.Submit member command) }
    {
        let (a, b, c) = match command {
            Command::Set(register, value) => (1, register, value),
            Command::Add(register, amount) => (2, register, amount),
            Command::Copy(from, to) => (3, from, u64::from(to)),
        };
        StepCode::new(1, member, a, b, c)
    }

    fn behind(kind: u8, member: Member, a: u32) -> StepCode
        ensures { result ≡ behind_code kind member a }
    {
        StepCode::new(kind, member, a, 0, 0)
    }

    /// The step that has these numbers, if one has.
    pub(crate) fn step(&self) -> Option<Step>
        ensures { result ≡ step_of self.now }
    {
        let p = self.member;
        if self.kind == 1 {
            return Some(Step::Submit(p, self.command()?));
        }
        if self.b != 0 || self.c != 0 {
            return None;
        }
        short_step(self.kind, p, self.a)
    }

    fn command(&self) -> Option<Command>
        ensures { result ≡ command_of self.now }
    {
        match self.a {
            1 => Some(Command::Set(self.b, self.c)),
            2 => Some(Command::Add(self.b, self.c)),
            3 => Some(Command::Copy(self.b, u8::try_from(self.c).ok()?)),
            _ => None,
        }
    }
}

// The step of a kind that has at most one number behind its member.
fn short_step(kind: u8, member: Member, a: u32) -> Option<Step>
    ensures { result ≡ short_step kind member a }
{
    match kind {
        2 => Some(Step::Receive(member, a)),
        5 => Some(Step::Choose(member, u8::try_from(a).ok()?)),
        12 => Some(Step::Postpone(member, a)),
        13 => Some(Step::Lose(member, a)),
        14 => Some(Step::Repeat(member, a)),
        _ if a == 0 => plain_step(kind, member),
        _ => None,
    }
}

// The step of a kind that has nothing behind its member.
fn plain_step(kind: u8, member: Member) -> Option<Step>
    ensures { result ≡ plain_step kind member }
{
    match kind {
        3 => Some(Step::Begin(member)),
        4 => Some(Step::Enter(member)),
        6 => Some(Step::Adopt(member)),
        7 => Some(Step::Suspect(member)),
        8 => Some(Step::Conclude(member)),
        9 => Some(Step::Deliver(member)),
        10 => Some(Step::Follow(member)),
        11 => Some(Step::Crash(member)),
        _ => None,
    }
}
