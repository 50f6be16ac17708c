//! The atomic steps of a rehearsal.

ghost use Rattle.std.specs.Prelude.{◌≡◌, Some};
ghost use Rattle.std.specs.List.{concat};
ghost use Rattle.ct_model.specs.Actor.{actor};
ghost use Rattle.ct_model.specs.StepText.{amount, command_entry, step_entry, rest_texts, step_text, tail_text};

use ct_names::{Command, Member, Serial};
use std::fmt;

/// One atomic step of a member, which comes first. The numbers are plain: a step may name what isn't there, and is then
/// refused. It is shown as a record has it, as `["submit",1,["set",0,7]]`.
#[derive(Clone, Copy, Debug, PartialEq, Eq)]
pub enum Step {
    /// The member broadcasts its next message, with this command.
    Submit(Member, Command),
    /// The member receives the envelope of this serial, and relays what it receives for the first time.
    Receive(Member, Serial),
    /// The member opens its next instance, and proposes of what it received and didn't deliver the first messages, as
    /// many as the bound or all.
    Begin(Member),
    /// The member enters the next round: its estimate goes to the round's coordinator.
    Enter(Member),
    /// The coordinator proposes the estimate of the second member, which has the largest ts that it heard.
    Choose(Member, Member),
    /// The member takes the coordinator's proposal over, and acks it.
    Adopt(Member),
    /// The member takes the coordinator for crashed, and sends it a nack.
    Suspect(Member),
    /// The coordinator ends its round: where a majority acked, its estimate is the decision, which goes to all.
    Conclude(Member),
    /// The member delivers the decision of its open instance, and closes it.
    Deliver(Member),
    /// The member has no instance open: it begins its next one, delivers that instance's decision, and closes it, all at
    /// once. It proposes and sends nothing.
    Follow(Member),
    /// The member stops for good.
    Crash(Member),
    /// The serial moves to the end of the member's waiting line.
    Postpone(Member, Serial),
    /// The serial leaves the member's waiting line, and is not received.
    Lose(Member, Serial),
    /// A serial that was sent to the member, and was received or lost, joins the end of its waiting line again.
    Repeat(Member, Serial),
}

impl Step {
    /// The member that takes the step.
    pub fn member(&self) -> Member
        ensures { result ≡ actor self.now }
    {
        match *self {
            Step::Submit(member, _) => member,
            Step::Receive(member, _) => member,
            Step::Begin(member) => member,
            Step::Enter(member) => member,
            Step::Choose(member, _) => member,
            Step::Adopt(member) => member,
            Step::Suspect(member) => member,
            Step::Conclude(member) => member,
            Step::Deliver(member) => member,
            Step::Follow(member) => member,
            Step::Crash(member) => member,
            Step::Postpone(member, _) => member,
            Step::Lose(member, _) => member,
            Step::Repeat(member, _) => member,
        }
    }

    /// What it is shown by: its word, its member and what stands behind the member.
    fn entry(&self) -> (&'static str, Member, Tail)
        ensures word { result.0.now ≡ (step_entry self.now).name }
        ensures first { result.1 ≡ (step_entry self.now).first }
        ensures tail { tail_text result.2 ≡ concat (rest_texts (step_entry self.now).rest) }
    {
        match *self {
            Step::Submit(p, command) => ("submit", p, Tail::Command(command)),
            Step::Receive(p, serial) => ("receive", p, Tail::Number(u64::from(serial))),
            Step::Begin(p) => ("begin", p, Tail::Nothing),
            Step::Enter(p) => ("enter", p, Tail::Nothing),
            Step::Choose(p, from) => ("choose", p, Tail::Number(u64::from(from))),
            Step::Adopt(p) => ("adopt", p, Tail::Nothing),
            Step::Suspect(p) => ("suspect", p, Tail::Nothing),
            Step::Conclude(p) => ("conclude", p, Tail::Nothing),
            Step::Deliver(p) => ("deliver", p, Tail::Nothing),
            Step::Follow(p) => ("follow", p, Tail::Nothing),
            Step::Crash(p) => ("crash", p, Tail::Nothing),
            Step::Postpone(p, serial) => ("postpone", p, Tail::Number(u64::from(serial))),
            Step::Lose(p, serial) => ("lose", p, Tail::Number(u64::from(serial))),
            Step::Repeat(p, serial) => ("repeat", p, Tail::Number(u64::from(serial))),
        }
    }
}

/// What stands behind a step's member.
#[derive(Clone, Copy)]
enum Tail {
    Nothing,
    Number(u64),
    Command(Command),
}

impl fmt::Display for Tail {
    ghost output = { λ tail. Some (tail_text tail) };

    #[tactic(auto, unfolding(crate::specs::StepText::command_text))]
    fn fmt<W: fmt::Write>(&self, f: &mut fmt::Formatter<W>) -> fmt::Result {
        match *self {
            Tail::Nothing => Ok(()),
            Tail::Number(number) => write!(f, ",{number}"),
            Tail::Command(command) => {
                let (word, register, number) = command_entry(command);
                write!(f, ",[\"{word}\",{register},{number}]")
            }
        }
    }
}

/// What a command is shown by: its word and its numbers.
fn command_entry(command: Command) -> (&'static str, u8, u64)
    ensures word { result.0.now ≡ (command_entry command).name }
    ensures first { result.1 ≡ (command_entry command).first }
    ensures rest { result.2 ≡ amount (command_entry command).rest }
{
    match command {
        Command::Set(register, value) => ("set", register, value),
        Command::Add(register, value) => ("add", register, value),
        Command::Copy(from, to) => ("copy", from, u64::from(to)),
    }
}

impl fmt::Display for Step {
    ghost output = { λ step. Some (step_text step) };

    fn fmt<W: fmt::Write>(&self, f: &mut fmt::Formatter<W>) -> fmt::Result {
        let (word, member, tail) = self.entry();
        write!(f, "[\"{word}\",{member}{tail}]")
    }
}
