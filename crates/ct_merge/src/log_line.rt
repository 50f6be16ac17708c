//! The lines of logs.

ghost use Rattle.std.specs.Prelude.{◌≡◌};
ghost use Rattle.ct_merge.specs.Proposers.{act_in, line_in, name_in, sender_in};

use crate::full_name::FullName;
use crate::log_act::LogAct;
use ct_grammar::{Carried, Statement};
use ct_names::{Group, Member};

/// A line of a member's log: what it did, and what that came to, where it is stated.
#[derive(Drop)]
pub struct LogLine {
    pub act: LogAct,
    pub said: Option<Statement>,
    /// The act receives a proposal that is named without its sender: 0 stands there until the group is known.
    pub lacks_sender: bool,
}

impl LogLine {
    /// Names the sender of a proposal that has none: in this group the round's coordinator.
    pub fn name_sender(&mut self, group: Group)
        ensures { self.new ≡ line_in group self.old }
    {
        if self.lacks_sender {
            self.act = act_in(group, self.act);
            self.lacks_sender = false;
        }
    }
}

fn act_in(group: Group, act: LogAct) -> LogAct
    ensures { result ≡ act_in group act }
{
    match act {
        LogAct::Receive(name) => LogAct::Receive(name_in(group, name)),
        _ => act,
    }
}

fn name_in(group: Group, name: FullName) -> FullName
    ensures { result ≡ name_in group name }
{
    FullName {
        carried: name.carried,
        from: sender_in(group, name.from, name.carried),
    }
}

// Who sends this: a proposal its round's coordinator, all else this member.
fn sender_in(group: Group, from: Member, carried: Carried) -> Member
    ensures { result ≡ sender_in group from carried }
{
    match carried {
        Carried::Prop(_, round) => group.coordinator(round),
        _ => from,
    }
}
