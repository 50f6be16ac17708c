//! The names that every crate of the rehearsal speaks of: members and groups, commands, messages, refusals and
//! limits.
#![tactic(auto)]

mod book;
mod command;
mod group;
mod laws;
mod limit;
mod member_set;
mod message;
mod msg_set;
mod numbers;
mod refusal;
mod value_id;

pub use book::Book;
pub use command::Command;
pub use group::Group;
pub use laws::law_majorities;
pub use limit::{
    Limit, MAX_BOUND, MAX_CELLS, MAX_ENVELOPES, MAX_INSTANCES, MAX_MEMBERS, MAX_ROUNDS, MAX_STEPS,
    MAX_SUBMISSIONS, REGISTERS,
};
pub use member_set::MemberSet;
pub use message::Message;
pub use msg_set::MsgSet;
pub use numbers::{Instance, Member, Round, Serial};
pub use refusal::Refusal;
pub use value_id::ValueId;
