//! The lines of a schedule, and goals, as text. Each line and each goal that a text says has one text here: its words with a space
//! between each two, numbers without zeros in front, sets and registers rising, messages of a value in the order of the text. What is
//! written of a line or of a goal is read as that line or goal ([`law_read_back`]), and each of them that is read can be written
//! ([`law_writable`]).
#![tactic(auto)]

mod acts;
mod cuts;
mod facts;
mod goals;
mod law;
mod lines;
mod members;
mod reports;
mod statements;

pub use acts::push_command;
pub use facts::push_fact;
pub use goals::{push_claim, push_goal, push_term};
pub use law::{law_read_back, law_writable};
pub use lines::push_line;
pub use statements::push_statement;
