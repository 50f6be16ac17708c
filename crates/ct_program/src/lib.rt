//! The program `ct` as a library: free runs and the command line, and with them what a program needs of records and
//! streams.
#![tactic(auto)]

mod call;
mod command_fault;
mod free_options;
mod freeing;
mod kind;
mod line_fault;
mod planning;
mod seeding;
mod words;

pub use call::{Asked, Call};
pub use command_fault::{CommandFault, answer_status};
pub use ct_records::{
    ProgramFault, ReadFault, Script, read_record, report, run_replay, write_record,
};
pub use ct_streams::{Counted, Failed, Sink, Source};
pub use free_options::{FreeOptions, MAX_EACH, MAX_RATE, MAX_TURNS};
pub use freeing::free;
pub use line_fault::LineFault;
pub use planning::{losses, postponements, repetitions, submissions};
pub use seeding::seeded;
pub use words::{found_options, line, seedless_options, with_free_options, with_seedless_options};
