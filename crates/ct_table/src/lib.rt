//! The table of registers that a member's delivered messages make.
#![tactic(auto)]

mod table;

pub use table::Table;
