//! Logs whose ends may be lost, merged into one run with steps that are presumed behind them.
//!
//! Where logs are incomplete, a member did something behind the end of its log by which others received what that doesn't show. Such
//! steps are looked for one by one, by what the others' logs say that they received and what is stated there; which ones, no contract says.
#![tactic(auto)]

mod ends;
mod presuming;
mod presumption;
mod receipts;
mod rounds_behind;
mod stated;

pub use presuming::presume;
pub use presumption::Presumption;
