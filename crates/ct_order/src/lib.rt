//! Logs of any atomic broadcast, judged by what each process submitted and delivered: one order, no repeats, nothing that was not
//! submitted, and the same state behind the same deliveries.
#![tactic(auto)]

mod act;
mod asked;
mod clash;
mod event;
mod finding;
mod following;
mod json;
mod judged;
mod limits;
mod line;
mod no_line;
mod order_fault;
mod order_words;
mod others;
mod place;
mod plain;
mod reading;
mod report;
mod running;
mod scan;
mod settling;
mod standing;
mod stop;
mod table;
mod telling;
mod told;
mod wrong;

pub use act::Act;
pub use asked::Asked;
pub use judged::judged_logs;
pub use limits::{MAX_LINE, MAX_LINES, MAX_LOGS, MAX_WORD};
pub use order_fault::OrderFault;
pub use order_words::{order_asked, order_command};
pub use place::{Delivery, Place};
pub use reading::{Judged, LogEnd};
pub use running::order_logs;
pub use standing::Standing;
pub use table::Table;
pub use telling::accepted_text;
pub use told::Told;
