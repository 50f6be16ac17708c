//! Searches of seeds in threads: the answer is that of one seed after the other, whatever the number of threads.
#![tactic(auto)]

mod again;
mod call;
mod count_text;
mod count_writing;
mod counting;
mod fault;
mod found_seed;
mod hit;
mod progress;
mod quoting;
mod search;
mod searching;
mod several;
mod spread;
mod tally;
mod tried;
mod words;
mod writing;

pub use again::Again;
pub use call::FindCall;
pub use count_text::CountForm;
pub use count_writing::write_count;
pub use counting::count_in_threads;
pub use fault::{FindFault, NotFound};
pub use found_seed::FoundSeed;
pub use hit::Hit;
pub use progress::{Progress, Silent};
pub use quoting::quoted_goal;
pub use searching::find_in_threads;
pub use several::first_hits;
pub use spread::Spread;
pub use tally::Tally;
pub use tried::Tried;
pub use words::{count_form, find_call, find_command};
pub use writing::{Found, write_found};
