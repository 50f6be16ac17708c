//! Runs made smaller: of a record a smaller run that shows a goal too.
#![tactic(auto)]

mod candidates;
mod first_run;
mod kept_run;
mod line;
mod making;
mod moves;
mod naming;
mod naming_members;
mod options;
mod place;
mod playing;
mod progress;
mod running;
mod shrink_fault;
mod shrinker;
mod summary;
mod taking;
mod trials;
mod trying;
mod words;
mod writing;

pub use line::Line;
pub use making::{Shrunk, shrink};
pub use options::{Form, ShrinkOptions};
pub use progress::Progress;
pub use running::{smaller_of, write_smaller};
pub use shrink_fault::ShrinkFault;
pub use shrinker::Shrinker;
pub use summary::{SmallerRun, Summary};
pub use trials::Trials;
pub use words::{MOST_TRIES, shrink_command, shrink_options};
pub use writing::script_of;
