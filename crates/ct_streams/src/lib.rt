//! What programs share that have to do with the outside: streams whose failures are counted, files, statuses, and the
//! arguments of command lines. It knows nothing of records and runs.
#![tactic(auto)]

mod arguments;
mod counted;
mod failed;
mod fault;
mod file_change;
mod file_fault;
mod files;
mod following;
mod given;
mod input_fault;
mod named_fault;
mod new_files;
mod pace;
mod reading;
mod sink;
mod source;
mod status;
mod wanted;
mod word_fault;
mod writing;

pub use arguments::{
    default_option, file_argument, files_argument, flag, is_set, number_for, number_in, option_in,
    required_option, subcommand, value_option,
};
pub use counted::Counted;
pub use failed::Failed;
pub use fault::{Fault, unless_broken};
pub use file_change::FileChange;
pub use file_fault::FileFault;
pub use files::Files;
pub use following::{MAX_IDLE, idle_in, idle_option};
pub use given::Given;
pub use input_fault::InputFault;
pub use named_fault::NamedFault;
pub use new_files::NewFiles;
pub use pace::Pace;
pub use reading::read_all;
pub use sink::Sink;
pub use source::Source;
pub use status::Status;
pub use wanted::Wanted;
pub use word_fault::WordFault;
pub use writing::write_all;
