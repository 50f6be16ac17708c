//! The commands that show a record: its report, steps and states, and whether it is replayed.
#![tactic(auto)]

mod answer;
mod check_options;
mod checked;
mod checking;
mod form;
mod running;
mod selected;
mod selection;
mod view;
mod words;

pub use answer::{Answer, shown};
pub use check_options::CheckOptions;
pub use checked::Checked;
pub use checking::check;
pub use form::Form;
pub use running::show;
pub use selection::Selection;
pub use view::View;
pub use words::{
    check_command, report_command, state_command, state_view, steps_command, steps_view,
};
