//! A run as a space-time diagram.
#![tactic(auto)]

mod arrows;
mod canvas;
mod drawing;
mod drawn;
mod frame;
mod grid;
mod marks;
mod routes;
mod running;
mod shades;
mod sight;
mod trail;
mod window;
mod words;

pub use drawing::diagram;
pub use running::draw;
pub use window::{MOST_STEPS, Window};
pub use words::{diagram_command, diagram_window};
