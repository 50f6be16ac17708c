//! What stands at the front of a record's bytes: white space and marks, numbers, names, and the next of its steps.

mod kind;
mod naming;
mod numbers;
mod pairs;
mod plain;
mod quick;
mod spaced;
mod spacing;
mod words;

pub(crate) use naming::{commanded_step, named_command, numbered_step, short_step};
pub(crate) use numbers::number;
pub(crate) use plain::next_step;
pub(crate) use spaced::name;
pub(crate) use spacing::{is_white, mark};
