//! The numbers of what calls answer beside the refusals of steps, as `bindings/ct.h` has them.

/// Memory was refused.
pub(crate) const OUT_OF_MEMORY: u32 = 23;

/// The board refused a batch.
pub(crate) const BOARD: u32 = 24;

/// The world, the session, the walk or the shrinker is closed.
pub(crate) const NOT_OPEN: u32 = 25;

/// It is open.
pub(crate) const ALREADY_OPEN: u32 = 26;

/// No step has these numbers.
pub(crate) const BAD_STEP: u32 = 27;

/// There is no such group, or there are too many cells, or the bound is not one.
pub(crate) const BAD_SETUP: u32 = 28;

/// No line made a world yet.
pub(crate) const NO_WORLD: u32 = 29;

/// The run has more steps than a diagram shows.
pub(crate) const TOO_LONG: u32 = 30;

/// The text is no record.
pub(crate) const NO_RECORD: u32 = 31;

/// An option of a walk is out of its range.
pub(crate) const BAD_OPTIONS: u32 = 32;

/// No trial is left, or none is asked for.
pub(crate) const NO_TRIAL: u32 = 33;
