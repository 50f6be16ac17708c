//! The plain numbers that steps, wires and messages carry.

/// A member of a group, counted from 1.
pub type Member = u8;

/// A round of an instance of consensus, counted from 1; 0 before the first.
pub type Round = u32;

/// An instance of consensus, counted from 1; 0 before the first.
pub type Instance = u32;

/// The place of an envelope among all that were sent, counted from 1.
pub type Serial = u32;
