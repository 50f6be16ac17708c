//! What workers call between their turns.

ghost use Rattle.std.specs.Prelude.{◌<◌};

use std::sync::Wait;

/// What each worker of a run calls before and after each of its turns, while it doesn't hold the world's lock. A call may
/// wait for others.
pub trait Gate: Sync {
    /// Called before a turn. Workers are numbered from 1: first the members, then the scripts; the turns of each from 1.
    fn before<R: Wait>(&self, rt: &R, worker: u32, turn: u32)
        requires worker { 0 < worker }
        requires turn { 0 < turn };

    /// Called after that turn.
    fn after<R: Wait>(&self, rt: &R, worker: u32, turn: u32)
        requires worker { 0 < worker }
        requires turn { 0 < turn };
}

/// A gate that does nothing.
#[derive(Clone, Copy, Debug, PartialEq, Eq)]
pub struct NoGate;

impl Gate for NoGate {
    fn before<R: Wait>(&self, _rt: &R, _worker: u32, _turn: u32) {}

    fn after<R: Wait>(&self, _rt: &R, _worker: u32, _turn: u32) {}
}
