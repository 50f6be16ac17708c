//! The limits of a rehearsal.

ghost use Rattle.std.specs.Prelude.{◌≡◌, Some};
ghost use Rattle.ct_names.specs.RefusalText.{limit_text};

use crate::{Instance, Round};
use std::fmt;

/// How many members a group has at most.
pub const MAX_MEMBERS: u8 = 16;

/// How many registers a table has.
pub const REGISTERS: u8 = 16;

/// How many messages a member submits at most.
pub const MAX_SUBMISSIONS: u32 = 65_535;

/// How many instances a member begins at most.
pub const MAX_INSTANCES: Instance = 1_024;

/// How many rounds an instance has at most.
pub const MAX_ROUNDS: Round = 10_000;

/// How many envelopes are sent at most.
pub const MAX_ENVELOPES: usize = 1_000_000;

/// The largest bound on the messages of a proposal: as many as can be pending, so that it bounds nothing.
pub const MAX_BOUND: u32 = 1_048_560;

/// How many cells for batches a world has at most.
pub const MAX_CELLS: u16 = 1_024;

/// How many steps a record has at most.
pub const MAX_STEPS: usize = 1_000_000;

/// A limit that a step would pass, in the order of testing.
#[derive(Clone, Copy, Debug, PartialEq, Eq)]
pub enum Limit {
    /// [`MAX_SUBMISSIONS`] of each member.
    Submissions,
    /// [`MAX_INSTANCES`] begun by a member.
    Instances,
    /// [`MAX_ROUNDS`] of one instance.
    Rounds,
    /// [`MAX_ENVELOPES`] sent.
    Envelopes,
    /// As many batches posted as the world has cells.
    Cells,
    /// [`MAX_STEPS`] in the record.
    Steps,
}

impl Limit {
    /// The limit's name, as `Envelopes`.
    pub fn name(&self) -> &'static str
        ensures { result.now ≡ limit_text self.now }
    {
        match self {
            Limit::Submissions => "Submissions",
            Limit::Instances => "Instances",
            Limit::Rounds => "Rounds",
            Limit::Envelopes => "Envelopes",
            Limit::Cells => "Cells",
            Limit::Steps => "Steps",
        }
    }
}

impl fmt::Display for Limit {
    ghost output = { λ limit. Some (limit_text limit) };

    fn fmt<W: fmt::Write>(&self, f: &mut fmt::Formatter<W>) -> fmt::Result {
        f.write_str(self.name())
    }
}
