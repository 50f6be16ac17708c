//! The keys of a record that have numbers or steps.

ghost use Rattle.std.specs.Prelude.{◌≡◌};
ghost use Rattle.ct_told.specs.OddRecords.{key_text};

/// A key of a record, but for its version.
#[derive(Clone, Copy)]
pub(crate) enum Key {
    /// `batch`, the bound on a proposal.
    Batch,
    /// `cells`, the number of cells.
    Cells,
    /// `n`, the number of members.
    Members,
    /// `steps`, the list of steps.
    Steps,
}

/// The key as a record has it.
pub(crate) fn key_text(key: Key) -> &'static str
    ensures { result.now ≡ key_text key }
{
    match key {
        Key::Batch => "batch",
        Key::Cells => "cells",
        Key::Members => "n",
        Key::Steps => "steps",
    }
}
