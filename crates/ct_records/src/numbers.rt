//! The numbers of a record.

ghost use Rattle.std.specs.Prelude.{◌≡◌, ◌≤◌, All, IfSome, IsTrue, Ok, Some, None, []};
ghost use Rattle.serde_json.specs.Data.{object, no_members};
ghost use Rattle.ct_records.specs.Fits.{AllFit};
ghost use Rattle.ct_records.specs.Members.{AddsNumber, IsBound, members_with};
ghost use Rattle.ct_records.specs.Script.{of_value, since};
ghost use Rattle.ct_records.specs.View.{rehearsal_of};

use crate::script::Script;
use crate::version::{BOUNDED, FIRST, LATEST, since};
use ct_model::Step;
use ct_names::{Group, MAX_BOUND, MAX_CELLS, MAX_MEMBERS, MAX_STEPS};
use ct_world::{Setup, World};

/// The numbers of a record that were read so far, by their keys.
#[derive(Clone, Copy)]
pub(crate) struct Numbers {
    pub batch: Option<u64>,
    pub cells: Option<u64>,
    pub n: Option<u64>,
    pub version: Option<u64>,
}

impl Numbers {
    /// None of them.
    pub(crate) fn none() -> Numbers
        ensures { members_with result None ≡ no_members }
    {
        Numbers {
            batch: None,
            cells: None,
            n: None,
            version: None,
        }
    }

    /// With the number at the key.
    pub(crate) fn with(self, key: &[u8], n: u64) -> Option<Numbers>
        ensures { IfSome result (AddsNumber key.now n self) }
    {
        let n = Some(n);
        if is(key, "batch") {
            Some(Numbers { batch: n, ..self })
        } else if is(key, "cells") {
            Some(Numbers { cells: n, ..self })
        } else if is(key, "n") {
            Some(Numbers { n, ..self })
        } else if is(key, "version") {
            Some(Numbers { version: n, ..self })
        } else {
            None
        }
    }

    /// What a world of these numbers is made with, where the bound is known.
    pub(crate) fn setup(self) -> Option<Setup> {
        let cells = self.cells?;
        let n = self.n?;
        let bound = self.bound()?;
        if cells > MAX_CELLS as u64 || n > MAX_MEMBERS as u64 || bound > MAX_BOUND as u64 {
            return None;
        }
        Setup::new(Group::new(n as u8)?, cells as u16, bound as u32)
    }

    // The bound: named, or the largest where the version names none.
    fn bound(self) -> Option<u64> {
        match self.batch {
            Some(bound) => Some(bound),
            None if self.version? < BOUNDED => Some(MAX_BOUND as u64),
            None => None,
        }
    }

    /// What a record of these numbers and steps says.
    pub(crate) fn script(self, steps: Vec<Step>) -> Option<Script>
        requires { AllFit steps.items }
        ensures { IfSome result (λ s. of_value (object (members_with self (Some steps.items))) ≡ Ok (rehearsal_of s)) }
    {
        let version = self.version?;
        let batch = bound(version, self.batch)?;
        let cells = self.cells?;
        let n = self.n?;
        if cells > MAX_CELLS as u64 || n > MAX_MEMBERS as u64 || steps.len() > MAX_STEPS {
            return None;
        }
        if !has_all(version, &steps) {
            return None;
        }
        Some(Script {
            group: Group::new(n as u8)?,
            cells: cells as u16,
            batch,
            steps,
        })
    }

    /// Whether they are those of the world's record, and records of their version have each of its steps.
    pub(crate) fn are_of(self, world: &World) -> bool
        requires { AllFit world.now.rehearsal.steps }
        ensures { IsTrue result → of_value (object (members_with self (Some world.now.rehearsal.steps))) ≡ Ok world.now.rehearsal }
    {
        let Some(version) = self.version else {
            return false;
        };
        let Some(cells) = self.cells else {
            return false;
        };
        let Some(n) = self.n else {
            return false;
        };
        let Some(batch) = bound(version, self.batch) else {
            return false;
        };
        if cells != u64::from(world.cells()) || n != u64::from(world.group().n()) {
            return false;
        }
        batch == world.bound() && has_all(version, world.record())
    }
}

// The bound of a record of the version: named, or the largest.
fn bound(version: u64, named: Option<u64>) -> Option<u32>
    ensures { IfSome result (λ bound. IsBound version named bound) }
{
    match named {
        Some(bound) if version == BOUNDED && 1 <= bound && bound <= MAX_BOUND as u64 => {
            Some(bound as u32)
        }
        None if FIRST <= version && version < BOUNDED => Some(MAX_BOUND),
        _ => None,
    }
}

// Whether records of the version have each of the steps. The last version has every step.
fn has_all(version: u64, steps: &[Step]) -> bool
    ensures { IsTrue result → All (λ s. since s ≤ version) steps.now }
{
    if version == LATEST {
        return true;
    }
    steps.iter().all(|step| since(*step) <= version)
}

/// Whether the key is this text.
pub(crate) fn is(key: &[u8], text: &str) -> bool
    ensures { IsTrue result → key.now ≡ text.now }
{
    key == text.as_bytes()
}
