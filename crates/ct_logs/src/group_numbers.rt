//! The numbers of a group, as its logs give them.

ghost use Rattle.std.specs.Prelude.{◌≡◌, ◌≤◌, Some, None, IfErr, IfOk, IfSome, unwrap_or};
ghost use Rattle.ct_names.specs.declared.limit.TheConstants.{MAX_BOUND, MAX_CELLS, MAX_MEMBERS};
ghost use Rattle.ct_judging.specs.declared.heading.TheConstants.{USUAL_CELLS};
ghost use Rattle.ct_logs.specs.Silence.{IsNoLogs};
ghost use Rattle.ct_logs.specs.Sets.{AreJoined, joined};

use crate::merge_fault::MergeFault;
use ct_judge::USUAL_CELLS;
use ct_merge::Numbers;
use ct_names::{Group, MAX_BOUND, Member};
use ct_world::Setup;
use std::alloc::{AllocError, Global};

// The numbers of a group, as far as logs gave them.
#[derive(Clone, Copy, Drop)]
pub(crate) struct GroupNumbers {
    members: Option<u32>,
    cells: Option<u32>,
    batch: Option<u32>,
}

impl GroupNumbers {
    // None is given.
    pub(crate) fn new() -> GroupNumbers
        ensures { result ≡ record { members = None; cells = None; batch = None } }
    {
        GroupNumbers {
            members: None,
            cells: None,
            batch: None,
        }
    }

    // Those with which the world is made.
    pub(crate) fn of(setup: Setup) -> GroupNumbers {
        GroupNumbers {
            members: Some(u32::from(setup.group.n())),
            cells: Some(u32::from(setup.cells)),
            batch: Some(setup.bound),
        }
    }

    // With those of the log in the file of this name, unless one is another than was given.
    pub(crate) fn with(
        self,
        alloc: Global,
        name: &str,
        numbers: Numbers,
    ) -> Result<GroupNumbers, MergeFault>
        ensures ok { IfOk result (AreJoined self numbers) }
        ensures fault { IfErr result (IsNoLogs ((new : GroupNumbers) → AreJoined self numbers new → ⊥)) }
    {
        let (members, cells) = (members_of(numbers), cells_of(numbers));
        Ok(GroupNumbers {
            members: joined(alloc, name, "members", self.members, members)?,
            cells: joined(alloc, name, "cells", self.cells, cells)?,
            batch: joined(alloc, name, "batch", self.batch, numbers.batch)?,
        })
    }

    // What a world of the group is made with; up to this member where their number is not given. None: no group has these numbers.
    pub(crate) fn setup(self, last: Member) -> Option<Setup>
        ensures group { IfSome result (λ setup. setup.group ≡ unwrap_or self.members last) }
        ensures cells { IfSome result (λ setup. setup.cells ≡ unwrap_or self.cells USUAL_CELLS) }
        ensures bound { IfSome result (λ setup. setup.bound ≡ unwrap_or self.batch MAX_BOUND) }
        ensures some { IfSome result (λ setup. 1 ≤ setup.group) }
        ensures most { IfSome result (λ setup. setup.group ≤ MAX_MEMBERS) }
        ensures none { result ≡ None → 1 ≤ unwrap_or self.members last → unwrap_or self.members last ≤ MAX_MEMBERS →
            unwrap_or self.cells USUAL_CELLS ≤ MAX_CELLS → 1 ≤ unwrap_or self.batch MAX_BOUND →
            unwrap_or self.batch MAX_BOUND ≤ MAX_BOUND → ⊥ }
    {
        let members = u8::try_from(self.members.unwrap_or(u32::from(last))).ok()?;
        let cells = u16::try_from(self.cells.unwrap_or(u32::from(USUAL_CELLS))).ok()?;
        let group = Group::new(members)?;
        Setup::new(group, cells, self.batch.unwrap_or(MAX_BOUND))
    }
}

fn members_of(numbers: Numbers) -> Option<u32>
    ensures { result ≡ numbers.members }
{
    match numbers.members {
        Some(n) => Some(u32::from(n)),
        None => None,
    }
}

fn cells_of(numbers: Numbers) -> Option<u32>
    ensures { result ≡ numbers.cells }
{
    match numbers.cells {
        Some(n) => Some(u32::from(n)),
        None => None,
    }
}

// The number that was given, with the one that a log gives behind this word.
fn joined(
    alloc: Global,
    name: &str,
    word: &str,
    old: Option<u32>,
    new: Option<u32>,
) -> Result<Option<u32>, MergeFault>
    ensures ok { IfOk result (λ number. joined old new ≡ Some number) }
    ensures fault { IfErr result (IsNoLogs (joined old new ≡ None)) }
{
    let Some(number) = new else {
        return Ok(old);
    };
    match old {
        Some(given) if given != number => {
            Err(MergeFault::NoLogs(disagreeing(alloc, name, word, given, number)?))
        }
        _ => Ok(Some(number)),
    }
}

fn disagreeing(
    alloc: Global,
    name: &str,
    word: &str,
    given: u32,
    number: u32,
) -> Result<String, AllocError> {
    format!(in alloc; "{name}: {word} {number}, and a log before it has {word} {given}")
}
