//! The group of a schedule.

ghost use Rattle.std.specs.Prelude.{IfErr};
ghost use Rattle.ct_enact.specs.Faults.{IsOfScheme};

use crate::enact_fault::{EnactFault, limit};
use ct_names::{MAX_CELLS, MAX_MEMBERS};
use ct_order::LogEnd;
use std::alloc::{AllocError, Global};

/// The group of a schedule: a member for each log, in their order, and as many others, which deliver all, as make those that deliver
/// the last message a majority.
#[derive(Clone, Copy, Drop)]
pub(crate) struct Cast<'a> {
    /// Where the logs end.
    pub ends: &'a [LogEnd],
    /// How many members there are.
    pub members: usize,
    /// How many messages are delivered.
    pub most: u64,
}

impl<'a> Cast<'a> {
    // The group for logs that end so.
    pub(crate) fn new(alloc: Global, ends: &'a [LogEnd]) -> Result<Cast<'a>, EnactFault>
        ensures { IfErr result IsOfScheme }
    {
        let most = most_of(ends);
        if most > u64::from(MAX_CELLS) {
            return Err(limit(format!(in alloc;
                "{most} deliveries, and a schedule has at most {MAX_CELLS}"
            )));
        }
        let last = ends.iter().filter(|end| end.standing.most == most).count();
        let others = ends
            .len()
            .saturating_add(1)
            .saturating_sub(last.saturating_mul(2));
        let members = ends.len().saturating_add(others);
        if members > usize::from(MAX_MEMBERS) {
            return Err(limit(format!(in alloc;
                "{members} members are needed, and a group has at most {MAX_MEMBERS}"
            )));
        }
        Ok(Cast {
            ends,
            members,
            most,
        })
    }

    // Whether the member at this place delivers a message behind so many others.
    fn delivers(&self, place: usize, at: u64) -> bool {
        match self.ends.get(place) {
            Some(end) => end.standing.most > at,
            None => true,
        }
    }

    // Whether a process has just so many deliveries.
    pub(crate) fn has_end(&self, at: u64) -> bool {
        self.ends.iter().any(|end| end.standing.most == at)
    }

    // Puts the members behind the text that deliver a message behind so many others, or those that don't; none, where there are none.
    pub(crate) fn push(
        &self,
        text: &mut String,
        before: &str,
        at: u64,
        delivers: bool,
    ) -> Result<(), AllocError> {
        let mut between = before;
        for place in 0..self.members {
            if self.delivers(place, at) == delivers {
                write!(text, "{between}{}", place + 1)?;
                between = ",";
            }
        }
        Ok(())
    }
}

// The most deliveries that a process had.
fn most_of(ends: &[LogEnd]) -> u64 {
    let mut most = 0u64;
    for end in ends {
        most = most.max(end.standing.most);
    }
    most
}
