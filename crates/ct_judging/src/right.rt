//! What would be right in place of steps that are refused.

use ct_model::Phase;
use ct_names::{Member, Round};

/// What would be right in place of a step that is refused.
#[derive(Clone, Copy, Debug, Drop)]
pub enum Right {
    /// Nothing is told of it.
    Untold,
    /// More cells.
    MoreCells,
    /// A step of this phase.
    Phase(Phase),
    /// The estimate of this member was not heard.
    Unheard(Member),
    /// The estimate of this member, or another one with this ts, the largest that was heard.
    Largest { from: Member, ts: Round },
    /// So many estimates as are needed.
    Estimates { heard: u8, needed: u8 },
    /// So many replies as are needed.
    Replies { came: u8, needed: u8 },
    /// The proposal of this round; the last that was received is that of another one.
    Proposal { round: Round, last: Option<Round> },
}
