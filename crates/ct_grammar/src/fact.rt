//! What lines expect of members.

use crate::act::Act;
use crate::pick::Pick;
use crate::reason::Reason;
use crate::reports::{Decisions, Estimate, Names};
use ct_model::Phase;
use ct_names::{Instance, MemberSet, Round};
use ct_table::Table;

/// What a line of a schedule expects of a member.
#[derive(Drop)]
pub enum Fact {
    /// `up`
    Up,
    /// `crashed`
    Crashed,
    /// `idle`: it has no open instance.
    Idle,
    /// `instance 2`: the last one that it began, 0 before the first.
    Instance(Instance),
    /// `round 3`: the round that it is in.
    Round(Round),
    /// `phase Gather`
    Phase(Phase),
    /// `received 1.1 2.1`: the messages that it received, in order.
    Received(Names),
    /// `decided 1:1.1,2.1`: the decisions that it got.
    Decided(Decisions),
    /// `delivered 1.1 2.1`: the messages that it delivered, in order.
    Delivered(Names),
    /// `table 0=7 1=12`: its table, whose other registers hold 0.
    Table(Table),
    /// `refuses enter Decided`: the act is refused, for this reason.
    Refuses(Act, Reason),
    /// `may enter`: the act would be allowed.
    May(Act),
    /// `waiting 3`: so many envelopes wait at the member.
    Waiting(u32),
    /// `waits est 1/1 from 3`: one that is so named waits at the member.
    Waits(Pick),
    /// `heard 1,3`, or `heard -`: the members whose estimates of its round it has.
    Heard(MemberSet),
    /// `acked 1,3`, or `acked -`: the members whose acks of its round it has.
    Acked(MemberSet),
    /// `estimate {1.1,2.1} ts 1`, or `estimate -`: its estimate, if it has an open instance.
    Estimate(Option<Estimate>),
}
