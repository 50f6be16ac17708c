//! What is played in a world.

use crate::act::Act;
use crate::goal::Goal;
use crate::question::Question;
use crate::sides::Sides;
use crate::statement::Statement;
use crate::who::Who;
use ct_names::MemberSet;

/// What a line plays in a world.
#[derive(Drop)]
pub enum Play {
    /// `2 receive data 1.1`: these members take a step each.
    Act(Who, Act),
    /// `2 receive est 1/1 from 1 {1.1} ts 0`: the same, and what each step does has to be this.
    Stated(Who, Act, Statement),
    /// `1,3 turns 20 suspecting 2,3`: so many rounds in which each of these makes a turn, as a driver does whose failure
    /// detector suspects these.
    Turns(Who, u32, MemberSet),
    /// `all settle suspecting 2`: rounds of turns until in one of them nothing moved.
    Settle(Who, MemberSet),
    /// `all turns suspecting 2 until 1,3 delivered 1.1`: turns until the goal holds.
    Until(Who, MemberSet, Goal),
    /// `cut 1,2 | 3`: the group falls into sides.
    Cut(Sides),
    /// `heal`: there is no cut any more.
    Heal,
    /// `expect 1 delivered 1.1`: the goal has to hold.
    Expect(Goal),
    /// A question.
    Ask(Question),
}
