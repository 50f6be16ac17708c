//! Which envelope is meant.

use crate::carried::Carried;
use ct_names::{Member, Serial};

/// Which envelope of a member's waiting line is meant.
#[derive(Clone, Copy, Debug, PartialEq, Eq)]
pub enum Pick {
    /// `#7`: the one of this serial.
    Serial(Serial),
    /// `est 1/1` or `est 1/1 from 3`: the first one that carries this, and that a step of this member sent, where one is named.
    First(Carried, Option<Member>),
}
