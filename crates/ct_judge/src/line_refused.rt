//! Lines that were refused.

ghost use Rattle.ct_streams.specs.Statuses.{code};

use ct_streams::{Fault, Status};
use thiserror::Error;

/// A line of a session was refused where each has to be taken. Its text is the line for standard error.
#[derive(Clone, Copy, Debug, Drop, PartialEq, Eq, Error)]
#[error("a line was refused")]
pub struct LineRefused;

impl Fault for LineRefused {
    ghost use Rattle.ct_streams.specs.declared.status.Status.TheVariants.{Refused};

    ghost ends_with = { λ _. code Refused };

    fn status(&self) -> u8 {
        Status::Refused.code()
    }
}
