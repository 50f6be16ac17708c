//! Why no schedule of logs is written.

ghost use Rattle.ct_enact.specs.Faults.{IsOfScheme, status_of};

use ct_order::OrderFault;
use ct_streams::Fault;
use std::alloc::AllocError;
use thiserror::Error;

/// Why no schedule of logs is written. Its text is the line for standard error.
#[derive(Debug, Drop, Error)]
pub enum EnactFault {
    /// The logs are not accepted, a stream failed, or memory was refused.
    #[error("{0}")]
    Order(OrderFault),
    /// They have no schedule here.
    #[error("limit: {0}")]
    Limit(String),
}

impl Fault for EnactFault {
    ghost ends_with = { λ fault. status_of fault };

    // 8 for a limit, else that of the logs.
    fn status(&self) -> u8 {
        match self {
            EnactFault::Order(fault) => fault.status(),
            EnactFault::Limit(_) => 8,
        }
    }
}

impl From<AllocError> for EnactFault {
    ghost use Rattle.std.specs.Prelude.{◌≡◌};
    ghost use Rattle.ct_order.specs.declared.order_fault.OrderFault.TheVariants.{Memory};
    ghost use Rattle.ct_enact.specs.declared.enact_fault.EnactFault.TheVariants.{Order};

    ghost from_gives = { λ _ fault. fault ≡ Order Memory };

    fn from(_error: AllocError) -> EnactFault {
        EnactFault::Order(OrderFault::Memory)
    }
}

// The limit of this text.
pub(crate) fn limit(text: Result<String, AllocError>) -> EnactFault
    ensures { IsOfScheme result }
{
    match text {
        Ok(text) => EnactFault::Limit(text),
        Err(_) => EnactFault::Order(OrderFault::Memory),
    }
}
