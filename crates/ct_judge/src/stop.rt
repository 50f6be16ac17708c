//! Why telling a schedule stops.

use ct_play::LineFault;
use std::alloc::AllocError;

// Why a line was not taken.
#[derive(Drop)]
pub(crate) enum Stop {
    // The line is refused; and the text of that.
    Told(LineFault, String),
    // Memory was refused.
    Memory,
    // A cell of the board refused a batch.
    BoardRefused,
}

impl From<AllocError> for Stop {
    ghost use Rattle.std.specs.Prelude.{◌≡◌};
    ghost use Rattle.ct_judge.specs.declared.stop.Stop.TheVariants.{Memory};

    ghost from_gives = { λ _ stop. stop ≡ Memory };

    fn from(_error: AllocError) -> Stop {
        Stop::Memory
    }
}
