//! The turns of walks, by numbers.

ghost use Rattle.std.specs.Prelude.{◌≡◌};
ghost use Rattle.ct_embed.specs.WalkCodes.{no_turn, turn_code};

use crate::step_code::StepCode;
use ct_walk::Turn;

/// What a turn of a walk tries: a step, nothing, or that all turns were made, by the kind. Zeros where there is no turn.
#[repr(C)]
#[derive(Clone, Copy)]
pub struct TurnCode {
    pub step: StepCode,
    pub kind: u8,
}

impl TurnCode {
    // No turn.
    pub(crate) fn none() -> TurnCode
        ensures { result ≡ no_turn }
    {
        TurnCode {
            step: StepCode::none(),
            kind: 0,
        }
    }

    // The numbers of a turn.
    pub(crate) fn of(turn: &Turn) -> TurnCode
        ensures { result ≡ turn_code turn.now }
    {
        match turn {
            Turn::Step(step) => TurnCode {
                step: StepCode::of(step),
                kind: 1,
            },
            Turn::Rest => TurnCode {
                step: StepCode::none(),
                kind: 2,
            },
            Turn::Over => TurnCode {
                step: StepCode::none(),
                kind: 3,
            },
        }
    }
}
