//! What a world is made with.

ghost use Rattle.std.specs.Prelude.{◌≡◌, ◌≤◌, ◌↔◌, IsSome, IfSome};
ghost use Rattle.ct_names.specs.declared.limit.TheConstants.{MAX_BOUND, MAX_CELLS};

use ct_names::{Group, MAX_BOUND, MAX_CELLS};

/// What a world is made with: its group, how many cells there are for batches (1,024 at most), and how many messages a
/// member proposes at most for an instance (1 to 1,048,560).
#[derive(Clone, Copy, Debug, PartialEq, Eq)]
pub struct Setup {
    pub group: Group,
    pub cells: u16,
    pub bound: u32,
    ghost few: { cells ≤ MAX_CELLS },
    ghost some: { 1 ≤ bound },
    ghost bounded: { bound ≤ MAX_BOUND },
}

impl Setup {
    /// These three; None where there are too many cells, or the bound is not one.
    pub fn new(group: Group, cells: u16, bound: u32) -> Option<Setup>
        ensures valid { IsSome result ↔ ((cells ≤ MAX_CELLS) × (1 ≤ bound) × (bound ≤ MAX_BOUND)) }
        ensures group { IfSome result (λ setup. setup.group ≡ group) }
        ensures cells { IfSome result (λ setup. setup.cells ≡ cells) }
        ensures bound { IfSome result (λ setup. setup.bound ≡ bound) }
    {
        if cells <= MAX_CELLS && 1 <= bound && bound <= MAX_BOUND {
            Some(Setup {
                group,
                cells,
                bound,
            })
        } else {
            None
        }
    }
}
