//! What a record says.

ghost use Rattle.std.specs.Prelude.{◌≤◌};
ghost use Rattle.ct_names.specs.declared.limit.TheConstants.{MAX_BOUND, MAX_CELLS};

use ct_model::Step;
use ct_names::Group;

/// What a record says: the group, the number of cells (1,024 at most), the bound on the messages of a proposal (1 to
/// 1,048,560) and the steps in order.
#[derive(Debug, Drop)]
pub struct Script {
    pub group: Group,
    pub cells: u16,
    pub batch: u32,
    pub steps: Vec<Step>,
    ghost small: { cells ≤ MAX_CELLS },
    ghost some: { 1 ≤ batch },
    ghost bounded: { batch ≤ MAX_BOUND },
}
