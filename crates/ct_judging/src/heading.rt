//! The numbers of a group.

use ct_names::Group;

/// How many cells a world has where a schedule doesn't say.
pub const USUAL_CELLS: u16 = 64;

/// The numbers of a group, as far as a schedule has given them.
#[derive(Clone, Copy, Debug)]
pub struct Heading {
    /// The group, once the number of its members is given.
    pub group: Option<Group>,
    /// The number of cells.
    pub cells: u16,
    /// The bound on a proposal.
    pub batch: u32,
}
