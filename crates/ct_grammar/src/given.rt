//! The numbers of the group.

/// A number of the group, which is given before its world is made.
#[derive(Clone, Copy, Debug, PartialEq, Eq)]
pub enum Given {
    /// `members 3`: the number of members, 1 to 16.
    Members(u8),
    /// `cells 4`: the number of cells, 0 to 1024.
    Cells(u16),
    /// `batch 2`: the bound on a proposal, 1 to 1048560.
    Batch(u32),
}
