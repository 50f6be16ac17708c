//! Where steps and members stand in a diagram, in units of it.

ghost use Rattle.std.specs.Prelude.{◌≡◌, ◌≤◌};
ghost use Rattle.ct_diagram.specs.Grid.{half_columns, row_of, within, lane, height, top_of, right_of, spot_of};

use ct_names::Member;

// The width of a step's column.
pub(crate) const COLUMN: u32 = 26;

// The left edge of a row.
pub(crate) const LEFT: u32 = 70;

// The least width of a diagram, and the middle of that: what is written on its right half falls to the left, and so stays inside.
pub(crate) const LEAST_WIDTH: u32 = 660;

pub(crate) const MIDDLE: u32 = 330;

// From a member to the next one, and the same in a group of more members than `FEW`.
pub(crate) const LANE: u32 = 76;

pub(crate) const LOW_LANE: u32 = 56;

pub(crate) const FEW: u8 = 8;

// From a row to the next one, beside its members.
pub(crate) const GAP: u32 = 56;

// A group of so many members, in rows of so many columns, 0 as 1. A place is counted in half columns from the left edge of the first
// row on, as if all rows were one.
#[derive(Clone, Copy, Drop)]
pub(crate) struct Grid {
    pub n: u8,
    pub columns: u16,
}

// A point of the diagram.
#[derive(Clone, Copy, Drop)]
pub(crate) struct Spot {
    pub x: u32,
    pub y: u32,
}

impl Grid {
    // How many half columns a row has.
    pub(crate) fn half_columns(self) -> u32
        ensures value { result ≡ half_columns self }
        ensures some { 2 ≤ result }
        ensures few { result ≤ 131070 }
    {
        if self.columns == 0 {
            2
        } else {
            2 * u32::from(self.columns)
        }
    }

    // The row of the place, counted from 0.
    pub(crate) fn row(self, place: u16) -> u32
        ensures value { result ≡ row_of self place }
        ensures few { result ≤ 65535 }
    {
        u32::from(place.saturating_sub(1)) / self.half_columns()
    }

    // How many half columns of its row stand before the place.
    pub(crate) fn within(self, place: u16) -> u32
        ensures value { result ≡ within self place }
        ensures few { result ≤ 65535 }
    {
        let before = u64::from(self.half_columns()) * u64::from(self.row(place));
        u64::from(place).saturating_sub(before) as u32
    }

    // How much higher than its first row a row stands.
    pub(crate) fn top(self, row: u32) -> u32
        requires { row ≤ 65535 }
        ensures value { result ≡ top_of self row }
        ensures few { result ≤ 1500000000 }
    {
        row * self.height()
    }

    // From a member to the next one.
    pub(crate) fn lane(self) -> u32
        ensures value { result ≡ lane self }
        ensures few { result ≤ 76 }
    {
        if self.n <= FEW { LANE } else { LOW_LANE }
    }

    // The height of a row.
    pub(crate) fn height(self) -> u32
        ensures value { result ≡ height self }
        ensures few { result ≤ 22000 }
    {
        self.lane() * u32::from(self.n) + GAP
    }

    // The right edge of a row.
    pub(crate) fn right(self) -> u32
        ensures { result ≡ right_of self }
    {
        LEFT + COLUMN / 2 * self.half_columns()
    }

    // The point of the place on the member's line.
    pub(crate) fn spot(self, place: u16, member: Member) -> Spot
        ensures { result ≡ spot_of self place member }
    {
        Spot {
            x: LEFT + COLUMN / 2 * self.within(place),
            y: self.top(self.row(place)) + self.lane() * u32::from(member),
        }
    }
}
