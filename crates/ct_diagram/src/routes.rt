//! The lines of envelopes.

ghost use Rattle.std.specs.Prelude.{◌≡◌, ◌≤◌, OnOk};
ghost use Rattle.ct_text.specs.Adds.{Adds};
ghost use Rattle.ct_diagram.specs.Grid.{spot_of};
ghost use Rattle.ct_diagram.specs.Routes.{edge_height, straight_text, over_text, left_text, route_text, reach, stub_end, stub_text};

use crate::grid::{Grid, LEFT, Spot};
use ct_names::Member;
use std::alloc::AllocError;

// To a place of the second member, from one of the first, or from the left edge where it began before the window.
pub(crate) fn push_route(
    text: &mut String,
    grid: Grid,
    begun: Option<u16>,
    from: Member,
    to: Member,
    place: u16,
) -> Result<(), AllocError>
    ensures { OnOk result (Adds text.old text.new (route_text grid begun from to place)) }
{
    match begun {
        None => push_left(text, grid, from, to, place),
        Some(begun) => {
            if grid.row(begun) == grid.row(place) {
                push_straight(
                    text,
                    from == to,
                    grid.spot(begun, from),
                    grid.spot(place, to),
                )
            } else {
                push_over(text, grid, from, to, begun, place)
            }
        }
    }
}

// In one row; a member's own over its line.
#[tactic(auto, unfolding(crate::specs::Routes::straight_text))]
fn push_straight(text: &mut String, is_own: bool, from: Spot, to: Spot) -> Result<(), AllocError>
    ensures { OnOk result (Adds text.old text.new (straight_text is_own from to)) }
{
    let Spot { x, y } = from;
    let (end, low) = (to.x, to.y);
    if is_own {
        let middle = (u64::from(x) + u64::from(end)) / 2;
        let high = y.saturating_sub(30);
        write!(text, "M{x} {y} Q{middle} {high} {end} {low}")
    } else {
        write!(text, "M{x} {y} L{end} {low}")
    }
}

// From a row to a later one: out at the right edge of the one, in at the left edge of the other.
#[tactic(auto, unfolding(crate::specs::Routes::over_text))]
fn push_over(
    text: &mut String,
    grid: Grid,
    from: Member,
    to: Member,
    begun: u16,
    place: u16,
) -> Result<(), AllocError>
    ensures { OnOk result (Adds text.old text.new (over_text grid from to begun place)) }
{
    let whole = place.saturating_sub(begun);
    let row = grid.row(begun);
    let out = (grid.half_columns() * (row + 1)).saturating_sub(u32::from(begun));
    let gone = u32::from(whole).saturating_sub(grid.within(place));
    let high = edge_height(grid, row, from, to, out, whole);
    let low = edge_height(grid, grid.row(place), from, to, gone, whole);
    let Spot { x, y } = grid.spot(begun, from);
    let end = grid.spot(place, to);
    let right = grid.right();
    let (endx, endy) = (end.x, end.y);
    write!(
        text,
        "M{x} {y} L{right} {high} M{LEFT} {low} L{endx} {endy}"
    )
}

// From the left edge.
#[tactic(auto, unfolding(crate::specs::Routes::left_text))]
fn push_left(
    text: &mut String,
    grid: Grid,
    from: Member,
    to: Member,
    place: u16,
) -> Result<(), AllocError>
    ensures { OnOk result (Adds text.old text.new (left_text grid from to place)) }
{
    let high = edge_height(grid, grid.row(place), from, to, 0, 1);
    let Spot { x, y } = grid.spot(place, to);
    write!(text, "M{LEFT} {high} L{x} {y}")
}

// Where a line from one member to another stands at an edge, after so many half columns of all that it goes over; a member's own
// stands over the member's.
#[tactic(auto, unfolding(crate::specs::Routes::edge_height))]
fn edge_height(grid: Grid, row: u32, from: Member, to: Member, gone: u32, whole: u16) -> u64
    requires { row ≤ 65535 }
    ensures { result ≡ edge_height grid row from to gone whole }
{
    let top = u64::from(grid.top(row));
    let first = u64::from(grid.lane()) * u64::from(from);
    let last = u64::from(grid.lane()) * u64::from(to);
    let whole = u64::from(whole);
    let gone = u64::from(gone);
    if from == to || whole == 0 {
        top + first.saturating_sub(14)
    } else {
        top + (first * whole.saturating_sub(gone) + last * gone) / whole
    }
}

// Only the beginning, the steeper the farther the receiver is.
#[tactic(auto, unfolding(crate::specs::Routes::stub_text))]
pub(crate) fn push_stub(
    text: &mut String,
    from: Member,
    to: Member,
    spot: Spot,
) -> Result<(), AllocError>
    ensures { OnOk result (Adds text.old text.new (stub_text from to spot)) }
{
    let Spot { x, y } = spot;
    let end = u64::from(x) + 14;
    let low = stub_end(from, to, u64::from(y));
    write!(text, "M{x} {y} L{end} {low}")
}

// How low it ends.
#[tactic(auto, unfolding(crate::specs::Routes::stub_end))]
fn stub_end(from: Member, to: Member, y: u64) -> u64
    requires { y ≤ 4294967295 }
    ensures { result ≡ stub_end from to y }
{
    if to < from {
        y.saturating_sub(reach(from - to))
    } else if to > from {
        y + reach(to - from)
    } else {
        y.saturating_sub(14)
    }
}

// How far it goes up or down towards a member so many lines away.
fn reach(lines: Member) -> u64
    ensures value { result ≡ reach lines }
    ensures low { result ≤ 27 }
{
    12 + 3 * u64::from(lines.min(5))
}
