//! What stands behind a step: which round each member is in, who has crashed, and the number of each fifth column's step.

ghost use Rattle.std.specs.Prelude.{◌≡◌, ◌≤◌, ◌+◌, OnOk, option_map};
ghost use Rattle.ct_text.specs.Adds.{Adds};
ghost use Rattle.ct_diagram.specs.Grid.{spot_of};
ghost use Rattle.ct_diagram.specs.Shades.{class_of, round_class, rect_text, shade_text, first_shades, rule_text, digits_text};
ghost use Rattle.ct_diagram.specs.Shades.{this_number, number_text, shades};

use crate::drawn::Drawn;
use crate::grid::{COLUMN, Grid, Spot};
use ct_model::Phase;
use ct_names::{Member, Round};
use ct_world::World;
use std::alloc::AllocError;

// What stands behind the world's last step, where it has a column.
pub(crate) fn push_shades(
    text: &mut String,
    world: &World,
    grid: Grid,
    drawn: Drawn,
) -> Result<(), AllocError>
    ensures { OnOk result (Adds text.old text.new (shades world.now.rehearsal grid drawn)) }
{
    if drawn.sight.is_wide() {
        push_first_shades(text, world, grid, drawn.place)?;
        push_number(text, grid, drawn.number, drawn.place)
    } else {
        Ok(())
    }
}

// The part of each member.
fn push_first_shades(
    text: &mut String,
    world: &World,
    grid: Grid,
    place: u16,
) -> Result<(), AllocError>
    ensures { OnOk result (Adds text.old text.new (first_shades world.now.rehearsal grid place world.now.rehearsal.setting.members)) }
{
    let n = world.group().n();
    for i in 0..n {
        push_shade(text, class_of(world, i + 1), grid.spot(place, i + 1))?;
    }
    Ok(())
}

// How the member's part of a column is shaded, if it is.
#[tactic(auto, unfolding(crate::specs::Shades::class_of))]
fn class_of(world: &World, member: Member) -> Option<&'static str>
    ensures { option_map (λ class. class.now) result ≡ class_of world.now.rehearsal member }
{
    if world.crashed(member) {
        Some("down")
    } else {
        class_of_round(world.round(member))
    }
}

fn class_of_round(round: Option<(Round, Phase)>) -> Option<&'static str>
    ensures { option_map (λ class. class.now) result ≡ round_class round }
{
    let (round, _) = round?;
    if round == 0 {
        Some("rest")
    } else if round % 2 == 1 {
        Some("odd")
    } else {
        Some("even")
    }
}

fn push_shade(text: &mut String, class: Option<&'static str>, spot: Spot) -> Result<(), AllocError>
    ensures { OnOk result (Adds text.old text.new (shade_text (option_map (λ c. c.now) class.entry) spot)) }
{
    match class {
        None => Ok(()),
        Some(class) => push_rect(text, class, spot),
    }
}

#[tactic(auto, unfolding(crate::specs::Shades::rect_text))]
fn push_rect(text: &mut String, class: &str, spot: Spot) -> Result<(), AllocError>
    ensures { OnOk result (Adds text.old text.new (rect_text class.now spot)) }
{
    let left = spot.x.saturating_sub(COLUMN / 2);
    let top = spot.y.saturating_sub(16);
    write!(text, "<rect class='{class}' x='{left}' y='{top}'/>\n")
}

// The number of the step of each fifth column of a row, above the members and below them.
fn push_number(text: &mut String, grid: Grid, number: usize, place: u16) -> Result<(), AllocError>
    ensures { OnOk result (Adds text.old text.new (number_text grid number place)) }
{
    if grid.within(place) / 2 % 5 == 0 {
        push_this_number(text, number, grid.spot(place, 0), grid.spot(place, grid.n))
    } else {
        Ok(())
    }
}

#[tactic(auto, unfolding(crate::specs::Shades::this_number))]
fn push_this_number(
    text: &mut String,
    number: usize,
    top: Spot,
    low: Spot,
) -> Result<(), AllocError>
    ensures { OnOk result (Adds text.old text.new (this_number number top low)) }
{
    push_rule(text, top, low)?;
    push_digits(text, number, top.x, u64::from(top.y) + 42)?;
    push_digits(text, number, top.x, u64::from(low.y) + 56)
}

#[tactic(auto, unfolding(crate::specs::Shades::rule_text))]
fn push_rule(text: &mut String, top: Spot, low: Spot) -> Result<(), AllocError>
    ensures { OnOk result (Adds text.old text.new (rule_text top low)) }
{
    let x = top.x;
    let start = u64::from(top.y) + 46;
    let end = u64::from(low.y) + 44;
    write!(text, "<path class='grid' d='M{x} {start}V{end}'/>\n")
}

#[tactic(auto, unfolding(crate::specs::Shades::digits_text))]
fn push_digits(text: &mut String, number: usize, x: u32, y: u64) -> Result<(), AllocError>
    ensures { OnOk result (Adds text.old text.new (digits_text number x y)) }
{
    write!(
        text,
        "<text class='number' x='{x}' y='{y}'>{number}</text>\n"
    )
}
