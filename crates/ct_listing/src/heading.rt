//! The first lines of a schedule.

ghost use Rattle.std.specs.Prelude.{◌≡◌, [], OnOk, string_bytes};
ghost use Rattle.ct_names.specs.declared.limit.TheConstants.{MAX_BOUND};
ghost use Rattle.ct_grammar.specs.declared.line.Line.TheVariants.{Given as Gives};
ghost use Rattle.ct_grammar.specs.Sides.{whole};
ghost use Rattle.ct_print.specs.Lines.{line_text};
ghost use Rattle.ct_judging.specs.declared.heading.TheConstants.{USUAL_CELLS};
ghost use Rattle.ct_listing.specs.Heading.{given_all};
ghost use Rattle.ct_listing.specs.Leading.{AddsLine, Leads, LeadsTo};

use crate::told::push_told;
use ct_grammar::{Given, Line};
use ct_judging::USUAL_CELLS;
use ct_names::MAX_BOUND;
use ct_play::Stage;
use ct_world::World;
use std::alloc::{AllocError, Global};

// Writes the number of members, and the number of cells and the bound where they are not the usual ones.
#[tactic(auto, using(crate::proofs::Headed::heading_leads))]
pub(crate) fn push_heading(
    alloc: Global,
    text: &mut String,
    stage: &Stage,
) -> Result<(), AllocError>
    requires empty { string_bytes text.old ≡ [] }
    requires none { stage.now.rehearsal.steps ≡ [] }
    requires uncut { stage.now.sides ≡ whole }
    ensures { OnOk result (Leads (string_bytes text.new) stage.now) }
{
    push_group(alloc, text, stage.world())?;
    push_cells(alloc, text, stage.world())?;
    push_bound(alloc, text, stage.world())?;
    Ok(())
}

#[tactic(auto, using(crate::proofs::Headed::group_on))]
fn push_group(alloc: Global, text: &mut String, world: &World) -> Result<(), AllocError>
    requires { string_bytes text.old ≡ [] }
    ensures { OnOk result (LeadsTo (string_bytes text.new) (given_all world.now.rehearsal.setting.members USUAL_CELLS MAX_BOUND)) }
{
    push_given(alloc, text, Given::Members(world.group().n()))?;
    Ok(())
}

#[tactic(auto, using(crate::proofs::Headed::cells_on))]
fn push_cells(alloc: Global, text: &mut String, world: &World) -> Result<(), AllocError>
    requires { LeadsTo (string_bytes text.old) (given_all world.now.rehearsal.setting.members USUAL_CELLS MAX_BOUND) }
    ensures { OnOk result (LeadsTo (string_bytes text.new)
        (given_all world.now.rehearsal.setting.members world.now.rehearsal.cells MAX_BOUND)) }
{
    if world.cells() == USUAL_CELLS {
        Ok(())
    } else {
        push_given(alloc, text, Given::Cells(world.cells()))?;
        Ok(())
    }
}

#[tactic(auto, using(crate::proofs::Headed::bound_on))]
fn push_bound(alloc: Global, text: &mut String, world: &World) -> Result<(), AllocError>
    requires { LeadsTo (string_bytes text.old) (given_all world.now.rehearsal.setting.members world.now.rehearsal.cells MAX_BOUND) }
    ensures { OnOk result (LeadsTo (string_bytes text.new)
        (given_all world.now.rehearsal.setting.members world.now.rehearsal.cells world.now.rehearsal.setting.bound)) }
{
    if world.bound() == MAX_BOUND {
        Ok(())
    } else {
        push_given(alloc, text, Given::Batch(world.bound()))?;
        Ok(())
    }
}

fn push_given(alloc: Global, text: &mut String, given: Given) -> Result<(), AllocError>
    ensures { OnOk result (AddsLine (string_bytes text.old) (string_bytes text.new) (line_text (Gives given))) }
{
    push_told(alloc, text, &Line::Given(given), "")
}
