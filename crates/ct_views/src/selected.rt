//! The lines of a run in a form: one for each step that is asked for.

ghost use Rattle.std.specs.Prelude.{◌≤◌, [], if◌then◌else◌, OnOk};
ghost use Rattle.ct_text.specs.Adds.{Adds};
ghost use Rattle.ct_model.specs.Actor.{actor};
ghost use Rattle.ct_views.specs.Selected.{line_in, is_selected};

use crate::form::Form;
use crate::selection::Selection;
use ct_json::push_step_json;
use ct_model::Step;
use ct_names::MAX_ENVELOPES;
use ct_show::push_line;
use ct_world::World;
use std::alloc::AllocError;

// The line of the world's last step in a form, where so many envelopes had been sent before it.
fn push_line_in(
    text: &mut String,
    form: Form,
    world: &World,
    before: u32,
    number: usize,
    step: Step,
) -> Result<(), AllocError>
    requires { before ≤ MAX_ENVELOPES }
    ensures { OnOk result (Adds text.old text.new (line_in form world.now.rehearsal before number step)) }
{
    match form {
        Form::Text => push_line(text, world, before, number, step),
        Form::Json => push_step_json(text, world, before, number, step),
    }
}

// The same where the step is asked for.
pub(crate) fn push_selected(
    text: &mut String,
    selection: &Selection,
    form: Form,
    world: &World,
    before: u32,
    number: usize,
    step: Step,
) -> Result<(), AllocError>
    requires { before ≤ MAX_ENVELOPES }
    ensures { OnOk result (Adds text.old text.new
        ((if is_selected selection.now number (actor step) then line_in form world.now.rehearsal before number step else []))) }
{
    if selection.shows(number, step.member()) {
        push_line_in(text, form, world, before, number, step)
    } else {
        Ok(())
    }
}
