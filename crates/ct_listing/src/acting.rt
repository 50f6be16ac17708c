//! Which act a step is.

ghost use Rattle.std.specs.Prelude.{◌≡◌, Ok};
ghost use Rattle.ct_model.specs.Actor.{actor};
ghost use Rattle.ct_play.specs.Acting.{step_of};
ghost use Rattle.ct_listing.specs.Expecting.{IsLone};
ghost use Rattle.ct_listing.specs.Naming.{act_of};
ghost use Rattle.ct_print.specs.Writable.{ActFits};

use crate::naming::{Naming, repeated_name, waiting_name};
use ct_grammar::Act;
use ct_model::Step;
use ct_play::Stage;

/// The act of a step that is taken next, which names its envelope.
pub fn act_of(stage: &Stage, step: Step, naming: Naming) -> Act
    ensures is { result ≡ act_of naming stage.now.rehearsal step }
    // It is one act of one step, which is that step, and can be written.
    ensures step { step_of stage.now.rehearsal (actor step) result ≡ Ok step }
    ensures lone { IsLone result }
    ensures fits { ActFits result }
{
    match step {
        Step::Submit(_, command) => Act::Submit(command),
        Step::Receive(member, serial) => Act::Receive(waiting_name(stage, member, serial, naming)),
        Step::Begin(_) => Act::Begin,
        Step::Enter(_) => Act::Enter,
        Step::Choose(_, from) => Act::Choose(from),
        Step::Adopt(_) => Act::Adopt,
        Step::Suspect(_) => Act::Suspect,
        Step::Conclude(_) => Act::Conclude,
        Step::Deliver(_) => Act::Deliver,
        Step::Follow(_) => Act::Follow,
        Step::Crash(_) => Act::Crash,
        Step::Postpone(member, serial) => Act::Postpone(waiting_name(
            stage, member, serial, naming,
        )),
        Step::Lose(member, serial) => Act::Lose(waiting_name(stage, member, serial, naming)),
        Step::Repeat(member, serial) => Act::Repeat(repeated_name(stage, member, serial, naming)),
    }
}
