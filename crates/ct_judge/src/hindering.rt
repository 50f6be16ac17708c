//! What is told of what stands in the way of all being done.

ghost use Rattle.std.specs.Prelude.{OnOk};
ghost use Rattle.ct_print.specs.Goals.{term_text};
ghost use Rattle.ct_text.specs.Adds.{Adds};
ghost use Rattle.ct_judging.specs.Hindering.{hindered_text, hindrance_text, may_term};

use crate::naming::push_envelope;
use crate::steps::{act_of, push_step};
use crate::wording::push_number;
use ct_grammar::{Claim, Fact, Term, When, Whom};
use ct_model::Step;
use ct_names::Refusal;
use ct_play::Stage;
use ct_print::push_term;
use ct_settled::Hindrance;
use std::alloc::AllocError;

/// Puts behind the text what stands in the way of all being done on the stage, as `#9 data 1.3 from 1 waits at 2`. Where memory is
/// refused, a beginning of it may stand there.
#[tactic(auto, unfolding(ct_judging::specs::Hindering::hindrance_text))]
pub fn push_hindrance(
    text: &mut String,
    stage: &Stage,
    hindrance: Hindrance,
) -> Result<(), AllocError>
    ensures { OnOk result (Adds text.old text.new (hindrance_text stage.now.rehearsal hindrance)) }
{
    match hindrance {
        Hindrance::Waits(member, serial) => {
            push_envelope(text, stage, serial)?;
            push_number(text, " waits at ", usize::from(member))
        }
        Hindrance::May(step) => push_may(text, stage, step),
        Hindrance::Full(step, limit) => {
            let refusal = Refusal::Full(limit);
            push_step(text, stage, step)?;
            write!(text, ": {refusal}")
        }
        Hindrance::Awaits(member, coordinator) => {
            write!(text, "{member} waits for {coordinator}, which crashed")
        }
        Hindrance::Few => text.push_str("no majority is up"),
        Hindrance::Lost(member, serial) => {
            write!(text, "{member} waits for ")?;
            push_envelope(text, stage, serial)?;
            text.push_str(", which was lost")
        }
    }
}

// That the member may take the step.
fn push_may(text: &mut String, stage: &Stage, step: Step) -> Result<(), AllocError>
    ensures { OnOk result (Adds text.old text.new (term_text (may_term stage.now.rehearsal step))) }
{
    let term = Term {
        when: When::Now,
        whom: Whom::One(step.member()),
        claim: Claim::Fact(Fact::May(act_of(stage, step))),
    };
    push_term(text, &term)
}

// The same behind a fault, where something does.
#[tactic(auto, unfolding(ct_judging::specs::Wording::behind))]
pub(crate) fn push_hindered(
    text: &mut String,
    stage: &Stage,
    hindrance: Option<Hindrance>,
) -> Result<(), AllocError>
    ensures { OnOk result (Adds text.old text.new (hindered_text stage.now.rehearsal hindrance)) }
{
    let Some(hindrance) = hindrance else {
        return Ok(());
    };
    text.push_str(", but ")?;
    push_hindrance(text, stage, hindrance)
}
