//! What logs came to.

ghost use Rattle.std.specs.Prelude.{◌≡◌, IfErr, IfOk, IfSome, None, Ok, OnOk};
ghost use Rattle.ct_model.specs.Lawful.{IsLawful};
ghost use Rattle.ct_logs.specs.Judging.{EndsAs, EndsWith, IsHaltFault, IsMetBy, IsTextOfVerdict, IsUnmetBy, IsUnmetFault};
ghost use Rattle.ct_logs.specs.Silence.{IsSilent};
ghost use Rattle.ct_logs.specs.Writing.{IsTextOf};

use crate::culprit::told_of;
use crate::form::Form;
use crate::judged::Judged;
use crate::log_set::LogSet;
use crate::merge_fault::MergeFault;
use crate::setup::lawful;
use crate::showing::accepted;
use crate::sources::Sources;
use crate::told::Told;
use crate::torn::push_torn;
use crate::unmet::unmet_text;
use crate::writing::written;
use ct_merge::Verdict;
use ct_world::World;
use std::alloc::{AllocError, Global};

// What is written of logs that are accepted, and what is told of them.
#[derive(Drop)]
pub(crate) struct AcceptedRun {
    pub text: Vec<u8>,
    pub told: Told,
}

// What is written and told of logs that came to this; their texts are let go before that is made.
pub(crate) fn end_of(
    alloc: Global,
    names: &[&str],
    texts: Vec<Vec<u8>>,
    set: LogSet,
    judged: Judged,
    form: Form,
) -> Result<AcceptedRun, MergeFault>
    ensures ok { IfOk result (λ run. EndsWith form judged.verdict set.expected run.text.items) }
    ensures fault { IfErr result (EndsAs judged set.expected) }
{
    let sources = Sources {
        names,
        texts: &texts,
        set: &set,
    };
    let told = told_in(alloc, sources, &judged);
    drop(texts);
    drop(set);
    match told {
        Ok(told) => ended(alloc, judged, form, told),
        Err(fault) => {
            drop(judged);
            Err(fault)
        }
    }
}

// What is written and told of a run behind which this is told of torn last lines; or this, why none is written.
fn ended(alloc: Global, judged: Judged, form: Form, told: String) -> Result<AcceptedRun, MergeFault>
    ensures ok { IfOk result (λ run. IsTextOfVerdict form judged.verdict run.text.items) }
    ensures fault { IfErr result (IsHaltFault judged.verdict) }
{
    let Judged {
        verdict,
        stopped,
        presumed,
    } = judged;
    drop(stopped);
    match verdict {
        Verdict::Accepted(world) => accept(alloc, world, form, told, presumed),
        Verdict::Refused(culprit) => {
            drop(culprit);
            drop(presumed);
            Err(MergeFault::Refused(told))
        }
        Verdict::Incomplete(culprit) => {
            drop(culprit);
            drop(presumed);
            Err(MergeFault::Incomplete(told))
        }
        Verdict::Limited(culprit) => {
            drop(culprit);
            drop(presumed);
            Err(MergeFault::Limit(told))
        }
    }
}

// What is told of logs that came to this: of torn last lines where they are accepted, else of the line at which a log stands. Where an
// expectation does not hold in the run, as far as the logs go, they are refused.
fn told_in(alloc: Global, sources: Sources<'_>, judged: &Judged) -> Result<String, MergeFault>
    ensures ok { OnOk result (IsMetBy judged.now.verdict sources.entry.set.now.expected) }
    ensures fault { IfErr result (IsUnmetFault judged.now sources.entry.set.now.expected) }
{
    match unmet_in(alloc, sources, judged)? {
        Some(text) => Err(MergeFault::Refused(text)),
        None => Ok(verdict_in(alloc, sources, judged)?),
    }
}

// What is told of an expectation that does not hold.
fn unmet_in(
    alloc: Global,
    sources: Sources<'_>,
    judged: &Judged,
) -> Result<Option<String>, MergeFault>
    ensures some { IfOk result (λ told. IfSome told (λ text.
        IsUnmetBy judged.now.verdict judged.now.stopped sources.entry.set.now.expected)) }
    ensures none { result ≡ Ok None → IsMetBy judged.now.verdict sources.entry.set.now.expected }
    ensures fault { IfErr result IsSilent }
{
    match (&judged.verdict, &judged.stopped) {
        (Verdict::Accepted(world), _) => unmet_text(alloc, sources, world),
        (_, Some(stopped)) => unmet_text(alloc, sources, &stopped.run),
        (_, None) => Ok(None),
    }
}

// What is told of the verdict.
fn verdict_in(alloc: Global, sources: Sources<'_>, judged: &Judged) -> Result<String, AllocError> {
    match &judged.verdict {
        Verdict::Accepted(_) => torn_of(alloc, sources),
        Verdict::Refused(culprit) | Verdict::Incomplete(culprit) | Verdict::Limited(culprit) => {
            told_of(alloc, sources, culprit, judged.stopped.as_ref())
        }
    }
}

// What is told of last lines that are torn.
fn torn_of(alloc: Global, sources: Sources<'_>) -> Result<String, AllocError> {
    let mut text = String::new(alloc);
    push_torn(&mut text, sources.names, sources.texts)?;
    Ok(text)
}

// What is written and told of the run.
fn accept(
    alloc: Global,
    world: World,
    form: Form,
    torn: String,
    presumed: String,
) -> Result<AcceptedRun, MergeFault>
    ensures lawful { IsLawful world.rehearsal }
    ensures ok { IfOk result (λ run. IsTextOf form world.rehearsal run.text.items) }
    ensures fault { IfErr result IsSilent }
{
    lawful(&world);
    let told = told_of_run(alloc, &world, torn.as_str(), presumed.as_str());
    drop(torn);
    drop(presumed);
    match told {
        Ok(told) => write_of(alloc, world, form, told),
        Err(_) => {
            drop(world);
            Err(MergeFault::Memory)
        }
    }
}

// What is written of the run, of which this is told.
fn write_of(alloc: Global, world: World, form: Form, told: Told) -> Result<AcceptedRun, MergeFault>
    ensures lawful { IsLawful world.rehearsal }
    ensures ok { IfOk result (λ run. IsTextOf form world.rehearsal run.text.items) }
    ensures fault { IfErr result IsSilent }
{
    lawful(&world);
    match written(alloc, world, form) {
        Ok(text) => Ok(AcceptedRun { text, told }),
        Err(_) => {
            drop(told);
            Err(MergeFault::Memory)
        }
    }
}

// What is told of the run.
fn told_of_run(
    alloc: Global,
    world: &World,
    torn: &str,
    presumed: &str,
) -> Result<Told, AllocError> {
    let mut text = accepted(alloc, world, presumed)?;
    text.push_str(torn)?;
    Ok(Told {
        text,
        is_presumed: !presumed.is_empty(),
    })
}
