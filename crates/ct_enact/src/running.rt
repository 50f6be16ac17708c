//! Logs in, a schedule out.

ghost use Rattle.std.specs.Prelude.{◌≡◌, ◌≢◌, ◌<◌, ◌^◌, ℕ, Err, IfErr, IfOk, List, OnOk, map, string_bytes};
ghost use Rattle.ct_streams.specs.Streams.{FailsOnce};
ghost use Rattle.ct_order.specs.Reading.{AreTexts};
ghost use Rattle.ct_order.specs.Ending.{AreNames, UnlessFollowed};
ghost use Rattle.ct_enact.specs.Enacting.{IsPlayed, WritesEnacted, WritesEnactedInPart};
ghost use Rattle.ct_enact.specs.Faults.{IsFault, IsOfNames, IsOfScheme};

use crate::checking::matches;
use crate::enact_fault::{EnactFault, limit};
use crate::scheme::scheme_text;
use ct_judge::{MAX_LEN, RecordFault, played};
use ct_order::{Asked, Judged, OrderFault, judged_logs};
use ct_streams::{Failed, Files, Pace, Sink, write_all};
use std::alloc::Global;

/// Reads the files of these names as logs, as they are, or as they grow for as long as the pace says, and writes a schedule whose run
/// has their deliveries, where they are accepted. The schedule is played, and its run compared with the logs, before the first write.
pub fn enact_logs<F: Files, P: Pace + Drop, W: Sink>(
    alloc: Global,
    files: &F,
    names: &[&str],
    asked: Asked,
    pace: Option<P>,
    writer: &mut W,
) -> Result<(), EnactFault>
    requires { W.failures writer.old < 2 ^ 63 }
    // The lines of the logs are those of one atomic broadcast, and what was written is a schedule whose run has their deliveries.
    ensures ok { OnOk result (UnlessFollowed pace ((texts : List (List ℕ)) →
        AreTexts (F.bytes files.now) (map (λ name. name.now) names.now) texts →
        WritesEnacted texts (W.written writer.old) (W.written writer.new))) }
    // They are not, or not yet; more is asked of them, which they do not have; or a limit is met.
    ensures fault { IfErr result (λ fault. UnlessFollowed pace ((texts : List (List ℕ)) →
        AreTexts (F.bytes files.now) (map (λ name. name.now) names.now) texts → IsFault texts fault)) }
    // There are no more than 1,024, and standard input is one at most, unless that is the fault.
    ensures within { OnOk result (AreNames (map (λ name. name.now) names.now)) }
    ensures names { IfErr result (IsOfNames (map (λ name. name.now) names.now)) }
    // Where the writer failed, some first bytes of such a text were written; else nothing was.
    ensures part { result ≡ Err (EnactFault.Order OrderFault.Write) → UnlessFollowed pace ((texts : List (List ℕ)) →
        AreTexts (F.bytes files.now) (map (λ name. name.now) names.now) texts →
        WritesEnactedInPart texts (W.written writer.old) (W.written writer.new)) }
    ensures quiet { IfErr result (λ fault. fault ≢ EnactFault.Order OrderFault.Write → writer.new ≡ writer.old) }
    ensures writer { FailsOnce result (EnactFault.Order OrderFault.Write) (W.failures writer.old) (W.failures writer.new) }
{
    match judged_logs(alloc, files, names, asked, pace) {
        Ok(judged) => {
            let made = schedule_of(alloc, names, &judged);
            drop(judged);
            match made {
                Ok(text) => match write_all(writer, text.as_bytes()) {
                    Ok(()) => Ok(()),
                    Err(Failed) => Err(EnactFault::Order(OrderFault::Write)),
                },
                Err(fault) => Err(fault),
            }
        }
        Err(fault) => Err(EnactFault::Order(fault)),
    }
}

// A schedule whose run has the deliveries of the logs.
fn schedule_of(alloc: Global, names: &[&str], judged: &Judged) -> Result<String, EnactFault>
    ensures ok { IfOk result (λ text. IsPlayed judged.now (string_bytes text)) }
    ensures fault { IfErr result IsOfScheme }
{
    let text = scheme_text(alloc, names, judged)?;
    if text.len() > MAX_LEN {
        return Err(limit(format!(in alloc; "a schedule has at most {MAX_LEN} bytes")));
    }
    match played(alloc, text.as_bytes()) {
        Ok(world) => {
            let is_right = matches(judged, &world);
            drop(world);
            if is_right {
                Ok(text)
            } else {
                Err(limit(format!(in alloc; "the run of its schedule has other deliveries")))
            }
        }
        Err(fault) => Err(refused(alloc, fault)),
    }
}

// The schedule is refused.
fn refused(alloc: Global, fault: RecordFault) -> EnactFault
    ensures { IsOfScheme result }
{
    match fault {
        RecordFault::Line { at, text, .. } => {
            limit(format!(in alloc; "its schedule, line {at}: {text}"))
        }
        _ => EnactFault::Order(OrderFault::Memory),
    }
}
