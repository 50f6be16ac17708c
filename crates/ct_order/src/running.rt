//! Logs in, what they come to out.

ghost use Rattle.std.specs.Prelude.{◌≡◌, ◌≢◌, ◌<◌, ◌^◌, ℕ, IfErr, List, OnErr, OnOk, false, map};
ghost use Rattle.ct_streams.specs.Streams.{FailsOnce};
ghost use Rattle.ct_order.specs.Reading.{AreTexts};
ghost use Rattle.ct_order.specs.Ending.{AreAtomic, AreNames, IsFault, IsOfLines, IsOfNames, IsWritten, UnlessFollowed};

use crate::asked::Asked;
use crate::judged::judged_logs;
use crate::order_fault::OrderFault;
use crate::reading::Judged;
use crate::telling::{accepted_json, accepted_text};
use ct_streams::{Failed, Files, Pace, Sink, write_all};
use std::alloc::{AllocError, Global};

/// Reads the files of these names as logs, as they are, or as they grow for as long as the pace says, and writes what is told of them
/// where they are accepted; as JSON, also where they are not.
pub fn order_logs<F: Files, P: Pace + Drop, W: Sink>(
    alloc: Global,
    files: &F,
    names: &[&str],
    asked: Asked,
    pace: Option<P>,
    writer: &mut W,
) -> Result<(), OrderFault>
    requires { W.failures writer.old < 2 ^ 63 }
    // Their lines are those of one atomic broadcast.
    ensures ok { OnOk result (UnlessFollowed pace ((texts : List (List ℕ)) →
        AreTexts (F.bytes files.now) (map (λ name. name.now) names.now) texts → AreAtomic texts)) }
    // They are not, or not yet; or more is asked of them, which they do not have.
    ensures fault { IfErr result (λ fault. UnlessFollowed pace ((texts : List (List ℕ)) →
        AreTexts (F.bytes files.now) (map (λ name. name.now) names.now) texts → IsFault texts fault)) }
    // There are no more than 1,024, and standard input is one at most, unless that is the fault.
    ensures within { OnOk result (AreNames (map (λ name. name.now) names.now)) }
    ensures names { IfErr result (IsOfNames (map (λ name. name.now) names.now)) }
    // Nothing was written but where the writer failed, or as JSON.
    ensures quiet { IfErr result (λ fault. fault ≢ OrderFault.Write → asked.json ≡ false → writer.new ≡ writer.old) }
    ensures writer { FailsOnce result OrderFault.Write (W.failures writer.old) (W.failures writer.new) }
{
    match judged_logs(alloc, files, names, asked, pace) {
        Ok(judged) => {
            let text = text_of(alloc, names, asked, &judged);
            drop(judged);
            match text {
                Ok(text) => write(writer, text.as_str()),
                Err(_) => Err(OrderFault::Memory),
            }
        }
        Err(fault) => match write_json(asked, &fault, writer) {
            Ok(()) => Err(fault),
            Err(Failed) => {
                drop(fault);
                Err(OrderFault::Write)
            }
        },
    }
}

// What is told of logs that are accepted.
fn text_of(
    alloc: Global,
    names: &[&str],
    asked: Asked,
    judged: &Judged,
) -> Result<String, AllocError> {
    if asked.json {
        accepted_json(alloc, names, judged)
    } else {
        accepted_text(alloc, names, judged)
    }
}

// Writes it.
fn write<W: Sink>(writer: &mut W, text: &str) -> Result<(), OrderFault>
    requires { W.failures writer.old < 2 ^ 63 }
    ensures fault { IfErr result (λ fault. fault ≡ OrderFault.Write) }
    ensures writer { FailsOnce result OrderFault.Write (W.failures writer.old) (W.failures writer.new) }
{
    match write_all(writer, text.as_bytes()) {
        Ok(()) => Ok(()),
        Err(Failed) => Err(OrderFault::Write),
    }
}

// Writes the fault as JSON, where that is asked for and it is one of the logs.
fn write_json<W: Sink>(asked: Asked, fault: &OrderFault, writer: &mut W) -> Result<(), Failed>
    requires { W.failures writer.old < 2 ^ 63 }
    ensures written { IsWritten asked.json result (W.failures writer.old) (W.failures writer.new) (writer.new ≡ writer.old) }
    ensures wrong { OnErr result (IsOfLines fault.now) }
{
    match fault {
        OrderFault::Wrong { json, .. } if asked.json => write_all(writer, json.as_bytes()),
        _ => Ok(()),
    }
}
