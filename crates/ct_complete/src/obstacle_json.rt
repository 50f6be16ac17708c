//! What stands in the way, as JSON.

ghost use Rattle.std.specs.Prelude.{◌≡◌, ◌++◌, ◌<◌, ◌^◌, OnOk, string_bytes};
ghost use Rattle.std.specs.Io.KnownBytes.{Appends};
ghost use Rattle.ct_streams.specs.Streams.{FailsOnce};
ghost use Rattle.ct_judging.specs.Wording.{behind};
ghost use Rattle.ct_complete.specs.Json.{hindrance_json, hindrance_part, obstacle_json, text_part};

use crate::obstacle::Obstacle;
use ct_records::ProgramFault;
use ct_settled::Hindrance;
use ct_streams::{Failed, Sink, write_all};
use ct_told::ShowFault;
use std::alloc::{AllocError, Global};

/// Writes what stands in the way as a JSON object and a line feed.
pub fn write_obstacle<W: Sink>(
    alloc: Global,
    writer: &mut W,
    obstacle: &Obstacle,
) -> Result<(), ShowFault>
    requires { W.failures writer.old < 2 ^ 63 }
    ensures ok { OnOk result (Appends (W.written writer.old) (W.written writer.new) (obstacle_json obstacle.now)) }
    ensures writer { FailsOnce result (ShowFault.Program ProgramFault.Write) (W.failures writer.old) (W.failures writer.new) }
{
    let mut line = String::new(alloc);
    push_obstacle(&mut line, obstacle)?;
    match write_all(writer, line.as_bytes()) {
        Ok(()) => Ok(()),
        Err(Failed) => Err(ShowFault::Program(ProgramFault::Write)),
    }
}

fn push_obstacle(text: &mut String, obstacle: &Obstacle) -> Result<(), AllocError>
    ensures { OnOk result (string_bytes text.new ≡ string_bytes text.old ++ obstacle_json obstacle.now) }
{
    push_part(text, obstacle.hindrance)?;
    push_text(text, &obstacle.text)
}

#[tactic(auto, unfolding(crate::specs::Json::hindrance_part))]
fn push_part(text: &mut String, hindrance: Hindrance) -> Result<(), AllocError>
    ensures { OnOk result (string_bytes text.new ≡ string_bytes text.old ++ hindrance_part hindrance) }
{
    push_behind(text, "{\"hindrance\":", hindrance)
}

#[tactic(auto, unfolding(ct_judging::specs::Wording::behind))]
fn push_behind(text: &mut String, words: &str, hindrance: Hindrance) -> Result<(), AllocError>
    ensures { OnOk result (string_bytes text.new ≡ string_bytes text.old ++ behind words.now (hindrance_json hindrance)) }
{
    text.push_str(words)?;
    push_hindrance(text, hindrance)
}

#[tactic(auto, unfolding(crate::specs::Json::text_part))]
fn push_text(text: &mut String, told: &str) -> Result<(), AllocError>
    ensures { OnOk result (string_bytes text.new ≡ string_bytes text.old ++ text_part told.now) }
{
    write!(text, ",\"text\":\"{told}\"}}\n")
}

#[tactic(auto, unfolding(crate::specs::Json::hindrance_json))]
fn push_hindrance(text: &mut String, hindrance: Hindrance) -> Result<(), AllocError>
    ensures { OnOk result (string_bytes text.new ≡ string_bytes text.old ++ hindrance_json hindrance) }
{
    match hindrance {
        Hindrance::Waits(member, serial) => write!(
            text,
            "{{\"kind\":\"waits\",\"member\":{member},\"serial\":{serial}}}"
        ),
        Hindrance::May(step) => write!(text, "{{\"kind\":\"may\",\"step\":{step}}}"),
        Hindrance::Full(step, limit) => write!(
            text,
            "{{\"kind\":\"full\",\"step\":{step},\"limit\":\"{limit}\"}}"
        ),
        Hindrance::Awaits(member, coordinator) => write!(
            text,
            "{{\"kind\":\"awaits\",\"member\":{member},\"coordinator\":{coordinator}}}"
        ),
        Hindrance::Few => text.push_str("{\"kind\":\"few\"}"),
        Hindrance::Lost(member, serial) => write!(
            text,
            "{{\"kind\":\"lost\",\"member\":{member},\"serial\":{serial}}}"
        ),
    }
}
