//! A session, and what waits to be copied.

ghost use Rattle.std.specs.Prelude.{◌≡◌, ◌≢◌, ◌<◌, ◌++◌, [], ◌∷◌, None, OnOk, IfErr, IfSome, length, string_bytes};
ghost use Rattle.ct_diagram.specs.declared.window.TheConstants.{MOST_STEPS};
ghost use Rattle.ct_judge.specs.SessionFaults.{IsShort};
ghost use Rattle.ct_judge.specs.Sessions.{after_bytes, said_by};
ghost use Rattle.ct_records.specs.Text.{record_text};
ghost use Rattle.ct_embed.specs.Opening.{IsNumber};
ghost use Rattle.ct_embed.specs.Telling.{IsWhole, drawn_steps, hush, rehearsal_in, told};

use crate::drawing::drawn;
use crate::numbers::{NO_WORLD, OUT_OF_MEMORY, TOO_LONG};
use crate::said::Said;
use ct_judge::{Session, SessionFault};
use ct_records::write_record;
use std::alloc::Global;
use std::marker::Model;

/// A session, and the bytes that wait to be copied.
#[derive(Drop)]
pub(crate) struct OwnSession {
    session: Session,
    said: Said,
}

// Contracts see the session and the bytes.
impl Model for OwnSession {
    ghost use Rattle.ct_embed.specs.Telling.{Talk, said_bytes};

    ghost Value = { Talk };

    ghost view = { λ s. record { hearing = s.session; said = said_bytes s.said } };
}

impl OwnSession {
    // A session that was told nothing.
    pub(crate) fn new(alloc: Global) -> OwnSession
        ensures { result ≡ hush }
    {
        OwnSession {
            session: Session::new(alloc),
            said: Said::Answers(String::new(alloc)),
        }
    }

    // Hears the bytes. The answers to the lines that they end wait then.
    pub(crate) fn tell(&mut self, alloc: Global, bytes: &[u8]) -> Result<(), SessionFault>
        ensures ok { OnOk result (self.new ≡ told self.old bytes.now) }
        ensures err { IfErr result IsShort }
    {
        let mut text = self.empty_text(alloc);
        hear(&mut self.session, &mut text, bytes)?;
        self.said = Said::Answers(text);
        Ok(())
    }

    // The text of the last answers, made empty, or a new one. Nothing waits then.
    fn empty_text(&mut self, alloc: Global) -> String
        ensures empty { string_bytes result ≡ [] }
        ensures hearing { self.new.hearing ≡ self.old.hearing }
    {
        let nothing = Said::Answers(String::new(alloc));
        match std::mem::replace(&mut self.said, nothing) {
            Said::Answers(mut text) => {
                text.clear();
                text
            }
            Said::Shown(_) => String::new(alloc),
        }
    }

    // The record, as JSON, waits then; nothing where that is refused, by number.
    pub(crate) fn show_record(&mut self, alloc: Global) -> u32
        ensures hearing { self.new.hearing ≡ self.old.hearing }
        ensures none { rehearsal_in self.old ≡ None → result ≡ NO_WORLD }
        ensures some { IfSome (rehearsal_in self.old) (λ w. IsNumber result (0 ∷ OUT_OF_MEMORY ∷ [])) }
        ensures ok { IfSome (rehearsal_in self.old) (λ w. result ≡ 0 → self.new.said ≡ record_text w) }
        ensures err { result ≢ 0 → self.new.said ≡ [] }
    {
        self.said = Said::Answers(String::new(alloc));
        let Some(world) = self.session.world() else {
            return NO_WORLD;
        };
        match write_record(alloc, world) {
            Ok(bytes) => {
                self.said = Said::Shown(bytes);
                0
            }
            Err(_) => OUT_OF_MEMORY,
        }
    }

    // The diagram, as SVG, waits then; nothing where that is refused, by number.
    pub(crate) fn show_diagram(&mut self, alloc: Global) -> u32
        ensures hearing { self.new.hearing ≡ self.old.hearing }
        ensures none { rehearsal_in self.old ≡ None → result ≡ NO_WORLD }
        ensures some { IfSome (rehearsal_in self.old) (λ w. IsNumber result (0 ∷ TOO_LONG ∷ OUT_OF_MEMORY ∷ [])) }
        ensures ok { IfSome (rehearsal_in self.old) (λ w. result ≡ 0 → IsWhole w self.new.said) }
        ensures long { IfSome (rehearsal_in self.old) (λ w. result ≡ TOO_LONG → MOST_STEPS < drawn_steps w) }
        ensures err { result ≢ 0 → self.new.said ≡ [] }
    {
        self.said = Said::Answers(String::new(alloc));
        let Some(world) = self.session.world() else {
            return NO_WORLD;
        };
        match drawn(alloc, world) {
            Ok(bytes) => {
                self.said = Said::Shown(bytes);
                0
            }
            Err(number) => number,
        }
    }

    // The bytes that wait.
    pub(crate) fn said(&self) -> &[u8]
        ensures { result.now ≡ self.now.said }
    {
        self.said.bytes()
    }
}

// Hears the bytes, one after another.
fn hear(session: &mut Session, text: &mut String, bytes: &[u8]) -> Result<(), SessionFault>
    ensures after { OnOk result (session.new ≡ after_bytes session.old bytes.now) }
    ensures text { OnOk result (string_bytes text.new ≡ string_bytes text.old ++ said_by session.old bytes.now) }
    ensures err { IfErr result IsShort }
{
    for byte in bytes {
        session.hear(*byte, text)?;
    }
    Ok(())
}
