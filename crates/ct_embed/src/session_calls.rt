//! The calls of a session, for C. `bindings/ct.h` has them as C sees them.

ghost use Rattle.std.specs.Prelude.{◌≡◌, ◌≢◌, ◌<◌, [], ◌∷◌, None, Some, IfSome, option_map};
ghost use Rattle.ct_diagram.specs.declared.window.TheConstants.{MOST_STEPS};
ghost use Rattle.ct_records.specs.Text.{record_text};
ghost use Rattle.ct_embed.specs.Opening.{IsNumber};
ghost use Rattle.ct_embed.specs.Rooms.{count_of, filled};
ghost use Rattle.ct_embed.specs.Held.{talk_in};
ghost use Rattle.ct_embed.specs.Telling.{IsWhole, drawn_steps, hush, rehearsal_in, told};

use crate::asked::asked;
use crate::held_session::HeldSession;
use crate::numbers::{ALREADY_OPEN, BOARD, NO_WORLD, NOT_OPEN, OUT_OF_MEMORY, TOO_LONG};
use crate::own_session::OwnSession;
use crate::room::{NONE, copy_bytes};
use ct_judge::SessionFault;
use std::alloc::Global;

/// Opens a session that was told nothing.
#[unsafe(no_mangle)]
pub extern "C" fn ct_session_open(session: &mut HeldSession, alloc: Global) -> u32
    ensures open { IfSome (talk_in session.old) (λ t. result ≡ ALREADY_OPEN) }
    ensures closed { talk_in session.old ≡ None → IsNumber result (0 ∷ OUT_OF_MEMORY ∷ []) }
    ensures ok { result ≡ 0 → talk_in session.new ≡ Some hush }
    ensures same { result ≢ 0 → talk_in session.new ≡ talk_in session.old }
{
    if let Some(own) = session.take(alloc) {
        session.put(own);
        return ALREADY_OPEN;
    }
    match Box::new(alloc, OwnSession::new(alloc)) {
        Ok(own) => {
            session.put(own);
            0
        }
        Err(_) => OUT_OF_MEMORY,
    }
}

/// Closes the session, if it is open.
#[unsafe(no_mangle)]
pub extern "C" fn ct_session_close(session: &mut HeldSession, alloc: Global)
    ensures { talk_in session.new ≡ None }
{
    drop(session.take(alloc));
}

/// Tells the session bytes. The answers to the lines that they end wait to be copied.
#[unsafe(no_mangle)]
pub extern "C" fn ct_tell(session: &mut HeldSession, bytes: &[u8], alloc: Global) -> u32
    ensures closed { talk_in session.old ≡ None → (result ≡ NOT_OPEN) × (talk_in session.new ≡ None) }
    ensures number { IfSome (talk_in session.old) (λ t. IsNumber result (0 ∷ OUT_OF_MEMORY ∷ BOARD ∷ [])) }
    ensures told { IfSome (talk_in session.old) (λ t. result ≡ 0 → talk_in session.new ≡ Some (told t bytes.now)) }
    ensures short { result ≢ 0 → talk_in session.new ≡ None }
{
    let Some(mut own) = session.take(alloc) else {
        return NOT_OPEN;
    };
    match own.tell(alloc, bytes) {
        Ok(()) => {
            session.put(own);
            0
        }
        Err(SessionFault::Board) => BOARD,
        Err(_) => OUT_OF_MEMORY,
    }
}

/// How many bytes wait to be copied.
#[unsafe(no_mangle)]
pub extern "C" fn ct_answers_length(session: &mut HeldSession, alloc: Global) -> usize
    ensures value { result ≡ count_of (option_map (λ t. t.said) (talk_in session.old)) }
    ensures same { talk_in session.new ≡ talk_in session.old }
{
    asked!(own in session, alloc else NONE => own.said().len())
}

/// Copies the bytes that wait.
#[unsafe(no_mangle)]
pub extern "C" fn ct_answers(session: &mut HeldSession, room: &mut [u8], alloc: Global) -> usize
    ensures count { result ≡ count_of (option_map (λ t. t.said) (talk_in session.old)) }
    ensures room { room.new ≡ filled (option_map (λ t. t.said) (talk_in session.old)) room.old }
    ensures same { talk_in session.new ≡ talk_in session.old }
{
    asked!(own in session, alloc else NONE => copy_bytes(own.said(), room))
}

/// The record, as JSON, waits to be copied.
#[unsafe(no_mangle)]
pub extern "C" fn ct_record(session: &mut HeldSession, alloc: Global) -> u32
    ensures closed { talk_in session.old ≡ None → (result ≡ NOT_OPEN) × (talk_in session.new ≡ None) }
    ensures hearing { option_map (λ t. t.hearing) (talk_in session.new) ≡ option_map (λ t. t.hearing) (talk_in session.old) }
    ensures none { IfSome (talk_in session.old) (λ t. rehearsal_in t ≡ None → result ≡ NO_WORLD) }
    ensures some { IfSome (talk_in session.old) (λ t. IfSome (rehearsal_in t) (λ w. IsNumber result (0 ∷ OUT_OF_MEMORY ∷ []))) }
    ensures ok { IfSome (talk_in session.old) (λ t. IfSome (rehearsal_in t) (λ w.
        result ≡ 0 → IfSome (talk_in session.new) (λ new. new.said ≡ record_text w))) }
    ensures err { result ≢ 0 → IfSome (talk_in session.new) (λ new. new.said ≡ []) }
{
    asked!(own in session, alloc else NOT_OPEN => own.show_record(alloc))
}

/// The diagram, as SVG, waits to be copied.
#[unsafe(no_mangle)]
pub extern "C" fn ct_diagram(session: &mut HeldSession, alloc: Global) -> u32
    ensures closed { talk_in session.old ≡ None → (result ≡ NOT_OPEN) × (talk_in session.new ≡ None) }
    ensures hearing { option_map (λ t. t.hearing) (talk_in session.new) ≡ option_map (λ t. t.hearing) (talk_in session.old) }
    ensures none { IfSome (talk_in session.old) (λ t. rehearsal_in t ≡ None → result ≡ NO_WORLD) }
    ensures some { IfSome (talk_in session.old) (λ t. IfSome (rehearsal_in t) (λ w. IsNumber result (0 ∷ TOO_LONG ∷ OUT_OF_MEMORY ∷ []))) }
    ensures ok { IfSome (talk_in session.old) (λ t. IfSome (rehearsal_in t) (λ w.
        result ≡ 0 → IfSome (talk_in session.new) (λ new. IsWhole w new.said))) }
    ensures long { IfSome (talk_in session.old) (λ t. IfSome (rehearsal_in t) (λ w. result ≡ TOO_LONG → MOST_STEPS < drawn_steps w)) }
    ensures err { result ≢ 0 → IfSome (talk_in session.new) (λ new. new.said ≡ []) }
{
    asked!(own in session, alloc else NOT_OPEN => own.show_diagram(alloc))
}
