//! Texts without control bytes.

ghost use Rattle.std.specs.Prelude.{◌≡◌, OnOk, IfOk, map, string_bytes};
ghost use Rattle.ct_text.specs.Adds.{Adds};
ghost use Rattle.ct_judging.specs.Printing.{printed, printed_byte};

use std::alloc::{AllocError, Global};

// Appends the words as they may be written to a terminal.
#[tactic(auto, unfolding(ct_judging::specs::Printing::printed))]
pub(crate) fn push_printed(text: &mut String, words: &str) -> Result<(), AllocError>
    ensures { OnOk result (Adds text.old text.new (printed words.now)) }
{
    let bytes = printed_bytes(*text.allocator(), words.as_bytes())?;
    push_bytes(text, &bytes)
}

// The text as it may be written to a terminal.
pub(crate) fn printed(alloc: Global, text: &str) -> Result<String, AllocError>
    ensures { IfOk result (λ shown. string_bytes shown ≡ printed text.now) }
{
    let mut shown = String::new(alloc);
    push_printed(&mut shown, text)?;
    Ok(shown)
}

fn printed_bytes(alloc: Global, bytes: &[u8]) -> Result<Vec<u8>, AllocError>
    ensures { IfOk result (λ list. list.items ≡ map printed_byte bytes.now) }
{
    bytes
        .iter()
        .copied()
        .map(|byte| printed_byte(byte))
        .collect(alloc)
}

fn printed_byte(byte: u8) -> u8
    ensures { result ≡ printed_byte byte }
{
    if byte == b'\t' || byte == b'\r' {
        b' '
    } else if byte < 32 || byte == 127 {
        b'?'
    } else {
        byte
    }
}

// Appends the bytes, which are text.
pub(crate) fn push_bytes(text: &mut String, bytes: &[u8]) -> Result<(), AllocError>
    ensures { OnOk result (Adds text.old text.new bytes.now) }
{
    match std::str::from_utf8(bytes) {
        Ok(bytes) => text.push_str(bytes),
        Err(_) => Err(AllocError),
    }
}
