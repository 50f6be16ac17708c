//! What stands before the steps of a record, taken out of the bytes.

ghost use Rattle.std.specs.Prelude.{◌≡◌, ◌≤◌, ◌++◌, Ok, None, length, take, drop, vec_len, IfOk, OnOk, IfSome};
ghost use Rattle.ct_records.specs.Reading.{IsAscii};
ghost use Rattle.ct_records.specs.Members.{IsHead};
ghost use Rattle.ct_records.specs.Start.{IsStart};

use crate::head::{head, is_ascii};
use crate::numbers::Numbers;
use crate::so_far::drop_first;
use ct_world::Setup;
use std::alloc::{AllocError, Global};

/// The text up to the bracket that opens the list of steps, the numbers in it, and what these make a world with.
#[derive(Drop)]
pub(crate) struct Start {
    pub text: Vec<u8>,
    pub numbers: Numbers,
    pub setup: Setup,
}

impl Start {
    /// What the bytes begin with, taken out of them. None: no such text, and nothing is taken out.
    pub(crate) fn take(alloc: Global, bytes: &mut Vec<u8>) -> Result<Option<Start>, AllocError>
        ensures start { IfOk result (λ o. IfSome o IsStart) }
        ensures taken { IfOk result (λ o. IfSome o (λ start. bytes.old.items ≡ start.text.items ++ bytes.new.items)) }
        ensures none { result ≡ Ok None → bytes.new ≡ bytes.old }
    {
        let Some((numbers, setup, used)) = measured(bytes) else {
            return Ok(None);
        };
        let text = take_first(alloc, bytes, used)?;
        Ok(Some(Start {
            text,
            numbers,
            setup,
        }))
    }
}

// The numbers, what they make a world with, and how long the text is.
fn measured(bytes: &[u8]) -> Option<(Numbers, Setup, usize)>
    ensures head { IfSome result (λ r. IsHead (take r.2 bytes.now) r.0) }
    ensures ascii { IfSome result (λ r. IsAscii (take r.2 bytes.now)) }
    ensures within { IfSome result (λ r. r.2 ≤ length bytes.now) }
{
    let (numbers, rest) = head(bytes)?;
    let setup = numbers.setup()?;
    let used = bytes.len() - rest.len();
    if is_ascii(&bytes[..used]) {
        Some((numbers, setup, used))
    } else {
        None
    }
}

// Takes the first bytes out.
fn take_first(alloc: Global, bytes: &mut Vec<u8>, count: usize) -> Result<Vec<u8>, AllocError>
    requires { count ≤ vec_len bytes.old }
    ensures first { IfOk result (λ first. first.items ≡ take count bytes.old.items) }
    ensures rest { OnOk result (bytes.new.items ≡ drop count bytes.old.items) }
{
    let mut first = Vec::new(alloc);
    first.extend_from_slice(&bytes[..count])?;
    drop_first(bytes, count);
    Ok(first)
}
