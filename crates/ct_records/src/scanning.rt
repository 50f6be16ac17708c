//! From the bytes of a record, where nothing in it is escaped, to what it says.

ghost use Rattle.std.specs.Prelude.{◌≡◌, ◌≤◌, length, Ok, IfOk, IfSome};
ghost use Rattle.ct_records.specs.Script.{max_len, script};
ghost use Rattle.ct_records.specs.View.{rehearsal_of};

use crate::head::{all_numbers, head};
use crate::script::Script;
use crate::taking::take_all;
use std::alloc::{AllocError, Global};

/// What the record says, read in one pass. None says nothing of it: it is to be read another way.
pub(crate) fn scanned(alloc: Global, bytes: &[u8]) -> Result<Option<Script>, AllocError>
    requires { length bytes.now ≤ max_len }
    ensures { IfOk result (λ o. IfSome o (λ s. script bytes.now ≡ Ok (rehearsal_of s))) }
{
    let Some((numbers, list)) = head(bytes) else {
        return Ok(None);
    };
    if !simdutf8::is_utf8(bytes) {
        return Ok(None);
    }
    let mut steps = Vec::new(alloc);
    let used = take_all(&mut steps, list)?;
    match all_numbers(&list[used..], numbers) {
        Some(all) => Ok(all.script(steps)),
        None => Ok(None),
    }
}
