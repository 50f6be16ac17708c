//! What was read of a record, in fewer bytes.

ghost use Rattle.std.specs.Prelude.{◌≡◌, ◌≤◌, ◌++◌, drop, vec_len, string_bytes, IfOk};
ghost use Rattle.ct_records.specs.Text.{steps_text};

use crate::writing::push_steps;
use ct_model::Step;
use std::alloc::{AllocError, Global};

/// The text before the steps, that of these without white space, and the bytes behind the last that was done.
pub(crate) fn text_so_far(
    alloc: Global,
    head: &[u8],
    steps: &[Step],
    rest: &[u8],
) -> Result<Vec<u8>, AllocError>
    ensures { IfOk result (λ text. text.items ≡ head.now ++ (steps_text steps.now ++ rest.now)) }
{
    let steps = close_text(alloc, steps)?;
    let mut text = Vec::new(alloc);
    text.extend_from_slice(head)?;
    text.extend_from_slice(steps.as_bytes())?;
    text.extend_from_slice(rest)?;
    Ok(text)
}

// The text of the steps.
fn close_text(alloc: Global, steps: &[Step]) -> Result<String, AllocError>
    ensures { IfOk result (λ text. string_bytes text ≡ steps_text steps.now) }
{
    let mut text = String::new(alloc);
    push_steps(&mut text, steps)?;
    Ok(text)
}

/// Drops the first bytes.
pub(crate) fn drop_first(bytes: &mut Vec<u8>, count: usize)
    requires { count ≤ vec_len bytes.old }
    ensures { bytes.new.items ≡ drop count bytes.old.items }
{
    let kept = bytes.len() - count;
    bytes.copy_within(count.., 0);
    bytes.truncate(kept);
}
