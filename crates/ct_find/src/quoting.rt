//! Goals in quotes.

ghost use Rattle.std.specs.Prelude.{◌≡◌, IfOk, IfErr, string_bytes};
ghost use Rattle.ct_find.specs.Texts.{quoted};

use ct_grammar::Text;
use ct_walk::WalkFault;
use std::alloc::{AllocError, Global};

// What stands for a quote where a text stands in quotes for a shell: their end, a quote by itself, and their beginning anew.
const QUOTE: &str = "'\\''";

/// The words of a goal as they stand in single quotes for a shell.
pub fn quoted_goal(alloc: Global, goal: &Text) -> Result<Text, WalkFault>
    ensures ok { IfOk result (λ words. words ≡ quoted goal.now) }
    ensures err { IfErr result (λ fault. fault ≡ WalkFault.Memory) }
{
    Ok(Text::new(quoted(alloc, goal.as_str())?))
}

// The text as it stands in them.
fn quoted(alloc: Global, text: &str) -> Result<String, AllocError>
    ensures { IfOk result (λ between. string_bytes between ≡ quoted text.now) }
{
    let mut between = String::new(alloc);
    let mut rest = text;
    while let Some((before, behind)) = rest.split_once('\'') {
        between.push_str(before)?;
        between.push_str(QUOTE)?;
        rest = behind;
    }
    between.push_str(rest)?;
    Ok(between)
}
