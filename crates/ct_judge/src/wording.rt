//! Words, and what stands behind them.

ghost use Rattle.std.specs.Prelude.{◌≡◌, OnOk};
ghost use Rattle.ct_text.specs.Adds.{Adds};
ghost use Rattle.ct_judging.specs.Wording.{numbered, numbered_twice};

use ct_names::Member;
use std::alloc::AllocError;

// The words, and a number.
#[tactic(auto, unfolding(ct_judging::specs::Wording::numbered))]
pub(crate) fn push_number(text: &mut String, words: &str, number: usize) -> Result<(), AllocError>
    ensures { OnOk result (Adds text.old text.new (numbered words.now number)) }
{
    write!(text, "{words}{number}")
}

// The words, a member, other words, and a number.
#[tactic(auto, unfolding(ct_judging::specs::Wording::numbered_twice))]
pub(crate) fn push_member_number(
    text: &mut String,
    words: &str,
    member: Member,
    then: &str,
    number: usize,
) -> Result<(), AllocError>
    ensures { OnOk result (Adds text.old text.new (numbered_twice words.now member then.now number)) }
{
    push_number(text, words, usize::from(member))?;
    push_number(text, then, number)
}
