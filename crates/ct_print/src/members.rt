//! Members, as lines name them.

ghost use Rattle.std.specs.Prelude.{◌≡◌, ◌++◌, OnOk, if◌then◌else◌, [], string_bytes};
ghost use Rattle.ct_print.specs.Members.{set_text, list_text, who_text};

use ct_grammar::Who;
use ct_names::{MAX_MEMBERS, MemberSet};
use std::alloc::AllocError;

/// A member, a list of members or `all`.
#[tactic(auto, unfolding(crate::specs::Members::who_text))]
pub(crate) fn push_who(text: &mut String, who: Who) -> Result<(), AllocError>
    ensures { OnOk result (string_bytes text.new ≡ string_bytes text.old ++ who_text who) }
{
    match who {
        Who::One(member) => write!(text, "{member}"),
        Who::Some(set) => push_list(text, set),
        Who::All => text.push_str("all"),
    }
}

/// The members of the set, as a list that has a comma.
#[tactic(auto, unfolding(crate::specs::Members::list_text))]
pub(crate) fn push_list(text: &mut String, set: MemberSet) -> Result<(), AllocError>
    ensures { OnOk result (string_bytes text.new ≡ string_bytes text.old ++ list_text set) }
{
    push_set(text, set)?;
    if set.len() == 1 {
        text.push_str(",")?;
        push_set(text, set)?;
    }
    Ok(())
}

/// The members of the set, with commas between them.
pub(crate) fn push_set(text: &mut String, set: MemberSet) -> Result<(), AllocError>
    ensures { OnOk result (string_bytes text.new ≡ string_bytes text.old ++ set_text set) }
{
    // For its clause: the set is that of its members.
    let _ = set.len();
    let mut later = false;
    for i in 0..MAX_MEMBERS {
        let member = i + 1;
        if set.contains(member) {
            push_between(text, ",", later)?;
            write!(text, "{member}")?;
            later = true;
        }
    }
    Ok(())
}

/// What stands between two, where one stands before.
pub(crate) fn push_between(
    text: &mut String,
    separator: &str,
    later: bool,
) -> Result<(), AllocError>
    ensures { OnOk result (string_bytes text.new ≡ string_bytes text.old ++ (if later then separator.now else [])) }
{
    if later {
        text.push_str(separator)
    } else {
        Ok(())
    }
}
