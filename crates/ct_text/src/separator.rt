//! What stands between the pieces of a list.

ghost use Rattle.std.specs.Prelude.{◌≡◌, ◌<◌, [], ◌∷◌, if◌then◌else◌, OnOk};
ghost use Rattle.ct_text.specs.Adds.{Adds};

use std::alloc::AllocError;

/// Appends the character, which is one of ASCII, where a piece stands before.
pub fn push_separator(text: &mut String, separator: char, later: bool) -> Result<(), AllocError>
    requires { separator < 128 }
    ensures { OnOk result (Adds text.old text.new ((if later then separator ∷ [] else []))) }
{
    if later {
        text.push(separator)?;
    }
    Ok(())
}
