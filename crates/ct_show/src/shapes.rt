//! Numbers in columns, shown.

ghost use Rattle.std.specs.Prelude.{◌≡◌, OnOk};
ghost use Rattle.ct_text.specs.Adds.{Adds};
ghost use Rattle.ct_show.specs.Shapes.{right_text, spaces_before};

use std::alloc::AllocError;

// A number at the right of a column of four places.
#[tactic(auto, unfolding(crate::specs::Shapes::right_text))]
pub(crate) fn push_right(text: &mut String, number: usize) -> Result<(), AllocError>
    ensures { OnOk result (Adds text.old text.new (right_text number)) }
{
    let spaces = spaces_before(number);
    write!(text, "{spaces}{number}")
}

fn spaces_before(number: usize) -> &'static str
    ensures { result.now ≡ spaces_before number }
{
    if number < 10 {
        "   "
    } else if number < 100 {
        "  "
    } else if number < 1000 {
        " "
    } else {
        ""
    }
}
