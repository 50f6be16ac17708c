//! What is shown of a record.

ghost use Rattle.std.specs.Prelude.{◌≡◌};
ghost use Rattle.ct_views.specs.Answer.{member_of};

use crate::form::Form;
use crate::selection::Selection;
use ct_names::Member;

/// What is shown of a record.
#[derive(Clone, Copy, Debug, Drop, PartialEq, Eq)]
pub enum View {
    /// Its report, as JSON.
    Report,
    /// A line for each of the steps that are asked for.
    Steps(Selection, Form),
    /// The state after so many steps, or after all where there are fewer.
    State(u32, Form),
}

impl View {
    // The member whose steps are asked for, where they are one's.
    pub(crate) fn member(&self) -> Option<Member>
        ensures { result ≡ member_of self.now }
    {
        match self {
            View::Steps(selection, _) => selection.member,
            View::Report | View::State(_, _) => None,
        }
    }
}
