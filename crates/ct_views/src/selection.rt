//! Which steps are shown.

ghost use Rattle.std.specs.Prelude.{◌≡◌};
ghost use Rattle.ct_views.specs.Selected.{is_selected};

use ct_names::Member;

/// The steps from one number to another, counted from 1, of one member or of all.
#[derive(Clone, Copy, Debug, Drop, PartialEq, Eq)]
pub struct Selection {
    /// The number of the first step.
    pub from: u32,
    /// The number of the last step.
    pub to: u32,
    /// The member that takes them; None for all.
    pub member: Option<Member>,
}

impl Selection {
    // Whether the step of this number and of this member is asked for.
    pub(crate) fn shows(&self, number: usize, member: Member) -> bool
        ensures { result ≡ is_selected self.now number member }
    {
        let of_member = match self.member {
            Some(wanted) => wanted == member,
            None => true,
        };
        self.from as usize <= number && number <= self.to as usize && of_member
    }
}
