//! The numbers of a group, as logs give them.

ghost use Rattle.std.specs.Prelude.{◌≡◌};
ghost use Rattle.ct_merge.specs.Numbers.{no_numbers, with_given};

use ct_grammar::Given;

/// The numbers of a group, as far as they are given.
#[derive(Clone, Copy, Drop)]
pub struct Numbers {
    pub members: Option<u8>,
    pub cells: Option<u16>,
    pub batch: Option<u32>,
}

impl Numbers {
    // None is given.
    pub(crate) fn new() -> Numbers
        ensures { result ≡ no_numbers }
    {
        Numbers {
            members: None,
            cells: None,
            batch: None,
        }
    }

    // With this one too. None: another was given in its place.
    pub(crate) fn with(self, given: Given) -> Option<Numbers>
        ensures { result ≡ with_given self given }
    {
        match (given, self) {
            (
                Given::Members(n),
                Numbers {
                    members: Some(m),
                    ..
                },
            ) if m != n => None,
            (Given::Cells(n), Numbers { cells: Some(m), .. }) if m != n => None,
            (Given::Batch(n), Numbers { batch: Some(m), .. }) if m != n => None,
            (Given::Members(n), numbers) => Some(Numbers {
                members: Some(n),
                ..numbers
            }),
            (Given::Cells(n), numbers) => Some(Numbers {
                cells: Some(n),
                ..numbers
            }),
            (Given::Batch(n), numbers) => Some(Numbers {
                batch: Some(n),
                ..numbers
            }),
        }
    }
}
