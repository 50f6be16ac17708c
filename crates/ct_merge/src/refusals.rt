//! Lines that are refused by themselves.

ghost use Rattle.std.specs.Prelude.{◌≡◌};
ghost use Rattle.ct_merge.specs.Standstills.{is_refused};

use crate::verdict::Culprit;
use ct_names::Member;

/// Whether one of these lines is at this place of the member's log.
pub(crate) fn is_refused(refused: &[Culprit], member: Member, place: usize) -> bool
    ensures { result ≡ is_refused refused.now member place }
{
    refused.iter().any(|culprit| culprit.member == member && culprit.place == place)
}

/// Where the member's log ends: at the one of these lines that is its own.
pub(crate) fn end_of(refused: &[Culprit], member: Member) -> usize {
    match refused.iter().find(|culprit| culprit.member == member) {
        Some(culprit) => culprit.place,
        None => usize::MAX,
    }
}
