ghost use Rattle.std.specs.Prelude.{◌≡◌};

use ct_names::{Member, Round, ValueId};
use ct_rounds::{Inbox, Wire};
use std::alloc::{AllocError, Global};
use std::test::Fail;

fn est(from: Member, number: u32, ts: Round) -> Wire
    ensures { result ≡ Wire.Est 1 3 from number ts }
{
    let value = ValueId::new(number);
    Wire::Est {
        instance: 1,
        round: 3,
        from,
        value,
        ts,
    }
}

// Whether of the four members that were heard those with the largest ts are 2 and 3, and member 2's value is its first.
fn has_two_largest(inbox: &Inbox) -> bool {
    inbox.largest(3, 3)
        && !inbox.largest(3, 1)
        && inbox.heard(3).len() == 4
        && inbox.best(3) == Some(2)
        && inbox.estimate(3, 2) == Some(ValueId::new(20))
}

// Whether the best of round 3 is right after each of four estimates, a second one of a member changes nothing, and a copy has
// what was heard.
fn hears(alloc: Global) -> Result<bool, AllocError> {
    let mut inbox = Inbox::new(alloc);
    inbox.prepare(3)?;
    inbox.note(&est(4, 40, 0));
    let first = inbox.best(3) == Some(4);
    inbox.note(&est(3, 30, 2));
    let later = inbox.best(3) == Some(3);
    inbox.note(&est(2, 20, 2));
    let lesser = inbox.best(3) == Some(2);
    inbox.note(&est(1, 10, 1));
    let heard = has_two_largest(&inbox);
    inbox.note(&est(2, 21, 9));
    let copy = inbox.copy(alloc)?;
    Ok(first && later && lesser && heard && has_two_largest(&inbox) && has_two_largest(&copy))
}

#[test]
fn the_best_is_the_least_with_the_largest_ts(rt: HostRuntime) -> Result<(), Fail> {
    assert!(rt; hears(rt.alloc())?);
    Ok(())
}
