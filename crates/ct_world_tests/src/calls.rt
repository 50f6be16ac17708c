//! The calls of the crates below the world that take memory, once each.

ghost use Rattle.ct_model.specs.Counted.{NamesSomebody};

use ct_instances::Instances;
use ct_model::Mail;
use ct_names::{Group, ValueId};
use ct_network::Network;
use ct_relay::{Action, Relay, RelayId};
use ct_rounds::Wire;
use std::alloc::{AllocError, Global};
use std::test::Fail;

// Whether a first receipt from another is passed on, and a copy knows of it.
fn relays(alloc: Global) -> Result<bool, AllocError> {
    let mut relay = Relay::new(alloc, 1);
    let id = RelayId::Dec {
        instance: 3,
        round: 4,
    };
    let passed_on = Action {
        relay: true,
        deliver: true,
    };
    relay.prepare()?;
    let taken = relay.take(id, 2);
    let copy = relay.copy(alloc)?;
    Ok(taken == passed_on && !copy.first(id))
}

fn est() -> Wire
    ensures { NamesSomebody result }
{
    let value = ValueId::new(10);
    Wire::Est {
        instance: 1,
        round: 1,
        from: 3,
        value,
        ts: 0,
    }
}

// Whether an estimate that came before the first instance opens counts in its first round, in a copy too.
fn counts(alloc: Global, group: Group) -> Result<bool, AllocError> {
    let mut instances = Instances::new(alloc, group, 2);
    let wire = est();
    instances.prepare(&wire)?;
    instances.note(&wire);
    instances.prepare_open(1)?;
    instances.open(1, ValueId::new(20));
    let copy = instances.copy(alloc)?;
    Ok(copy.inbox().is_some_and(|inbox| inbox.heard(1).contains(3)))
}

// Whether an ack to the second member waits there, in a copy too.
fn sends(alloc: Global) -> Result<bool, AllocError> {
    let mut network = Network::new(alloc, 3)?;
    network.prepare()?;
    if network.members() != 3 || network.sent() > 100 {
        return Ok(false);
    }
    let sent = network.post(Mail::One(
        2,
        ct_model::Wire::Ack {
            instance: 1,
            round: 2,
            from: 3,
        },
    ));
    let copy = network.copy(alloc)?;
    Ok(sent == 1 && copy.line(2).is_some_and(|line| line == [1].as_slice()))
}

#[test]
fn calls_succeed_with_ample_memory(rt: HostRuntime) -> Result<(), Fail> {
    let group = Group::new(3).ok_or("a group")?;
    assert!(rt; relays(rt.alloc())?);
    assert!(rt; counts(rt.alloc(), group)?);
    assert!(rt; sends(rt.alloc())?);
    Ok(())
}
