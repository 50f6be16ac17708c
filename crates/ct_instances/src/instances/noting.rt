//! Notes of wires.

ghost use Rattle.std.specs.Prelude.{◌≡◌, ℕ, IsTrue};
ghost use Rattle.std.specs.Option.{option_or};
ghost use Rattle.ct_model.specs.declared.wire.Wire.{Wire as AnyWire};
ghost use Rattle.ct_model.specs.Counted.{count_in, NamesSomebody};
ghost use Rattle.ct_model.specs.Received.{decision_of};
ghost use Rattle.ct_instances.specs.Kept.{ballots_of, decision_at, has_room, has_room_open};

use super::Instances;
use ct_rounds::{Wire, find_mut, index_in_order};

impl Instances {
    /// Notes the wire, whether or not its instance is open, which takes no memory. Of an instance's decisions the
    /// first stays. A message is not kept here.
    pub fn note(&mut self, wire: &Wire)
        requires sender { NamesSomebody wire.now }
        requires room { IsTrue (has_room self.old wire.now) }
        ensures ballots { (k r : ℕ) → ballots_of self.new k r ≡ count_in (ballots_of self.old k r) k r wire.now }
        ensures decisions { (k : ℕ) → decision_at self.new k ≡ option_or (decision_at self.old k) (decision_of k wire.now) }
        ensures rooms_open { (k : ℕ) → has_room_open self.new k ≡ has_room_open self.old k }
        ensures rooms { (w : AnyWire ℕ) → has_room self.new w ≡ has_room self.old w }
        ensures rest { self.new ≡ record self.old { entries = self.new.entries } }
    {
        let Some(instance) = wire.instance() else {
            return;
        };
        match find_mut(&mut self.entries, &instance, index_in_order(instance)) {
            Some(entry) => {
                entry.inbox.note(wire);
                entry.decision = entry.decision.or(wire.decision());
            }
            None => unreachable!(),
        }
    }
}
