//! Which instances are decided.

ghost use Rattle.std.specs.Prelude.{◌≡◌};
ghost use Rattle.ct_world.specs.Decided.{last_decided};
ghost use Rattle.ct_world.specs.World.{member_of, if_member};

use crate::world::World;
use ct_names::{Instance, Member};

impl World {
    /// The largest instance for which a member got a decision, begun or not; None for no member of the group, and where
    /// it got none. Takes time linear in the number of instances for which the member got anything.
    pub fn last_decided(&self, member: Member) -> Option<Instance>
        ensures { result ≡ if_member self.now.rehearsal member (last_decided (member_of self.now.rehearsal member).got) }
    {
        let seat = self.seat(member)?;
        seat.instances.last_decided()
    }
}
