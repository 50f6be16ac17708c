//! What the world's type says, as the contract of one call.

ghost use Rattle.std.specs.Prelude.{◌≡◌, length, is_some, IfSome, Some};
ghost use Rattle.ct_model.specs.Lawful.{EachWasAllowed, IsWithin};
ghost use Rattle.ct_model.specs.Rehearsal.{state_of};
ghost use Rattle.ct_model.specs.Run.{run};
ghost use Rattle.ct_model.specs.Safe.{IsSafe};
ghost use Rattle.ct_model.specs.State.{delivered};
ghost use Rattle.ct_names.specs.Group.{is_member};
ghost use Rattle.ct_table.specs.Table.{table};
ghost use Rattle.ct_world.specs.World.{member_of};

use crate::outcome::Outcome;
use crate::world::World;
use ct_names::Member;

impl World {
    /// The record, what a member delivered, and its table; None for no member of the group. Whatever was asked of the
    /// world, and whichever members crashed, the record is a run of the algorithm (Chandra and Toueg, sections 4, 6.2
    /// and 7) that ends in this world, which passes no limit; each of its steps was allowed where it stands, so it replays;
    /// each instance has at most one decided value, which some member proposed for it; of the sequences that two members
    /// delivered one begins the other, without repeats, only of messages that were submitted; no batch has more messages
    /// than the world's bound; and each table is what its member's sequence gives.
    pub fn outcome(&self, member: Member) -> Option<Outcome<'_>>
        ensures there { is_some result ≡ is_member self.now.rehearsal.setting.members member }
        ensures steps { IfSome result (λ outcome. outcome.record.now ≡ self.now.rehearsal.steps) }
        ensures runs { run self.now.rehearsal.setting self.now.rehearsal.steps ≡ Some (state_of self.now.rehearsal) }
        ensures within { IsWithin self.now.rehearsal.cells (state_of self.now.rehearsal) (length self.now.rehearsal.steps) }
        ensures allowed { EachWasAllowed self.now.rehearsal }
        ensures safe { IsSafe self.now.rehearsal.setting (state_of self.now.rehearsal) }
        ensures delivered { IfSome result (λ outcome. outcome.delivered.now ≡ delivered (member_of self.now.rehearsal member)) }
        ensures table { IfSome result (λ outcome. outcome.table.now ≡ table outcome.delivered.now) }
    {
        let record = self.record();
        let seat = self.seat(member)?;
        Some(Outcome {
            record,
            delivered: seat.caster.delivered(),
            table: &seat.table,
        })
    }
}
