//! Where members stand, by numbers.

ghost use Rattle.std.specs.Prelude.{◌≡◌, map, option_map};
ghost use Rattle.ct_names.specs.Group.{everyone};
ghost use Rattle.ct_names.specs.MemberSet.{bits_of};
ghost use Rattle.ct_world.specs.Standing.{heard_by};
ghost use Rattle.ct_world.specs.World.{if_member, member_of, of_member};
ghost use Rattle.ct_embed.specs.StandingCodes.{no_standing, phase_code, set_code, standing_code, ts_code};

use ct_model::Phase;
use ct_names::{MAX_MEMBERS, Member, MemberSet, Message, Round};
use ct_world::World;

/// Where a member stands: its last instance and, while that is open, its round, its phase, the ts of its estimate, and whom it heard, each
/// with the ts that it heard, who acked and who replied, as bits. Zeros where there is no member.
#[repr(C)]
#[derive(Clone, Copy)]
pub struct StandingCode {
    pub instance: u32,
    pub round: u32,
    pub ts: u32,
    pub heard_ts: [u32; 16],
    pub heard: u16,
    pub acked: u16,
    pub replied: u16,
    pub member: u8,
    pub phase: u8,
    pub has_crashed: bool,
}

impl StandingCode {
    // The numbers of no member.
    pub(crate) fn none() -> StandingCode
        ensures { result ≡ no_standing }
    {
        StandingCode {
            instance: 0,
            round: 0,
            ts: 0,
            heard_ts: [0; 16],
            heard: 0,
            acked: 0,
            replied: 0,
            member: 0,
            phase: 0,
            has_crashed: false,
        }
    }

    // The numbers of a member of the world, those of none where there is no such member.
    pub(crate) fn of(world: &World, member: Member) -> StandingCode
        ensures { result ≡ standing_code member (of_member world.now.rehearsal member (member_of world.now.rehearsal member)) }
    {
        let Some((instance, _)) = world.instance(member) else {
            return StandingCode::none();
        };
        let (round, phase) = match world.round(member) {
            None => (0, 0),
            Some((round, phase)) => (round, phase_code(phase)),
        };
        StandingCode {
            instance,
            round,
            ts: ts_code(world.estimate(member)),
            heard_ts: all_heard(world, member),
            heard: set_code(world.heard(member)),
            acked: set_code(world.acked(member)),
            replied: set_code(world.replied(member)),
            member,
            phase,
            has_crashed: world.crashed(member),
        }
    }
}

fn phase_code(phase: Phase) -> u8
    ensures { result ≡ phase_code phase }
{
    match phase {
        Phase::Rest => 1,
        Phase::Gather => 2,
        Phase::Wait => 3,
        Phase::Tally => 4,
    }
}

// The ts of an estimate, 0 where there is none.
fn ts_code(estimate: Option<(&[Message], Round)>) -> Round
    ensures { result ≡ ts_code (option_map (λ e. (e.0.now, e.1)) estimate.entry) }
{
    match estimate {
        None => 0,
        Some((_, ts)) => ts,
    }
}

// The ts of the estimates that a member heard of members 1 to 16.
#[tactic(auto, unfolding(ct_names::specs::Group::members))]
fn all_heard(world: &World, member: Member) -> [Round; 16]
    ensures { result ≡ map (λ from. ts_code (if_member world.now.rehearsal member
        (heard_by (member_of world.now.rehearsal member) from))) everyone }
{
    [
        heard(world, member, 1),
        heard(world, member, 2),
        heard(world, member, 3),
        heard(world, member, 4),
        heard(world, member, 5),
        heard(world, member, 6),
        heard(world, member, 7),
        heard(world, member, 8),
        heard(world, member, 9),
        heard(world, member, 10),
        heard(world, member, 11),
        heard(world, member, 12),
        heard(world, member, 13),
        heard(world, member, 14),
        heard(world, member, 15),
        heard(world, member, 16),
    ]
}

fn heard(world: &World, member: Member, from: Member) -> Round
    ensures { result ≡ ts_code (if_member world.now.rehearsal member (heard_by (member_of world.now.rehearsal member) from)) }
{
    ts_code(world.heard_from(member, from))
}

// The bits of a set, the lowest of member 1; 0 where there is none.
fn set_code(set: Option<MemberSet>) -> u16
    ensures { result ≡ set_code set }
{
    match set {
        None => 0,
        Some(set) => bits_of(set),
    }
}

// Those of a set that is there.
fn bits_of(set: MemberSet) -> u16
    ensures { result ≡ bits_of set }
{
    let mut bits: u16 = 0;
    for i in 0..MAX_MEMBERS {
        let bit = u16::from(set.contains(MAX_MEMBERS - i));
        bits = 2 * bits + bit;
    }
    bits
}
