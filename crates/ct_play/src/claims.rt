//! What goals say of members.

ghost use Rattle.std.specs.Prelude.{◌≡◌, IsTrue, option_map, position};
ghost use Rattle.ct_names.specs.Group.{is_member};
ghost use Rattle.ct_model.specs.Cause.{cause};
ghost use Rattle.ct_world.specs.World.{member_of};
ghost use Rattle.ct_play.specs.Claims.{amount_of, carries_other, chooses_unseen, concludes_again, decides_again, follows};
ghost use Rattle.ct_play.specs.Claims.{gets, has_got, is_again, is_earlier, is_enough, is_led, is_refused_so, is_other_decision};
ghost use Rattle.ct_play.specs.Claims.{is_true_of, is_unseen, last_step, refuses_choice, refuses_heard, round_at, says, stands_before};
ghost use Rattle.ct_play.specs.Claims.{suspects_up};
ghost use Rattle.ct_play.specs.Claims.{was_other};
ghost use Rattle.ct_play.specs.Facts.{is_named, place_of};

use crate::facts::{decision_count, holds, is_named};
use crate::picking::{is_carried, is_so, waiting_at};
use crate::stage::Stage;
use ct_grammar::{Amount, Carried, Claim, Extent, Name, Reason};
use ct_model::{Phase, Step};
use ct_names::{Instance, Member, Message, Round, Serial};
use ct_progress::{is_settled, is_stuck};
use ct_world::{Letter, Wire, World};

// Whether the claim is true of the member; of no member of the group it is.
#[tactic(auto, unfolding(crate::specs::Claims::is_true_of))]
pub(crate) fn is_true_of(stage: &Stage, member: Member, claim: &Claim) -> bool
    ensures { result ≡ is_true_of stage.now member claim.now }
{
    if stage.world().group().has(member) {
        says(stage, member, claim)
    } else {
        false
    }
}

// What the claim says of a member of the group.
fn says(stage: &Stage, member: Member, claim: &Claim) -> bool
    requires { IsTrue (is_member stage.now.rehearsal.setting.members member) }
    ensures { result ≡ says stage.now member claim.now }
{
    let world = stage.world();
    match claim {
        Claim::Fact(fact) => holds(stage, member, fact),
        Claim::Amount(what, extent) => is_enough(*extent, amount_of(stage, member, *what)),
        Claim::Got(instance) => world.decided(member, *instance).is_some(),
        Claim::Before(one, other) => {
            let list = world.delivered(member).unwrap_or(&[]);
            stands_before(list, *one, *other)
        }
        Claim::RefusesChoice(reason) => refuses_choice(world, member, *reason),
        Claim::SuspectsUp => suspects_up(world, member, last_step(world)),
        Claim::Follows(instance) => follows(world, member, *instance, last_step(world)),
        Claim::ChoosesUnseen => chooses_unseen(world, member, last_step(world)),
        Claim::ConcludesAgain => concludes_again(stage, member, last_step(world)),
        Claim::Settled => is_settled(world, member),
        Claim::Stuck => is_stuck(world, member),
    }
}

// ---- numbers

/// What is counted of a member of the group.
pub fn amount_of(stage: &Stage, member: Member, what: Amount) -> usize
    requires { IsTrue (is_member stage.now.rehearsal.setting.members member) }
    ensures { result ≡ amount_of stage.now.rehearsal member what }
{
    let world = stage.world();
    match what {
        Amount::Instance => {
            let (instance, _) = world.instance(member).unwrap_or((0, false));
            instance as usize
        }
        Amount::Round => round_at(world.round(member)) as usize,
        Amount::Waiting => waiting_at(stage, member).len(),
        Amount::Received => world.received(member).unwrap_or(&[]).len(),
        Amount::Decided => decision_count(world, member) as usize,
        Amount::Delivered => world.delivered(member).unwrap_or(&[]).len(),
    }
}

fn round_at(place: Option<(Round, Phase)>) -> Round
    ensures { result ≡ round_at place }
{
    match place {
        None => 0,
        Some((round, _)) => round,
    }
}

// Whether it is as much as is wanted.
fn is_enough(extent: Extent, count: usize) -> bool
    ensures { result ≡ is_enough extent count }
{
    match extent {
        Extent::Exactly(wanted) => count == wanted as usize,
        Extent::AtLeast(least) => least as usize <= count,
    }
}

// ---- messages

// Whether both are there, and the first one stands earlier.
#[tactic(auto, unfolding(crate::specs::Claims::stands_before))]
fn stands_before(list: &[Message], one: Name, other: Name) -> bool
    ensures { result ≡ stands_before list.now one other }
{
    is_earlier(place_of(list, one), place_of(list, other))
}

fn place_of(list: &[Message], name: Name) -> Option<usize>
    ensures { result ≡ position (is_named name) list.now }
{
    list.iter().position(|message| is_named(name, message))
}

fn is_earlier(one: Option<usize>, other: Option<usize>) -> bool
    ensures { result ≡ is_earlier one other }
{
    match (one, other) {
        (Some(one), Some(other)) => one < other,
        _ => false,
    }
}

// ---- refusals

// Whether the rules refuse the member the choice of an estimate that it heard for this reason.
fn refuses_choice(world: &World, member: Member, reason: Reason) -> bool
    ensures { result ≡ refuses_choice world.now.rehearsal member reason }
{
    for i in 0..world.group().n() {
        if refuses_heard(world, member, reason, i + 1) {
            return true;
        }
    }
    false
}

// Whether the member heard this one for its round, and the rules refuse it the choice of its estimate for this reason.
fn refuses_heard(world: &World, member: Member, reason: Reason, from: Member) -> bool
    ensures { result ≡ refuses_heard world.now.rehearsal member reason from }
{
    world.heard_from(member, from).is_some()
        && is_refused_so(world, Step::Choose(member, from), reason)
}

// Whether the rules refuse the step for this reason.
fn is_refused_so(world: &World, step: Step, reason: Reason) -> bool
    ensures { result ≡ is_refused_so reason (cause world.now.rehearsal step) }
{
    match world.enabled(&step) {
        Ok(()) => false,
        Err(refusal) => Reason::Rules(refusal) == reason,
    }
}

// ---- last steps

#[tactic(auto, unfolding(crate::specs::Claims::last_step))]
fn last_step(world: &World) -> Option<Step>
    ensures { result ≡ last_step world.now.rehearsal }
{
    world.record().last().copied()
}

// Whether the coordinator of the round has not crashed.
fn is_led(world: &World, place: Option<(Round, Phase)>) -> bool
    ensures { result ≡ is_led world.now.rehearsal place }
{
    match place {
        None => false,
        Some((round, _)) => !world.crashed(world.group().coordinator(round)),
    }
}

// Whether by this step the member suspects a coordinator that has not crashed.
fn suspects_up(world: &World, member: Member, step: Option<Step>) -> bool
    ensures { result ≡ suspects_up world.now.rehearsal member step }
{
    match step {
        Some(Step::Suspect(actor)) => actor == member && is_led(world, world.round(member)),
        _ => false,
    }
}

// Whether by this step the member follows the instance.
fn follows(world: &World, member: Member, instance: Instance, step: Option<Step>) -> bool
    requires { IsTrue (is_member world.now.rehearsal.setting.members member) }
    ensures { result ≡ follows world.now.rehearsal member instance step }
{
    match step {
        Some(Step::Follow(actor)) => actor == member && last_of(world, member) == instance,
        _ => false,
    }
}

// The last instance that the member began, 0 before the first.
pub(crate) fn last_of(world: &World, member: Member) -> Instance
    requires { IsTrue (is_member world.now.rehearsal.setting.members member) }
    ensures { result ≡ (member_of world.now.rehearsal member).last }
{
    let (instance, _) = world.instance(member).unwrap_or((0, false));
    instance
}

// Whether by this step the member chooses an estimate of a round whose proposal it never got.
fn chooses_unseen(world: &World, member: Member, step: Option<Step>) -> bool
    requires { IsTrue (is_member world.now.rehearsal.setting.members member) }
    ensures { result ≡ chooses_unseen world.now.rehearsal member step }
{
    match step {
        Some(Step::Choose(actor, from)) => {
            actor == member && is_unseen(world, member, world.heard_from(member, from))
        }
        _ => false,
    }
}

// Whether the estimate has a ts above 0, and the member never got the proposal of that round.
fn is_unseen(world: &World, member: Member, estimate: Option<(&[Message], Round)>) -> bool
    requires { IsTrue (is_member world.now.rehearsal.setting.members member) }
    ensures { result ≡ is_unseen world.now.rehearsal member (option_map (λ e. (e.0.now, e.1)) estimate.entry) }
{
    match estimate {
        None => false,
        Some((_, ts)) => {
            ts > 0 && !has_got(world, member, Carried::Prop(last_of(world, member), ts))
        }
    }
}

// Whether the member received an envelope that carries this. It looks through the record.
#[tactic(auto, unfolding(crate::specs::Claims::has_got))]
fn has_got(world: &World, member: Member, carried: Carried) -> bool
    ensures { result ≡ has_got world.now.rehearsal member carried }
{
    world
        .record()
        .iter()
        .any(|step| gets(world, member, carried, *step))
}

// Whether by the step the member receives such an envelope.
fn gets(world: &World, member: Member, carried: Carried, step: Step) -> bool
    ensures { result ≡ gets world.now.rehearsal member carried step }
{
    match step {
        Step::Receive(actor, serial) => actor == member
            && is_carried(carried, world.letter(serial)),
        _ => false,
    }
}

// Whether by this step the member concludes its round by a decision, and one of another round was sent.
fn concludes_again(stage: &Stage, member: Member, step: Option<Step>) -> bool
    requires { IsTrue (is_member stage.now.rehearsal.setting.members member) }
    ensures { result ≡ concludes_again stage.now.rehearsal member step }
{
    match step {
        Some(Step::Conclude(actor)) => actor == member && is_again(stage, member),
        _ => false,
    }
}

fn is_again(stage: &Stage, member: Member) -> bool
    requires { IsTrue (is_member stage.now.rehearsal.setting.members member) }
    ensures { result ≡ is_again stage.now.rehearsal member (place_of stage.now.rehearsal member) }
{
    let world = stage.world();
    match world.round(member) {
        None => false,
        Some((round, _)) => decides_again(stage, member, last_of(world, member), round),
    }
}

// Whether the member sent a decision of the instance and the round, and one of another round was sent. It looks through what
// was sent.
#[tactic(auto, unfolding(crate::specs::Claims::decides_again))]
fn decides_again(stage: &Stage, member: Member, instance: Instance, round: Round) -> bool
    ensures { result ≡ decides_again stage.now.rehearsal member instance round }
{
    let mut own = false;
    let mut other = false;
    for i in 0..stage.world().sent() {
        own = own || is_so(stage, Carried::Dec(instance, round), Some(member), i + 1);
        other = other || was_other(stage.world(), instance, round, i + 1);
    }
    own && other
}

// Whether the envelope of the serial carries a decision of the instance, of another round.
#[tactic(auto, unfolding(crate::specs::Claims::was_other))]
fn was_other(world: &World, instance: Instance, round: Round, serial: Serial) -> bool
    ensures { result ≡ was_other world.now.rehearsal instance round serial }
{
    carries_other(instance, round, world.letter(serial))
}

fn carries_other(instance: Instance, round: Round, letter: Option<Letter>) -> bool
    ensures { result ≡ carries_other instance round letter }
{
    match letter {
        None => false,
        Some(letter) => is_other_decision(instance, round, &letter.wire),
    }
}

fn is_other_decision(instance: Instance, round: Round, wire: &Wire) -> bool
    ensures { result ≡ is_other_decision instance round wire.now }
{
    match *wire {
        Wire::Dec {
            instance: of,
            round: at,
            ..
        } => of == instance && at != round,
        _ => false,
    }
}
