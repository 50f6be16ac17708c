//! What the adversary of a walk draws.

ghost use Rattle.std.specs.Prelude.{◌≡◌, ◌<◌, ◌==◌, ◌&&◌, ◌%◌, ◌+◌, ◌^◌, IfOk, drop, false, find, get_or, if◌then◌else◌, not, set, vec_len};
ghost use Rattle.ct_detect.specs.Seeded.{after_word, next_word, words_of_seed};
ghost use Rattle.ct_walk.specs.Adversary.{after_last, after_place, after_suspicion, at_ask, crashes_by, fifth_script, is_near, is_rare};
ghost use Rattle.ct_walk.specs.Adversary.{is_scattered, may_last, nobody, place_by, received, side_of, suspects_by};

use crate::options::WalkOptions;
use ct_detect::Ask;
use ct_names::{MAX_MEMBERS, Member, Serial};
use ct_play::{Stage, waiting_at};
use ct_rehearse::Disturbance;
use rand_core::SeedableRng;
use rand_core::utils::NextWord;
use rand_pcg::Pcg32;
use std::alloc::{AllocError, Global};

// Of each of 16 members 16.
pub(crate) const PAIRS: usize = 256;

// Whether one word of 64 comes.
#[tactic(auto, unfolding(ct_detect::specs::Seeded::next_word, ct_detect::specs::Seeded::after_word))]
pub(crate) fn comes_rarely(draws: &mut Pcg32) -> bool
    ensures value { result ≡ is_rare (next_word draws.old) }
    ensures after { draws.new ≡ after_word draws.old }
{
    draws.next_word() % 64 == 0
}

// The place in a line of this length that a member receives from.
#[tactic(auto, unfolding(ct_detect::specs::Seeded::next_word, ct_detect::specs::Seeded::after_word))]
pub(crate) fn place(options: &WalkOptions, draws: &mut Pcg32, many: usize) -> usize
    ensures value { result ≡ (if is_scattered options.now then place_by options.now.scatter (next_word draws.old) many else 0) }
    ensures after { draws.new ≡ after_place options.now draws.old }
{
    if options.scatter == 0 {
        return 0;
    }
    let word = draws.next_word();
    if word % 256 < u32::from(options.scatter) {
        (word / 256) as usize % many.max(1)
    } else {
        0
    }
}

// The serial that the member receives, where its line is looked at from this place on.
#[tactic(auto, unfolding(crate::specs::Adversary::received))]
pub(crate) fn received(stage: &Stage, cut: u32, member: Member, place: usize) -> Option<Serial>
    ensures { result ≡ received cut stage.now.rehearsal member place }
{
    let waiting = waiting_at(stage, member);
    if cut == 0 {
        return waiting.get(place).copied();
    }
    first_near(stage, cut, member, behind(waiting, place))
}

// The first of the serials whose envelope was sent on the member's side.
fn first_near(stage: &Stage, cut: u32, member: Member, serials: &[Serial]) -> Option<Serial>
    ensures { result ≡ find (is_near cut stage.now.rehearsal member) serials.now }
{
    serials
        .iter()
        .copied()
        .find(|serial| is_near(stage, cut, member, *serial))
}

// The serials from this place on.
fn behind(serials: &[Serial], place: usize) -> &[Serial]
    ensures { result.now ≡ drop place serials.now }
{
    serials.get(place..).unwrap_or(&[])
}

// Whether the envelope of the serial was sent on the member's side.
#[tactic(auto, unfolding(crate::specs::Adversary::is_near))]
fn is_near(stage: &Stage, cut: u32, member: Member, serial: Serial) -> bool
    ensures { result ≡ is_near cut stage.now.rehearsal member serial }
{
    match stage.sender(serial) {
        None => true,
        Some(sender) => side(cut, member) == side(cut, sender),
    }
}

// The member's side of the cut.
fn side(cut: u32, member: Member) -> u32
    ensures { result ≡ side_of cut member }
{
    match member {
        1..=MAX_MEMBERS => (cut >> (member - 1)) & 1,
        _ => 0,
    }
}

// Nobody was suspected yet.
pub(crate) fn nobody() -> [bool; PAIRS]
    ensures { result ≡ nobody }
{
    [false; PAIRS]
}

// Whether the member suspects whom it asks about, where its detector says this.
pub(crate) fn suspects(
    options: &WalkOptions,
    draws: &mut Pcg32,
    suspected: &mut [bool; PAIRS],
    asked: Option<Ask>,
    said: bool,
) -> bool
    ensures value { result ≡ suspects_by options.now draws.old (may_last options.now suspected.old asked said) said }
    ensures draws { draws.new ≡ after_last draws.old (may_last options.now suspected.old asked said) }
    ensures suspected { suspected.new ≡ after_suspicion suspected.old asked
        (suspects_by options.now draws.old (may_last options.now suspected.old asked said) said) }
{
    let Some(ask) = asked else {
        return said;
    };
    let place = place_of(&ask);
    let suspects = last(options, draws, is_set(suspected, place), said);
    note(suspected, place, suspects);
    suspects
}

// The same where this says whether it suspected before.
#[tactic(auto, unfolding(ct_detect::specs::Seeded::next_word, ct_detect::specs::Seeded::after_word))]
fn last(options: &WalkOptions, draws: &mut Pcg32, before: bool, said: bool) -> bool
    ensures value { result ≡ suspects_by options.now draws.old (not (options.now.lasting == 0) && (not said && before)) said }
    ensures after { draws.new ≡ after_last draws.old (not (options.now.lasting == 0) && (not said && before)) }
{
    if options.lasting > 0 && !said && before {
        draws.next_word() % 256 < u32::from(options.lasting)
    } else {
        said
    }
}

fn note(suspected: &mut [bool; PAIRS], place: usize, suspects: bool)
    ensures { suspected.new ≡ set suspected.old place suspects }
{
    if place < PAIRS {
        suspected[place] = suspects;
    }
}

fn is_set(suspected: &[bool; PAIRS], place: usize) -> bool
    ensures { result ≡ get_or suspected.now place false }
{
    match suspected.get(place) {
        Some(it) => *it,
        None => false,
    }
}

// Where it stands whether the one that asks suspected whom it asks about.
fn place_of(ask: &Ask) -> usize
    ensures { result ≡ at_ask ask.now }
{
    16 * usize::from(ask.member).saturating_sub(1) + usize::from(ask.coordinator).saturating_sub(1)
}

// The fifth script: crashes, of members that words name.
#[tactic(auto, unfolding(crate::specs::Adversary::fifth_script))]
pub(crate) fn crashes(alloc: Global, options: &WalkOptions) -> Result<Vec<Disturbance>, AllocError>
    requires members { 0 < options.now.run.members }
    ensures exact { IfOk result (λ script. script.items ≡ fifth_script options.now) }
    ensures few { IfOk result (λ script. vec_len script ≡ options.now.crashes) }
{
    let draws = behind_seeds(options.run.seed);
    named(alloc, options.run.members, options.crashes, draws)
}

// A generator that starts behind the seeds of all walks.
#[tactic(auto, unfolding(ct_detect::specs::Seeded::words_of_seed))]
fn behind_seeds(seed: u32) -> Pcg32
    ensures { result ≡ words_of_seed (2 ^ 32 + seed) }
{
    Pcg32::seed_from_u64((1 << 32) + u64::from(seed))
}

fn named(
    alloc: Global,
    members: u8,
    count: u8,
    mut draws: Pcg32,
) -> Result<Vec<Disturbance>, AllocError>
    requires { 0 < members }
    ensures exact { IfOk result (λ script. script.items ≡ crashes_by members count draws) }
    ensures few { IfOk result (λ script. vec_len script ≡ count) }
{
    let mut script = Vec::new(alloc);
    for _ in 0..count {
        script.push(crash(&mut draws, members))?;
    }
    Ok(script)
}

#[tactic(auto, unfolding(ct_detect::specs::Seeded::next_word, ct_detect::specs::Seeded::after_word))]
fn crash(draws: &mut Pcg32, members: u8) -> Disturbance
    requires { 0 < members }
    ensures value { result ≡ Disturbance.Crash (next_word draws.old % members + 1) }
    ensures after { draws.new ≡ after_word draws.old }
{
    Disturbance::Crash((draws.next_word() % u32::from(members)) as u8 + 1)
}
