//! What the threads of a free run are to do.

ghost use Rattle.std.specs.Prelude.{◌≡◌, ◌<◌, ◌≤◌, IfOk, vec_len};
ghost use Rattle.ct_rehearse.specs.Plans.{entries, turns_planned, IsWithin};
ghost use Rattle.ct_program.specs.FreeOptions.{InRange};
ghost use Rattle.ct_program.specs.Planning.{entry, first_count, first_entries, first_script, fourth_script, in_turn};
ghost use Rattle.ct_program.specs.Planning.{second_script, third_script, turns_of, IsPlanOf};

use crate::free_options::FreeOptions;
use crate::kind::Kind;
use ct_names::{Command, Member};
use ct_rehearse::{Disturbance, Plan};
use std::alloc::{AllocError, Global};

// The turns and the four scripts that the options ask for.
pub(crate) fn plan(alloc: Global, options: &FreeOptions) -> Result<Plan, AllocError>
    requires { InRange options.now }
    ensures exact { IfOk result (IsPlanOf options.now) }
    ensures within { IfOk result (λ plan. IsWithin plan) }
    ensures entries { IfOk result (λ plan. entries plan ≤ 4001) }
    ensures turns { IfOk result (λ plan. turns_planned options.now.members plan ≡ turns_of options.now) }
{
    let first = submissions(alloc, options)?;
    let second = postponements(alloc, options)?;
    let third = losses(alloc, options)?;
    let fourth = repetitions(alloc, options)?;
    let scripts = vec![in alloc; first, second, third, fourth]?;
    Ok(Plan {
        turns: options.turns,
        scripts,
    })
}

/// The first script: submissions, and the crash where one is asked for.
pub fn submissions(alloc: Global, options: &FreeOptions) -> Result<Vec<Disturbance>, AllocError>
    requires { InRange options.now }
    ensures exact { IfOk result (λ script. script.items ≡ first_script options.now) }
    ensures count { IfOk result (λ script. vec_len script ≡ first_count options.now) }
{
    let mut script = first_entries(alloc, Kind::Submission, options.members, options.submit)?;
    if options.crash > 0 {
        script.push(Disturbance::Crash(options.crash))?;
    }
    Ok(script)
}

/// The second script: postponements.
pub fn postponements(alloc: Global, options: &FreeOptions) -> Result<Vec<Disturbance>, AllocError>
    requires { InRange options.now }
    ensures exact { IfOk result (λ script. script.items ≡ second_script options.now) }
    ensures count { IfOk result (λ script. vec_len script ≡ options.now.postpone) }
{
    first_entries(alloc, Kind::Postponement, options.members, options.postpone)
}

/// The third script: losses.
pub fn losses(alloc: Global, options: &FreeOptions) -> Result<Vec<Disturbance>, AllocError>
    requires { InRange options.now }
    ensures exact { IfOk result (λ script. script.items ≡ third_script options.now) }
    ensures count { IfOk result (λ script. vec_len script ≡ options.now.lose) }
{
    first_entries(alloc, Kind::Loss, options.members, options.lose)
}

/// The fourth script: repetitions.
pub fn repetitions(alloc: Global, options: &FreeOptions) -> Result<Vec<Disturbance>, AllocError>
    requires { InRange options.now }
    ensures exact { IfOk result (λ script. script.items ≡ fourth_script options.now) }
    ensures count { IfOk result (λ script. vec_len script ≡ options.now.repeat) }
{
    first_entries(alloc, Kind::Repetition, options.members, options.repeat)
}

// So many entries of this kind.
fn first_entries(
    alloc: Global,
    kind: Kind,
    members: u8,
    count: u16,
) -> Result<Vec<Disturbance>, AllocError>
    requires { 0 < members }
    ensures exact { IfOk result (λ script. script.items ≡ first_entries (entry kind members) count) }
    ensures count { IfOk result (λ script. vec_len script ≡ count) }
{
    let mut script = Vec::new(alloc);
    for i in 0..count {
        script.push(entry(kind, members, i))?;
    }
    Ok(script)
}

// The entry of this kind at a place, counted from 0.
fn entry(kind: Kind, members: u8, i: u16) -> Disturbance
    requires { 0 < members }
    ensures { result ≡ entry kind members i }
{
    let member = turn_of(members, i);
    match kind {
        Kind::Submission => {
            Disturbance::Submit(member, Command::Add((i % 16) as u8, u64::from(i) + 1))
        }
        Kind::Postponement => Disturbance::Postpone(member),
        Kind::Loss => Disturbance::Lose(member),
        Kind::Repetition => Disturbance::Repeat(member, u32::from(i) + 1),
    }
}

// The member whose turn it is at a place, counted from 0.
fn turn_of(members: u8, i: u16) -> Member
    requires { 0 < members }
    ensures { result ≡ in_turn members i }
{
    (i % u16::from(members)) as u8 + 1
}
