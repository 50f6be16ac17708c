//! What a schedule expects in the end.

ghost use Rattle.std.specs.Prelude.{◌≡◌, ◌<◌, ◌≤◌, ℕ, OnOk, IfOk, IsTrue, Some, map, slice_index, string_bytes};
ghost use Rattle.ct_names.specs.Group.{is_member};
ghost use Rattle.ct_names.specs.declared.limit.TheConstants.{REGISTERS};
ghost use Rattle.ct_grammar.specs.Numbers.{max_u64};
ghost use Rattle.ct_play.specs.Facts.{place_of};
ghost use Rattle.ct_play.specs.Facts.{the_name};
ghost use Rattle.ct_listing.specs.Expecting.{IsThere};
ghost use Rattle.ct_listing.specs.Leading.{Leads};
ghost use Rattle.ct_print.specs.Writable.{NamesFit};

use crate::lines::{push_blank, push_fact};
use ct_grammar::{Fact, Name, Names};
use ct_model::Phase;
use ct_names::{Member, Message, REGISTERS, Round};
use ct_play::Stage;
use ct_table::Table;
use ct_text::instance_of;
use std::alloc::{AllocError, Global};

// Writes what is there at each member.
pub(crate) fn push_facts(alloc: Global, text: &mut String, stage: &Stage) -> Result<(), AllocError>
    requires { Leads (string_bytes text.old) stage.now }
    ensures { OnOk result (Leads (string_bytes text.new) stage.now) }
{
    let n = stage.world().group().n();
    for i in 0..n {
        push_blank(alloc, text, stage)?;
        push_facts_of(alloc, text, stage, i + 1)?;
    }
    Ok(())
}

// Writes what is there at the member: whether it is up, its instance, what it delivered, and its table.
fn push_facts_of(
    alloc: Global,
    text: &mut String,
    stage: &Stage,
    member: Member,
) -> Result<(), AllocError>
    requires leads { Leads (string_bytes text.old) stage.now }
    requires member { IsTrue (is_member stage.now.rehearsal.setting.members member) }
    ensures { OnOk result (Leads (string_bytes text.new) stage.now) }
{
    push_fact(alloc, text, stage, member, life(stage, member))?;
    push_fact(alloc, text, stage, member, last_instance(stage, member))?;
    push_place(alloc, text, stage, member)?;
    push_fact(alloc, text, stage, member, delivered(alloc, stage, member)?)?;
    push_fact(alloc, text, stage, member, table(stage, member))
}

// Writes that no instance is open, or the round and the phase.
fn push_place(
    alloc: Global,
    text: &mut String,
    stage: &Stage,
    member: Member,
) -> Result<(), AllocError>
    requires leads { Leads (string_bytes text.old) stage.now }
    requires member { IsTrue (is_member stage.now.rehearsal.setting.members member) }
    ensures { OnOk result (Leads (string_bytes text.new) stage.now) }
{
    match stage.world().round(member) {
        None => push_fact(alloc, text, stage, member, Fact::Idle),
        Some((round, phase)) => push_round(alloc, text, stage, member, round, phase),
    }
}

fn push_round(
    alloc: Global,
    text: &mut String,
    stage: &Stage,
    member: Member,
    round: Round,
    phase: Phase,
) -> Result<(), AllocError>
    requires leads { Leads (string_bytes text.old) stage.now }
    requires member { IsTrue (is_member stage.now.rehearsal.setting.members member) }
    requires place { place_of stage.now.rehearsal member ≡ Some (round, phase) }
    ensures { OnOk result (Leads (string_bytes text.new) stage.now) }
{
    push_fact(alloc, text, stage, member, Fact::Round(round))?;
    push_fact(alloc, text, stage, member, Fact::Phase(phase))
}

fn life(stage: &Stage, member: Member) -> Fact
    requires { IsTrue (is_member stage.now.rehearsal.setting.members member) }
    ensures { IsThere stage.now member result }
{
    if stage.world().crashed(member) {
        Fact::Crashed
    } else {
        Fact::Up
    }
}

fn last_instance(stage: &Stage, member: Member) -> Fact
    requires { IsTrue (is_member stage.now.rehearsal.setting.members member) }
    ensures { IsThere stage.now member result }
{
    Fact::Instance(instance_of(stage.world(), member))
}

// What it delivered, by names.
fn delivered(alloc: Global, stage: &Stage, member: Member) -> Result<Fact, AllocError>
    requires { IsTrue (is_member stage.now.rehearsal.setting.members member) }
    ensures { IfOk result (λ fact. IsThere stage.now member fact) }
{
    let world = stage.world();
    // For its clauses: what was delivered was submitted by members of the group.
    let _ = world.record();
    match world.delivered(member) {
        None => unreachable!(),
        Some(messages) => Ok(Fact::Delivered(names_of(alloc, messages)?)),
    }
}

// The names of the messages.
fn names_of(alloc: Global, messages: &[Message]) -> Result<Names, AllocError>
    ensures names { IfOk result (λ names. names ≡ map the_name messages.now) }
    ensures fit { IfOk result NamesFit }
{
    let mut names = Vec::new(alloc);
    for message in messages {
        let origin = message.origin();
        let number = message.number();
        names.push(Name { origin, number })?;
    }
    Ok(Names::new(names))
}

fn table(stage: &Stage, member: Member) -> Fact
    requires { IsTrue (is_member stage.now.rehearsal.setting.members member) }
    ensures { IsThere stage.now member result }
{
    match stage.world().table(member) {
        None => unreachable!(),
        Some(table) => Fact::Table(same_table(table)),
    }
}

// The table. For its clause each register is read: what stands there is of its type.
fn same_table(table: &Table) -> Table
    ensures same { result ≡ table.now }
    ensures small { (register : ℕ) → register < REGISTERS → slice_index result register ≤ max_u64 }
{
    for register in 0..REGISTERS {
        let _ = table.get(register).unwrap_or(0);
    }
    *table
}
