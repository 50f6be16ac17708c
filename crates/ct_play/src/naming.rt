//! Which members a line is about.

ghost use Rattle.std.specs.Prelude.{◌≡◌, ◌≤◌, [], ◌∷◌, Ok, IfOk, IfErr, filter};
ghost use Rattle.ct_names.specs.Group.{everyone, members};
ghost use Rattle.ct_names.specs.MemberSet.{has_member};
ghost use Rattle.ct_play.specs.Faults.{IsFaultOf};
ghost use Rattle.ct_play.specs.Who.{known, named, stranger};

use crate::line_fault::LineFault;
use ct_grammar::Who;
use ct_names::{Group, MAX_MEMBERS, Member, MemberSet};
use std::alloc::{AllocError, Global};

// The members that the line names, which have to be members of the group.
#[tactic(auto, unfolding(crate::specs::Who::known))]
pub(crate) fn known(alloc: Global, group: Group, who: Who) -> Result<Vec<Member>, LineFault>
    ensures ok { IfOk result (λ list. known group who ≡ Ok list.items) }
    ensures named { IfOk result (λ list. list.items ≡ named group who) }
    ensures err { IfErr result (IsFaultOf (known group who)) }
{
    let members = named(alloc, group, who)?;
    match stranger(group, &members) {
        None => Ok(members),
        Some(member) => Err(LineFault::NoSuchMember(member)),
    }
}

// The first of these that is no member of the group.
fn stranger(group: Group, members: &[Member]) -> Option<Member>
    ensures { result ≡ stranger group members.now }
{
    members.iter().copied().find(|member| !group.has(*member))
}

// The members that the line names, rising.
pub(crate) fn named(alloc: Global, group: Group, who: Who) -> Result<Vec<Member>, AllocError>
    ensures { IfOk result (λ list. list.items ≡ named group who) }
{
    match who {
        Who::One(member) => alone(alloc, member),
        Who::Some(set) => listed(alloc, set),
        Who::All => first_members(alloc, group.n()),
    }
}

fn alone(alloc: Global, member: Member) -> Result<Vec<Member>, AllocError>
    ensures { IfOk result (λ list. list.items ≡ member ∷ []) }
{
    let mut list = Vec::new(alloc);
    list.push(member)?;
    Ok(list)
}

// The members of the set.
fn listed(alloc: Global, set: MemberSet) -> Result<Vec<Member>, AllocError>
    ensures { IfOk result (λ list. list.items ≡ set) }
{
    // For its clause: the set is that of its members.
    let _ = set.len();
    let everyone = first_members(alloc, MAX_MEMBERS)?;
    everyone
        .iter()
        .copied()
        .filter(|member| set.contains(*member))
        .collect(alloc)
}

// The members 1 to n.
#[tactic(auto, using(crate::proofs::Counting::members_more), unfolding(ct_names::specs::Group::members))]
fn first_members(alloc: Global, n: u8) -> Result<Vec<Member>, AllocError>
    requires { n ≤ MAX_MEMBERS }
    ensures { IfOk result (λ list. list.items ≡ members n) }
{
    let mut list = Vec::new(alloc);
    for i in 0..n {
        list.push(i + 1)?;
    }
    Ok(list)
}
