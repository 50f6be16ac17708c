//! Which lines are tried.

ghost use Rattle.std.specs.Prelude.{◌≡◌, ◌<◌, ◌≤◌, All, IfOk, IfSome, None, Ok, length, remove};
ghost use Rattle.ct_shrink.specs.Asking.{IsCandidate};
ghost use Rattle.ct_shrink.specs.Naming.{IsByContent};

use crate::line::Line;
use crate::moves::Move;
use crate::place::Standings;
use ct_names::{Instance, MAX_INSTANCES, Round};
use std::alloc::{AllocError, Global};

// What is tried next on the run of these lines, in a group of n members: the first move that takes lines out, the last of the moves
// being the first; and once none is left, the run without the line at the place. None where it has no such line.
pub(crate) fn next_candidate(
    alloc: Global,
    n: u8,
    lines: &[Line],
    moves: &mut Vec<Move>,
    place: usize,
) -> Result<Option<Vec<Line>>, AllocError>
    requires { All IsByContent lines.now }
    ensures candidate { IfOk result (λ found. IfSome found
        (λ candidate. IsCandidate lines.now (length moves.new.items) place candidate.items)) }
    ensures none { result ≡ Ok None → length lines.now ≤ place }
    ensures fewer { length moves.new.items ≤ length moves.old.items }
{
    while let Some(step) = moves.last() {
        let moved = moved(alloc, n, lines, *step)?;
        if moved.len() < lines.len() {
            return Ok(Some(moved));
        }
        moves.pop();
    }
    if place >= lines.len() {
        return Ok(None);
    }
    Ok(Some(without(alloc, lines, place)?))
}

// The lines without the one at this place.
fn without(alloc: Global, lines: &[Line], place: usize) -> Result<Vec<Line>, AllocError>
    requires { place < length lines.now }
    ensures { IfOk result (λ others. others.items ≡ remove lines.now place) }
{
    let mut others = Vec::with_capacity(alloc, lines.len())?;
    others.extend_from_slice(&lines[..place])?;
    others.extend_from_slice(&lines[place + 1..])?;
    Ok(others)
}

// The lines after the move, in a group of n members.
fn moved(alloc: Global, n: u8, lines: &[Line], step: Move) -> Result<Vec<Line>, AllocError>
    requires { All IsByContent lines.now }
    ensures { IfOk result (λ moved. All IsByContent moved.items) }
{
    let mut standings = Standings::new();
    let mut moved = Vec::new(alloc);
    for line in lines {
        let place = standings.next(line);
        if let Some(line) = step.line(n, *line, place) {
            moved.push(line)?;
        }
    }
    Ok(moved)
}

// The moves that are tried on the run of these lines, the first one last: those that take out most come first. Where members are named,
// none are renamed.
pub(crate) fn moves(
    alloc: Global,
    n: u8,
    names_members: bool,
    lines: &[Line],
) -> Result<Vec<Move>, AllocError>
    requires { 0 < n }
{
    let last_rounds = last_rounds(alloc, lines)?;
    let mut moves = Vec::new(alloc);
    for instance in 1..MAX_INSTANCES + 1 {
        if let Some(Some(_)) = last_rounds.get(instance as usize) {
            moves.push(Move::Instance(instance))?;
        }
    }
    for instance in 1..MAX_INSTANCES + 1 {
        if let Some(Some(last)) = last_rounds.get(instance as usize) {
            push_rounds(&mut moves, Round::from(n), instance, *last)?;
        }
    }
    if !names_members {
        for count in 1..n {
            moves.push(Move::FirstRounds(count))?;
        }
    }
    moves.reverse();
    Ok(moves)
}

// The last round of each instance, by its number; None where a run has no line of it.
fn last_rounds(alloc: Global, lines: &[Line]) -> Result<Vec<Option<Round>>, AllocError> {
    let mut rounds = vec![in alloc; None; MAX_INSTANCES as usize + 1]?;
    let mut standings = Standings::new();
    for line in lines {
        if let Some(place) = standings.next(line)
            && let Some(last) = rounds.get_mut(place.instance as usize)
        {
            *last = Some(last.unwrap_or(0).max(place.round));
        }
    }
    Ok(rounds)
}

// Those that take rounds out of an instance: n of them or a multiple, so that the later ones keep their coordinators.
fn push_rounds(
    moves: &mut Vec<Move>,
    n: Round,
    instance: Instance,
    last: Round,
) -> Result<(), AllocError>
    requires { 0 < n }
{
    let mut circles = last / n;
    while circles > 0 {
        push_spans(moves, n, instance, last, circles)?;
        circles /= 2;
    }
    Ok(())
}

// Those that take out so many times n rounds: from the first on, and from others at a distance of half as many.
fn push_spans(
    moves: &mut Vec<Move>,
    n: Round,
    instance: Instance,
    last: Round,
    circles: Round,
) -> Result<(), AllocError> {
    let count = circles.saturating_mul(n);
    let end = last.saturating_sub(count).saturating_add(2);
    let step = if circles == 1 { 1 } else { count / 2 };
    for first in (1..end).step_by(step.max(1) as usize) {
        moves.push(Move::Rounds {
            instance,
            first,
            count,
        })?;
    }
    Ok(())
}
