//! Lines that are told to a judge, with the texts of their faults.

ghost use Rattle.std.specs.Prelude.{◌≡◌, Result, Ok, Err, OnOk, IfOk, IfErr, string_bytes};
ghost use Rattle.ct_judging.specs.Judging.{taken};
ghost use Rattle.ct_judging.specs.Printing.{printed};
ghost use Rattle.ct_judging.specs.Reading.{misread_text};
ghost use Rattle.ct_judging.specs.Standing.{Standing, played_of};
ghost use Rattle.ct_judge.specs.Stops.{IsStopKept, IsStopOf};
ghost use Rattle.ct_judging.specs.Telling.{Explained, explained, fault_text, told};

use crate::judge::Judge;
use crate::misread::push_misread;
use crate::printing::printed;
use crate::reading::line_in;
use crate::stop::Stop;
use ct_grammar::Line;
use ct_judging::Misread;
use ct_play::LineFault;
use std::alloc::{AllocError, Global};

// Tells the judge a line of these bytes, which is taken or changes nothing.
#[tactic(auto, unfolding(ct_judging::specs::Telling::told))]
pub(crate) fn tell(alloc: Global, judge: &mut Judge, bytes: &[u8]) -> Result<(), Stop>
    ensures ok { OnOk result (told judge.old bytes.now ≡ Ok judge.new) }
    ensures stop { IfErr result (IsStopOf (told judge.old bytes.now)) }
    ensures same { IfErr result (IsStopKept judge.old judge.new) }
{
    match line_in(alloc, bytes)? {
        Ok(line) => tell_line(alloc, judge, &line),
        Err(misread) => Err(no_line(alloc, &misread)),
    }
}

// Bytes that are no line.
fn no_line(alloc: Global, misread: &Misread) -> Stop
    ensures stop { IsStopOf (Err (record { fault = LineFault.NotUnderstood; text = printed (misread_text misread.now) })) result }
    ensures same { (s : Standing) → IsStopKept s s result }
{
    match text_of_misread(alloc, misread) {
        Ok(text) => Stop::Told(LineFault::NotUnderstood, text),
        Err(_) => Stop::Memory,
    }
}

// What is told of bytes that are no line.
pub(crate) fn text_of_misread(alloc: Global, misread: &Misread) -> Result<String, AllocError>
    ensures { IfOk result (λ text. string_bytes text ≡ printed (misread_text misread.now)) }
{
    let mut text = String::new(alloc);
    push_misread(&mut text, misread)?;
    printed(alloc, &text)
}

// Tells the judge the line.
#[tactic(auto, using(crate::proofs::Explaining::explained_fault, crate::proofs::Explaining::kept_same))]
pub(crate) fn tell_line(alloc: Global, judge: &mut Judge, line: &Line) -> Result<(), Stop>
    ensures ok { OnOk result (explained judge.old line.now (taken judge.old line.now) ≡ Ok judge.new) }
    ensures stop { IfErr result (IsStopOf (explained judge.old line.now (taken judge.old line.now))) }
    ensures same { IfErr result (IsStopKept judge.old judge.new) }
{
    let Err(fault) = judge.take(line) else {
        return Ok(());
    };
    if fault.is_short() {
        return Err(short(fault));
    }
    let text = text_of(alloc, judge, line, fault)?;
    Err(Stop::Told(fault, text))
}

// The stop of such a fault.
fn short(fault: LineFault) -> Stop
    ensures stop { (r : Result Standing Explained) → IsStopOf r result }
    ensures same { (old new : Standing) → IsStopKept old new result }
{
    match fault {
        LineFault::Board => Stop::BoardRefused,
        _ => Stop::Memory,
    }
}

// The text of the fault.
fn text_of(
    alloc: Global,
    judge: &Judge,
    line: &Line,
    fault: LineFault,
) -> Result<String, AllocError>
    ensures { IfOk result (λ text. string_bytes text ≡ printed (fault_text (played_of judge.now) line.now fault)) }
{
    let mut text = String::new(alloc);
    judge.push_fault(&mut text, line, fault)?;
    printed(alloc, &text)
}
