//! The lines of a schedule, told one by one.

ghost use Rattle.std.specs.Prelude.{◌≡◌, ◌≢◌, ◌≤◌, ◌+◌, ◌<◌, ◌^◌, ◌++◌, Ok, Err, OnOk, IfOk, IfErr, IsOk, string_bytes};
ghost use Rattle.ct_judging.specs.Reading.{shown};
ghost use Rattle.ct_judge.specs.Schedule.{IsFaultIn, IsLeftAt};
ghost use Rattle.ct_judging.specs.Schedule.{after_line, beginning, world_at};
ghost use Rattle.ct_judging.specs.Standing.{world_of};

use crate::judge::Judge;
use crate::reading::push_shown;
use crate::record_fault::RecordFault;
use crate::stop::Stop;
use crate::telling::tell;
use ct_play::LineFault;
use ct_world::World;
use std::alloc::{AllocError, Global};
use std::marker::Model;

// A judge, and how many lines are over.
#[derive(Drop)]
pub(crate) struct Recorder {
    alloc: Global,
    judge: Judge,
    number: usize,
}

// Contracts see both.
impl Model for Recorder {
    ghost use Rattle.ct_judging.specs.Schedule.{Progress};

    ghost Value = { Progress };

    ghost view = { λ r. record { standing = r.judge; number = r.number } };
}

impl Recorder {
    pub(crate) fn new(alloc: Global) -> Recorder
        ensures { result ≡ beginning }
    {
        Recorder {
            alloc,
            judge: Judge::new(alloc),
            number: 0,
        }
    }

    // Takes a line.
    #[tactic(auto, unfolding(ct_judging::specs::Schedule::after_line))]
    pub(crate) fn take(&mut self, line: &[u8]) -> Result<(), RecordFault>
        requires { self.old.number < 2 ^ 63 }
        ensures ok { OnOk result (after_line self.old line.now ≡ Ok self.new) }
        ensures fault { IfErr result (IsFaultIn (after_line self.old line.now)) }
        ensures left { IfErr result (IsLeftAt self.old self.new) }
        ensures short { result ≢ Err RecordFault.TooLong }
        ensures number { self.new.number ≤ self.old.number + 1 }
    {
        match tell(self.alloc, &mut self.judge, line) {
            Ok(()) => {
                self.number += 1;
                Ok(())
            }
            Err(Stop::Told(fault, text)) => Err(RecordFault::Line {
                at: self.number + 1,
                fault,
                text: behind(self.alloc, line, &text)?,
            }),
            Err(Stop::Memory) => Err(RecordFault::Memory),
            Err(Stop::BoardRefused) => Err(RecordFault::Board),
        }
    }

    // The judge alone.
    pub(crate) fn into_judge(self) -> Judge
        ensures { result ≡ self.standing }
    {
        let Recorder {
            alloc: _,
            judge,
            number: _,
        } = self;
        judge
    }

    // The fault of a text that ends without the number of members.
    pub(crate) fn end(&self) -> Result<(), RecordFault>
        ensures ok { OnOk result (IsOk (world_at self.now.number (world_of self.now.standing))) }
        ensures fault { IfErr result (IsFaultIn (world_at self.now.number (world_of self.now.standing))) }
        ensures short { result ≢ Err RecordFault.TooLong }
    {
        if self.judge.has_members() {
            return Ok(());
        }
        Err(RecordFault::Line {
            at: self.number,
            fault: LineFault::NoMembers,
            text: String::from_str(self.alloc, "no members")?,
        })
    }

    // The world in the end.
    pub(crate) fn finish(self) -> Result<World, RecordFault>
        ensures ok { IfOk result (λ world. world_at self.number (world_of self.standing) ≡ Ok world.rehearsal) }
        ensures fault { IfErr result (IsFaultIn (world_at self.number (world_of self.standing))) }
        ensures short { result ≢ Err RecordFault.TooLong }
    {
        self.end()?;
        match self.into_judge().into_world() {
            Ok(world) => Ok(world),
            Err(_) => Err(RecordFault::Memory),
        }
    }
}

// The fault behind its line.
fn behind(alloc: Global, line: &[u8], fault: &str) -> Result<String, AllocError>
    ensures { IfOk result (λ text. string_bytes text ≡ shown line.now ++ fault.now) }
{
    let mut text = String::new(alloc);
    push_shown(&mut text, line)?;
    text.push_str(fault)?;
    Ok(text)
}
