//! The lines of a session and their answers.

ghost use Rattle.std.specs.Prelude.{◌≡◌, ◌≤◌, ◌++◌, Ok, OnOk, IfOk, IfErr, codes, length, nat_lt, option_map};
ghost use Rattle.ct_text.specs.Adds.{Adds};
ghost use Rattle.ct_judge.specs.Answers.{answer, is_refused, question_text, standing_after, taken_text};
ghost use Rattle.ct_judge.specs.SessionFaults.{IsShort};
ghost use Rattle.ct_judge.specs.Sessions.{after_byte, answer_at, heard_in, kept, line_if, line_over, opening, said_at};

use crate::answering::{push_answer, push_ok};
use crate::heard::Heard;
use crate::judge::Judge;
use crate::reading::line_in;
use crate::session_fault::SessionFault;
use crate::stop::Stop;
use crate::telling::{tell_line, text_of_misread};
use ct_grammar::{Line, Play, Question};
use ct_judging::Misread;
use ct_world::World;
use std::alloc::{AllocError, Global};
use std::marker::Model;

/// How many bytes a line of a session has at most; a longer one is not understood.
pub const LONGEST: usize = 4096;

/// A session that hears a schedule byte by byte, and answers each line: a judge, the bytes of the line that is not over yet, one more
/// than a line may have at most, and whether a line was refused.
#[derive(Drop)]
pub struct Session {
    alloc: Global,
    judge: Judge,
    line: Vec<u8>,
    refused: bool,
}

// Contracts see all three.
impl Model for Session {
    ghost use Rattle.ct_judge.specs.Sessions.{Hearing};

    ghost Value = { Hearing };

    ghost view = { λ s. record { standing = s.judge; line = s.line.items; refused = s.refused } };
}

impl Session {
    /// A session that heard nothing yet.
    pub fn new(alloc: Global) -> Session
        ensures { result ≡ opening }
    {
        Session {
            alloc,
            judge: Judge::new(alloc),
            line: Vec::new(alloc),
            refused: false,
        }
    }

    /// The world, once a line made it.
    pub fn world(&self) -> Option<&World>
        ensures { option_map (λ world. world.now.rehearsal) result ≡ option_map (λ w. w.rehearsal) self.now.standing.played }
    {
        self.judge.world()
    }

    // Whether a line has begun.
    pub(crate) fn has_begun(&self) -> bool
        ensures { result ≡ nat_lt 0 (length self.now.line) }
    {
        !self.line.is_empty()
    }

    // What is left where it is over.
    pub(crate) fn into_heard(self) -> Heard
        ensures { result ≡ heard_in self }
    {
        let Session {
            alloc: _,
            judge,
            line: _,
            refused,
        } = self;
        Heard { judge, refused }
    }

    /// Hears a byte: a line feed ends the line, whose answer joins the text; another byte joins the line. Want of memory or of the
    /// board is the only error; then the session may have heard a part of the line.
    pub fn hear(&mut self, byte: u8, text: &mut String) -> Result<(), SessionFault>
        ensures after { OnOk result (self.new ≡ after_byte self.old byte) }
        ensures text { OnOk result (Adds text.old text.new (said_at self.old byte)) }
        ensures err { IfErr result IsShort }
    {
        if byte == b'\n' {
            return self.answer(text);
        }
        self.join(byte)?;
        Ok(())
    }

    // Another byte of the line.
    #[tactic(auto, unfolding(crate::specs::Sessions::kept))]
    fn join(&mut self, byte: u8) -> Result<(), AllocError>
        ensures { OnOk result (self.new ≡ record self.old { line = kept self.old.line byte }) }
    {
        if self.line.len() > LONGEST {
            return Ok(());
        }
        match self.line.push(byte) {
            Ok(()) => Ok(()),
            Err(_) => Err(AllocError),
        }
    }

    // Ends the line, and its answer joins the text.
    #[tactic(auto, unfolding(crate::specs::Sessions::answer_at, crate::specs::Sessions::line_over))]
    pub(crate) fn answer(&mut self, text: &mut String) -> Result<(), SessionFault>
        ensures text { OnOk result (Adds text.old text.new (answer_at self.old)) }
        ensures after { OnOk result (self.new ≡ line_over self.old) }
        ensures err { IfErr result IsShort }
    {
        let line = line_if(self.alloc, &self.line)?;
        let refused = tell(self.alloc, text, &mut self.judge, line)?;
        self.refused = self.refused || refused;
        self.line.clear();
        Ok(())
    }
}

// The line that these bytes are; one that is too long is none.
#[tactic(auto, unfolding(crate::specs::Sessions::line_if))]
fn line_if(alloc: Global, bytes: &[u8]) -> Result<Result<Line, Misread>, AllocError>
    ensures { IfOk result (λ line. line ≡ line_if bytes.now) }
{
    if bytes.len() > LONGEST {
        return Ok(Err(Misread::TooLong));
    }
    line_in(alloc, bytes)
}

// Tells the judge the line, if it is one, answers it, and says whether it is refused.
fn tell(
    alloc: Global,
    text: &mut String,
    judge: &mut Judge,
    line: Result<Line, Misread>,
) -> Result<bool, SessionFault>
    ensures refused { IfOk result (λ refused. refused ≡ is_refused judge.old line) }
    ensures text { OnOk result (Adds text.old text.new (answer judge.old line)) }
    ensures after { OnOk result (judge.new ≡ standing_after judge.old line) }
    ensures err { IfErr result IsShort }
{
    match line {
        Ok(line) => tell_and_answer(alloc, text, judge, &line),
        Err(misread) => {
            let words = text_of_misread(alloc, &misread)?;
            push_line(text, &words)?;
            Ok(true)
        }
    }
}

fn tell_and_answer(
    alloc: Global,
    text: &mut String,
    judge: &mut Judge,
    line: &Line,
) -> Result<bool, SessionFault>
    ensures refused { IfOk result (λ refused. refused ≡ is_refused judge.old (Ok line.now)) }
    ensures text { OnOk result (Adds text.old text.new (answer judge.old (Ok line.now))) }
    ensures after { OnOk result (judge.new ≡ standing_after judge.old (Ok line.now)) }
    ensures err { IfErr result IsShort }
{
    let before = judge.sent();
    match tell_line(alloc, judge, line) {
        Ok(()) => {
            push_taken(alloc, text, judge, line, before)?;
            Ok(false)
        }
        Err(Stop::Told(_, fault)) => {
            push_line(text, &fault)?;
            Ok(true)
        }
        Err(Stop::Memory) => Err(SessionFault::Memory),
        Err(Stop::BoardRefused) => Err(SessionFault::Board),
    }
}

// The words and a line feed.
fn push_line(text: &mut String, words: &str) -> Result<(), AllocError>
    ensures { OnOk result (Adds text.old text.new ((words.now ++ codes "\n"))) }
{
    text.push_str(words)?;
    text.push_str("\n")
}

// The answer to a line that was taken, where so many envelopes had been sent.
fn push_taken(
    alloc: Global,
    text: &mut String,
    judge: &Judge,
    line: &Line,
    before: u32,
) -> Result<(), AllocError>
    requires { before ≤ 1000000 }
    ensures { OnOk result (Adds text.old text.new (taken_text before line.now judge.now)) }
{
    match line {
        Line::Play(Play::Ask(question)) => push_question(alloc, text, judge, *question),
        _ => push_ok(text, before, judge.sent()),
    }
}

// The answer to a question.
fn push_question(
    alloc: Global,
    text: &mut String,
    judge: &Judge,
    question: Question,
) -> Result<(), AllocError>
    ensures { OnOk result (Adds text.old text.new (question_text judge.now.played question)) }
{
    match judge.stage() {
        None => text.push_str("ok\n"),
        Some(stage) => push_answer(alloc, text, stage, question),
    }
}
