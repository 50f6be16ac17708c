//! The trials that make a run smaller, one by one.

ghost use Rattle.std.specs.Prelude.{◌≡◌, ◌+◌, ◌<◌, ◌≤◌, ◌↔◌, true, false, None, Ok, All, IfOk, IfSome, IsSome, IsTrue, List, OnErr, Option};
ghost use Rattle.std.specs.Prelude.{length, option_map};
ghost use Rattle.ct_shrink.specs.Naming.{IsByContent};
ghost use Rattle.ct_shrink.specs.Shrinking.{Agrees, IsLeastBy, asks, first_shrinking, lines_of, smaller};
ghost use Rattle.ct_shrink.specs.declared.line.Line.{Line};

use crate::candidates::{moves, next_candidate};
use crate::line::Line;
use crate::moves::Move;
use ct_names::Group;
use std::alloc::{AllocError, Global};
use std::marker::Model;

/// The trials that make a run smaller, for whoever makes them: they ask which lines are tried, and are told what the trial left.
#[derive(Drop)]
pub struct Trials {
    alloc: Global,
    group: Group,
    names_members: bool,
    // The smallest run so far.
    lines: Vec<Line>,
    // Those that are left to be tried before the next pass, the first one last.
    moves: Vec<Move>,
    // A pass tries the run without each of its lines: without this one next.
    place: usize,
    // Whether the pass made the run smaller.
    is_smaller: bool,
    asked: Option<Vec<Line>>,
    made: u32,
    most: u32,
}

// Contracts see the run, what is asked, and how far that came.
impl Model for Trials {
    ghost use Rattle.ct_shrink.specs.Shrinking.{Shrinking};

    ghost Value = { Shrinking };

    ghost use Rattle.ct_shrink.specs.Asking.{IsOnItsWay, shrinking_of};

    ghost view = { shrinking_of };

    ghost invariant = { IsOnItsWay };
}

impl Trials {
    /// Before the first trial of the run of these lines, in which so many are made at most. Where the test names members, no lines are
    /// tried that rename them.
    pub fn new(
        alloc: Global,
        group: Group,
        names_members: bool,
        lines: Vec<Line>,
        most: u32,
    ) -> Trials
        requires { All IsByContent lines.items }
        ensures { result ≡ first_shrinking lines.items most }
    {
        let place = lines.len();
        Trials {
            alloc,
            group,
            names_members,
            lines,
            moves: Vec::new(alloc),
            place,
            is_smaller: true,
            asked: None,
            made: 0,
            most,
        }
    }

    /// Asks for the next trial, and answers whether there is one. Until the last one was told, that is asked for again.
    pub fn ask(&mut self) -> Result<bool, AllocError>
        // There is one until no line can be left out, or no more trials may be made.
        ensures value { IfOk result (λ is_asked. is_asked ≡ asks self.old) }
        ensures asked { result ≡ Ok true → IsSome self.new.asked }
        ensures few { result ≡ Ok true → self.new.made < self.new.most }
        ensures none { result ≡ Ok false → self.new.asked ≡ None }
        ensures over { result ≡ Ok false → self.new.made < self.new.most → self.new.settled ≡ length self.new.lines }
        ensures same { self.new ≡ record self.old { asked = self.new.asked } }
        ensures again { IsSome self.old.asked → self.new ≡ self.old }
        // It can be called again.
        ensures err { OnErr result (self.new ≡ self.old) }
    {
        if self.asked.is_none() && self.made < self.most {
            let n = self.group.n();
            if self.is_smaller && self.place >= self.lines.len() {
                self.moves = moves(self.alloc, n, self.names_members, &self.lines)?;
                self.place = 0;
                self.is_smaller = false;
            }
            self.asked = next_candidate(self.alloc, n, &self.lines, &mut self.moves, self.place)?;
        }
        Ok(self.asked.is_some())
    }

    /// Whether a trial is asked for.
    pub fn is_asking(&self) -> bool
        ensures { IsTrue result ↔ IsSome self.now.asked }
    {
        self.asked.is_some()
    }

    /// The lines whose trial is asked for; none where none is.
    pub fn candidate(&self) -> &[Line]
        ensures value { result.now ≡ lines_of self.now.asked }
        ensures named { All IsByContent result.now }
        ensures fewer { IsSome self.now.asked → length result.now < length self.now.lines }
    {
        match &self.asked {
            Some(lines) => lines,
            None => &[],
        }
    }

    /// Is told what the trial of the candidate left: the lines that were taken until the test was passed, None where it was not. They are
    /// the run where they are fewer, and it answers whether they are.
    pub fn tell(&mut self, kept: Option<Vec<Line>>) -> bool
        requires asked { IsSome self.old.asked }
        requires named { IfSome kept (λ lines. All IsByContent lines.items) }
        ensures lines { self.new.lines ≡ smaller self.old.lines (option_map (λ lines. lines.items) kept) }
        ensures smaller { IsTrue result ↔ (length self.new.lines < length self.old.lines) }
        ensures asked { self.new.asked ≡ None }
        ensures made { self.new.made ≡ self.old.made + 1 }
        ensures most { self.new.most ≡ self.old.most }
        // Whatever the test is: where it left this, and agrees with what was told before, it still does.
        ensures agrees { (trial : List Line → Option (List Line)) → Agrees trial self.old →
            option_map (λ lines. lines.items) kept ≡ trial (lines_of self.old.asked) → Agrees trial self.new }
    {
        self.asked = None;
        self.made += 1;
        if let Some(lines) = kept
            && lines.len() < self.lines.len()
        {
            self.lines = lines;
            self.is_smaller = self.moves.is_empty();
            return true;
        }
        if self.moves.pop().is_none() {
            self.place += 1;
        }
        false
    }

    /// Whether the run was tried without each of its lines, and that never left a smaller one.
    pub fn is_least(&self) -> bool
        ensures value { IsTrue result ↔ (self.now.settled ≡ length self.now.lines) }
        ensures least { (trial : List Line → Option (List Line)) → Agrees trial self.now → IsTrue result → IsLeastBy trial self.now.lines }
    {
        let settled = if self.is_smaller { 0 } else { self.place };
        settled == self.lines.len()
    }

    /// The smallest run so far.
    pub fn lines(&self) -> &[Line]
        ensures value { result.now ≡ self.now.lines }
        ensures named { All IsByContent result.now }
    {
        &self.lines
    }

    /// The same, in the end.
    pub fn into_lines(self) -> Vec<Line>
        ensures value { result.items ≡ self.lines }
        ensures named { All IsByContent result.items }
    {
        self.lines
    }

    /// How many trials were made.
    pub fn made(&self) -> u32
        ensures value { result ≡ self.now.made }
        ensures few { result ≤ self.now.most }
    {
        self.made
    }
}
