//! Lines of logs, taken one by one.

ghost use Rattle.std.specs.Prelude.{◌≡◌, ◌≤◌, ◌<◌, [], length, false, true, None, Some, IfErr, IfOk, IfSome, OnOk};
ghost use Rattle.ct_model.specs.Cause.{cause};
ghost use Rattle.ct_model.specs.Lawful.{IsLawful, IsPresent, is_waiting};
ghost use Rattle.ct_model.specs.Rehearsal.{extended};
ghost use Rattle.ct_world.specs.Setup.{record_of};
ghost use Rattle.ct_play.specs.Faults.{UnlessShort, is_short};
ghost use Rattle.ct_merge.specs.Merging.{step_of, IsLater, IsReady, IsSerialOf, IsTakenTo, IsThereFor, LeavesAll, LeavesOthers, Takes};
ghost use Rattle.ct_merge.specs.Names.{IsSentAs};
ghost use Rattle.ct_play.specs.Outcomes.{is_stated, outcome};
ghost use Rattle.ct_merge.specs.Stops.{IsFaultAt, IsOutcome, IsRefusedBy, IsStuck, IsStuckIn, line_fault_of};
ghost use Rattle.ct_merge.specs.Waits.{IsUnsent, WaitsIn};

use crate::full_name::FullName;
use crate::log_act::LogAct;
use crate::log_line::LogLine;
use crate::own_fault::OwnFault;
use ct_grammar::{Pick, Statement, Text};
use ct_model::Step;
use ct_names::{Member, Refusal, Serial};
use ct_play::{LineFault, Stage, is_stated, outcome, push_came, repeated};
use ct_world::{Setup, World};
use std::alloc::Global;
use std::marker::Model;

// How many lines of a log are taken before the next log's.
const LINES_OF_A_TURN: usize = 8;

/// A world into which the lines of logs are taken.
#[derive(Drop)]
pub(crate) struct Taker {
    alloc: Global,
    stage: Stage,
}

// Contracts see the record.
impl Model for Taker {
    ghost use Rattle.ct_model.specs.Rehearsal.{Rehearsal};

    ghost Value = { Rehearsal };

    ghost view = { λ m. m.stage.rehearsal };
}

impl Taker {
    /// Nothing was taken. Only memory can be refused.
    pub(crate) fn new(alloc: Global, setup: Setup) -> Result<Taker, LineFault>
        ensures ok { IfOk result (λ taker. taker ≡ record_of setup []) }
        ensures err { IfErr result (λ fault. fault ≡ LineFault.OutOfMemory) }
    {
        Ok(Taker {
            alloc,
            stage: Stage::new(alloc, setup)?.with_index(),
        })
    }

    /// What the lines led to.
    pub(crate) fn stage(&self) -> &Stage
        ensures { result.now.rehearsal ≡ self.now }
    {
        &self.stage
    }

    /// The serial of the envelope of this name that was sent to the member.
    #[tactic(auto, using(crate::proofs::Finding::looked_up))]
    pub(crate) fn serial(&self, member: Member, name: FullName) -> Option<Serial>
        ensures sent { IfSome result (IsSentAs self.now member name) }
        ensures none { result ≡ None → IsUnsent self.now member name }
    {
        repeated(
            &self.stage,
            member,
            Pick::First(name.carried, Some(name.from)),
        )
    }

    /// The world alone.
    pub(crate) fn into_world(self) -> World
        ensures { result.rehearsal ≡ self }
    {
        let Taker { alloc: _, stage } = self;
        stage.into_world()
    }

    /// Takes some next lines of the member's log, of which so many were taken, up to this end: none only where the first of the others
    /// waits for an envelope that was not sent, or is refused, or there is none.
    #[tactic(auto, using(crate::proofs::Stopping::stuck_on, crate::proofs::Taking::on))]
    pub(crate) fn take_on(
        &mut self,
        member: Member,
        log: &[LogLine],
        end: usize,
        count: &mut usize,
    ) -> Result<(), OwnFault>
        requires { IsTakenTo self.old member log.now count.old }
        ensures taken { OnOk result (IsTakenTo self.new member log.now count.new) }
        ensures others { OnOk result (LeavesOthers member self.old self.new) }
        ensures later { OnOk result (IsLater self.old self.new) }
        ensures stuck { IfErr result (λ fault. UnlessShort (is_short (line_fault_of fault))
            (IsStuckIn self.old member log.now count.new fault)) }
    {
        for place in *count..end_of(log, end, *count) {
            // The invariant names it.
            let _ = place;
            let Some(serial) = self.find(member, log, *count) else {
                return Ok(());
            };
            self.take(member, log, serial, count)?;
        }
        Ok(())
    }

    /// Takes the next line of the member's log, of which so many were taken, by the serial of what it receives.
    #[tactic(auto, using(crate::proofs::Taking::taken_next, crate::proofs::Stopping::stuck_next))]
    pub(crate) fn take(
        &mut self,
        member: Member,
        log: &[LogLine],
        serial: Serial,
        count: &mut usize,
    ) -> Result<(), OwnFault>
        requires taken { IsTakenTo self.old member log.now count.old }
        requires ready { IsReady self.old member log.now count.old serial }
        ensures taken { OnOk result (IsTakenTo self.new member log.now count.new) }
        ensures others { OnOk result (LeavesOthers member self.old self.new) }
        ensures later { OnOk result (IsLater self.old self.new) }
        ensures more { OnOk result (length self.old.steps < length self.new.steps) }
        ensures stuck { IfErr result (λ fault. UnlessShort (is_short (line_fault_of fault))
            (IsStuckIn self.old member log.now count.new fault)) }
    {
        match log.get(*count) {
            Some(line) => {
                self.take_line(member, line, serial)?;
                *count += 1;
                Ok(())
            }
            None => unreachable!(),
        }
    }

    /// The serial of what the line at this place receives; of another line any number. None: there is no line, or that was not sent.
    #[tactic(auto, using(crate::proofs::Taking::found))]
    pub(crate) fn find(&self, member: Member, log: &[LogLine], place: usize) -> Option<Serial>
        ensures ready { IfSome result (IsReady self.now member log.now place) }
        ensures waits { result ≡ None → WaitsIn self.now member log.now place }
    {
        let line = log.get(place)?;
        match line.act.received() {
            Some(name) => self.serial(member, name),
            None => Some(0),
        }
    }

    // Takes the line by the serial of what it receives.
    #[tactic(auto, using(crate::proofs::Taking::takes, crate::proofs::Taking::later_more, crate::proofs::Stopping::stuck))]
    fn take_line(&mut self, member: Member, line: &LogLine, serial: Serial) -> Result<(), OwnFault>
        requires { IsSerialOf self.old member line.now.act serial }
        ensures takes { OnOk result (Takes self.old member line.now self.new) }
        ensures later { OnOk result (IsLater self.old self.new) }
        ensures more { OnOk result (length self.old.steps < length self.new.steps) }
        ensures stuck { IfErr result (λ fault. UnlessShort (is_short (line_fault_of fault)) (IsStuck self.old member line.now fault)) }
    {
        lawful(self.stage.world());
        self.bring(member, line, serial)?;
        lawful(self.stage.world());
        let step = step_of(member, serial, line.act);
        self.step(step)?;
        self.compare(step, &line.said)
    }

    // What the line receives waits at the member then: the network repeats it, if the member took it before.
    #[tactic(auto, using(crate::proofs::Bringing::brought, crate::proofs::Taking::left, crate::proofs::Taking::later))]
    fn bring(&mut self, member: Member, line: &LogLine, serial: Serial) -> Result<(), LineFault>
        requires lawful { IsLawful self.old }
        requires serial { IsSerialOf self.old member line.now.act serial }
        ensures serial { OnOk result (IsSerialOf self.new member line.now.act serial) }
        ensures waits { OnOk result (IsThereFor self.new member line.now.act serial) }
        ensures all { OnOk result (LeavesAll self.old self.new) }
        ensures later { OnOk result (IsLater self.old self.new) }
        ensures fault { IfErr result (λ fault. UnlessShort (is_short fault) (IsFaultAt self.old member line.now (OwnFault.Line fault))) }
    {
        let Some(_) = line.act.received() else {
            return Ok(());
        };
        if !self.is_away(member, serial) {
            return Ok(());
        }
        self.step(Step::Repeat(member, serial))
    }

    // Whether the envelope of the serial doesn't wait at the member.
    #[tactic(auto, using(crate::proofs::Bringing::tested))]
    fn is_away(&self, member: Member, serial: Serial) -> bool
        ensures away { result ≡ true → is_waiting self.now member serial ≡ false }
        ensures there { result ≡ false → IsPresent self.now member → is_waiting self.now member serial ≡ true }
    {
        match self.stage.world().enabled(&Step::Receive(member, serial)) {
            Err(refusal) => refusal == Refusal::NotWaiting,
            Ok(()) => false,
        }
    }

    // What the step came to is what is stated of it, if something is.
    fn compare(&self, step: Step, said: &Option<Statement>) -> Result<(), OwnFault>
        ensures so { OnOk result (IfSome said.now (λ statement. is_stated (outcome self.now step) statement ≡ true)) }
        ensures other { IfErr result (λ fault. UnlessShort (is_short (line_fault_of fault))
            (IsOutcome self.now step said.now fault)) }
    {
        let Some(said) = said else {
            return Ok(());
        };
        let came = outcome(self.stage.world(), step);
        if is_stated(came, said) {
            return Ok(());
        }
        let mut text = String::new(self.alloc);
        push_came(&mut text, came)?;
        Err(OwnFault::CameTo(step.member(), Text::new(text)))
    }

    // Takes the step.
    #[tactic(auto, using(crate::proofs::Stopping::allowed, crate::proofs::Stopping::step_refused))]
    fn step(&mut self, step: Step) -> Result<(), LineFault>
        ensures joined { OnOk result (self.new ≡ extended self.old step) }
        ensures allowed { OnOk result (cause self.old step ≡ None) }
        ensures refused { IfErr result (λ fault. UnlessShort (is_short fault) (IsRefusedBy self.old step fault)) }
    {
        self.stage.step(step)
    }
}

// How far lines of the log are taken at a time, up to this end, of which so many were taken. In turns of few lines the lines of
// waiting envelopes stay short.
fn end_of(log: &[LogLine], end: usize, count: usize) -> usize
    ensures within { count ≤ length log.now → result ≤ length log.now }
    ensures more { count ≤ result }
{
    let turn = count.saturating_add(LINES_OF_A_TURN);
    log.len().min(end).min(turn).max(count)
}

/// A world's record is a run.
pub(crate) fn lawful(world: &World)
    ensures { IsLawful world.now.rehearsal }
{
    let _ = world.record();
}

// The step of the act, where it receives the envelope of this serial.
fn step_of(member: Member, serial: Serial, act: LogAct) -> Step
    ensures { result ≡ step_of member serial act }
{
    match act {
        LogAct::Submit(command) => Step::Submit(member, command),
        LogAct::Receive(_) => Step::Receive(member, serial),
        LogAct::Begin => Step::Begin(member),
        LogAct::Enter => Step::Enter(member),
        LogAct::Choose(from) => Step::Choose(member, from),
        LogAct::Adopt => Step::Adopt(member),
        LogAct::Suspect => Step::Suspect(member),
        LogAct::Conclude => Step::Conclude(member),
        LogAct::Deliver => Step::Deliver(member),
        LogAct::Follow => Step::Follow(member),
        LogAct::Crash => Step::Crash(member),
    }
}
