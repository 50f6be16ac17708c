//! A world, whose step sent each of its envelopes, and how its group is cut.

ghost use Rattle.std.specs.Prelude.{◌≡◌, ◌≤◌, ◌++◌, [], None, Ok, OnOk, OnErr, IfOk, IfErr, length, replicate, slice_get};
ghost use Rattle.std.specs.Option.{ForSome};
ghost use Rattle.ct_model.specs.Rehearsal.{state_of};
ghost use Rattle.ct_model.specs.Senders.{senders};
ghost use Rattle.ct_world.specs.Setup.{record_of};
ghost use Rattle.ct_grammar.specs.Sides.{whole};
ghost use Rattle.ct_play.specs.Acting.{stepped};
ghost use Rattle.ct_play.specs.Faults.{IsFaultOf};
ghost use Rattle.ct_play.specs.Indexing.{IsIndexOf, IsLastTo, is_at};
ghost use Rattle.ct_play.specs.Picking.{sender_of};
ghost use Rattle.ct_play.specs.Played.{first_part, with_record, with_step};

use crate::address::Address;
use crate::index::Index;
use crate::line_fault::LineFault;
use ct_grammar::{Carried, Sides};
use ct_model::Step;
use ct_names::{Member, Refusal, Serial};
use ct_world::{Setup, World};
use std::alloc::Global;
use std::marker::Model;

/// A world with its board, the member whose step sent each of its envelopes, and the sides into which the group is cut.
#[derive(Drop)]
pub struct Stage {
    alloc: Global,
    stage: ct_world::Stage,
    // By serial, without those of the last step.
    noted: Vec<Member>,
    // How many envelopes the last step sent, and whose it was.
    owed: u32,
    owed_by: Member,
    sides: Sides,
    // Of what was sent, perhaps without the last step's.
    index: Option<Index>,
}

// Contracts see the record and the sides.
impl Model for Stage {
    ghost use Rattle.std.specs.Prelude.{◌≡◌, ◌++◌, replicate};
    ghost use Rattle.ct_model.specs.Senders.{senders};
    ghost use Rattle.std.specs.Option.{ForSome};
    ghost use Rattle.ct_play.specs.Indexing.{IsIndexOf};
    ghost use Rattle.ct_play.specs.Played.{Played};

    ghost Value = { Played };

    ghost view = { λ s. record { rehearsal = s.stage.rehearsal; sides = s.sides } };

    ghost invariant = { λ s. (s.noted.items ++ replicate s.owed s.owed_by ≡ senders s.stage.rehearsal.setting s.stage.rehearsal.steps)
        × ForSome s.index (IsIndexOf s.stage.rehearsal) };
}

impl Stage {
    /// A stage without steps. Only memory can be refused.
    #[tactic(auto, unfolding(ct_model::specs::Senders::senders, ct_model::specs::Senders::senders_from))]
    pub fn new(alloc: Global, setup: Setup) -> Result<Stage, LineFault>
        ensures ok { IfOk result (λ stage. stage ≡ record { rehearsal = record_of setup []; sides = whole }) }
        ensures err { IfErr result (λ fault. fault ≡ LineFault.OutOfMemory) }
    {
        let Ok(stage) = ct_world::Stage::new(alloc, setup) else {
            return Err(LineFault::OutOfMemory);
        };
        Ok(Stage {
            alloc,
            stage,
            noted: Vec::new(alloc),
            owed: 0,
            owed_by: 0,
            sides: Sides::whole(),
            index: None,
        })
    }

    /// The same stage, which from here on keeps an index of what is sent: among many envelopes it finds those that carry something
    /// about as fast as among few.
    pub fn with_index(self) -> Stage
        ensures { result ≡ self }
    {
        let mut stage = self;
        stage.index = Some(Index::new(stage.alloc));
        stage
    }

    /// The world.
    pub fn world(&self) -> &World
        ensures { result.now.rehearsal ≡ self.now.rehearsal }
    {
        self.stage.world()
    }

    /// The world alone. No step is prepared in it.
    pub fn into_world(self) -> World
        ensures rehearsal { result.rehearsal ≡ self.rehearsal }
        ensures none { result.prepared ≡ None }
    {
        let Stage {
            alloc: _,
            stage,
            noted: _,
            owed: _,
            owed_by: _,
            sides: _,
            index: _,
        } = self;
        let (world, _) = stage.into_parts();
        world
    }

    /// The sides of the members.
    pub(crate) fn sides(&self) -> Sides
        ensures { result ≡ self.now.sides }
    {
        self.sides
    }

    // The group is on these sides from here on.
    pub(crate) fn cut(&mut self, sides: Sides)
        ensures { self.new ≡ record self.old { sides = sides } }
    {
        self.sides = sides;
    }

    /// Whose step sent the envelope of a serial; None where that was not sent.
    #[tactic(auto, unfolding(crate::specs::Picking::sender_of))]
    pub fn sender(&self, serial: Serial) -> Option<Member>
        ensures { result ≡ sender_of self.now.rehearsal serial }
    {
        let place = (serial as usize).checked_sub(1)?;
        self.sender_at(place)
    }

    fn sender_at(&self, place: usize) -> Option<Member>
        ensures { result ≡ slice_get (senders self.now.rehearsal.setting self.now.rehearsal.steps) place }
    {
        match self.noted.get(place) {
            Some(sender) => Some(*sender),
            None if place - self.noted.len() < self.owed as usize => Some(self.owed_by),
            None => None,
        }
    }

    /// Whether it has an index.
    pub(crate) fn is_indexed(&self) -> bool {
        self.index.is_some()
    }

    /// A serial up to this one, behind which no envelope up to it goes to the member and carries this.
    pub(crate) fn last_to(&self, member: Member, carried: Carried, upto: Serial) -> Serial
        ensures { IsLastTo (is_at (state_of self.now.rehearsal).sent (record { to = member; carried = carried })) upto result }
    {
        let address = Address {
            to: member,
            carried,
        };
        match &self.index {
            Some(index) => index.last_to(self.stage.world(), address, upto),
            None => upto,
        }
    }

    /// Takes the step, unless the rules refuse it; one that is not taken changes nothing. A cut forbids nothing here.
    #[tactic(auto, unfolding(crate::specs::Acting::stepped))]
    pub fn step(&mut self, step: Step) -> Result<(), LineFault>
        ensures ok { OnOk result (stepped self.old step ≡ Ok self.new) }
        ensures err { IfErr result (IsFaultOf (stepped self.old step)) }
        ensures same { OnErr result (self.new ≡ self.old) }
        ensures joined { OnOk result (self.new ≡ with_step self.old step) }
    {
        note_sent(&mut self.index, self.stage.world())?;
        note(&mut self.noted, self.owed_by, self.owed)?;
        self.owed = 0;
        self.owed_by = step.member();
        // For its clauses: the record is a run, and the state is safe.
        let _ = self.stage.world().record();
        let sent = match self.stage.step(&step) {
            Ok(effect) => effect.sent,
            Err(refusal) => return Err(self.fault_of(step, refusal)),
        };
        self.owed = sent;
        Ok(())
    }

    // Goes back to so many first steps: the stage is made again, unless it has no more.
    pub(crate) fn go_back(&mut self, count: usize) -> Result<(), LineFault>
        requires { count ≤ length self.old.rehearsal.steps }
        ensures ok { OnOk result (self.new ≡ first_part self.old count) }
        ensures err { IfErr result (λ fault. fault ≡ LineFault.OutOfMemory) }
        ensures same { OnErr result (self.new ≡ self.old) }
    {
        if count == self.world().record().len() {
            return Ok(());
        }
        let stage = self.first(count)?;
        *self = stage;
        Ok(())
    }

    // The same stage, made again.
    #[tactic(auto, using(crate::proofs::Later::whole_part))]
    pub(crate) fn again(&self) -> Result<Stage, LineFault>
        ensures ok { IfOk result (λ stage. stage ≡ self.now) }
        ensures err { IfErr result (λ fault. fault ≡ LineFault.OutOfMemory) }
    {
        self.first(self.world().record().len())
    }

    // A stage with so many first steps.
    pub(crate) fn first(&self, count: usize) -> Result<Stage, LineFault>
        requires { count ≤ length self.now.rehearsal.steps }
        ensures ok { IfOk result (λ stage. stage ≡ first_part self.now count) }
        ensures err { IfErr result (λ fault. fault ≡ LineFault.OutOfMemory) }
    {
        let world = self.world();
        let setup = Setup {
            group: world.group(),
            cells: world.cells(),
            bound: world.bound(),
        };
        let first = Stage::new(self.alloc, setup)?;
        let first = if self.is_indexed() {
            first.with_index()
        } else {
            first
        };
        let mut stage = replayed(first, &world.record()[..count])?;
        stage.cut(self.sides);
        Ok(stage)
    }

    // The fault of a step that was not done: its cause, and else want of memory or of the board.
    #[tactic(auto, unfolding(crate::specs::Acting::stepped))]
    fn fault_of(&self, step: Step, refusal: Refusal) -> LineFault
        ensures { IsFaultOf (stepped self.now step) result }
    {
        match self.world().enabled(&step) {
            Err(cause) => LineFault::Refused(step, cause),
            Ok(()) if refusal == Refusal::Board => LineFault::Board,
            Ok(()) => LineFault::OutOfMemory,
        }
    }
}

// Notes what was sent, where there is an index.
fn note_sent(index: &mut Option<Index>, world: &World) -> Result<(), LineFault>
    requires { ForSome index.old (IsIndexOf world.now.rehearsal) }
    ensures kept { ForSome index.new (IsIndexOf world.now.rehearsal) }
    ensures err { IfErr result (λ fault. fault ≡ LineFault.OutOfMemory) }
{
    match index {
        Some(index) => Ok(index.note(world)?),
        None => Ok(()),
    }
}

// Notes the sender of as many envelopes.
fn note(noted: &mut Vec<Member>, sender: Member, sent: u32) -> Result<(), LineFault>
    ensures ok { OnOk result (noted.new.items ≡ noted.old.items ++ replicate sent sender) }
    ensures same { OnErr result (noted.new.items ≡ noted.old.items) }
    ensures err { IfErr result (λ fault. fault ≡ LineFault.OutOfMemory) }
{
    let count = noted.len() + sent as usize;
    match noted.resize(count, sender) {
        Ok(()) => Ok(()),
        Err(_) => Err(LineFault::OutOfMemory),
    }
}

// The stage to which these steps lead from one without steps.
fn replayed(first: Stage, steps: &[Step]) -> Result<Stage, LineFault>
    requires { first.rehearsal.steps ≡ [] }
    ensures ok { IfOk result (λ stage. stage ≡ with_record first (record first.rehearsal { steps = steps.now })) }
    ensures err { IfErr result (λ fault. fault ≡ LineFault.OutOfMemory) }
{
    let mut stage = first;
    for (i, step) in steps.iter().enumerate() {
        // The invariant names it.
        let _ = i;
        if stage.step(*step).is_err() {
            return Err(LineFault::OutOfMemory);
        }
    }
    Ok(stage)
}
