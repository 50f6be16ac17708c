//! The turns of a walk one by one.

ghost use Rattle.std.specs.Prelude.{◌≡◌, IfOk, IfErr};
ghost use Rattle.ct_walk.specs.Options.{IsInRange};
ghost use Rattle.ct_walk.specs.Turns.{after_turn_of, first_turning, turn_of};

use crate::draws::Draws;
use crate::fault::WalkFault;
use crate::options::WalkOptions;
use crate::turn::Turn;
use ct_play::Stage;
use std::alloc::Global;
use std::marker::Model;

/// The turns of a walk, for a world that others may change between them: whose each turn is, what its failure detector answers and
/// what it tries, all drawn from the seed as a walk draws it. They take as many turns as the walk has at most.
#[derive(Drop)]
pub struct Turns {
    options: WalkOptions,
    made: u64,
    most: u64,
    draws: Draws,
}

// Contracts see all of it.
impl Model for Turns {
    ghost use Rattle.ct_walk.specs.Turns.{Turning};

    ghost Value = { Turning };

    ghost view = { λ t. record { options = t.options; made = t.made; most = t.most; drawing = t.draws } };
}

impl Turns {
    /// The turns of the walk of these options, before the first. Only memory can be refused.
    #[tactic(auto, unfolding(crate::specs::Walking::start))]
    pub fn new(alloc: Global, options: &WalkOptions) -> Result<Turns, WalkFault>
        requires { IsInRange options.now }
        ensures ok { IfOk result (λ turns. turns ≡ first_turning options.now) }
        ensures err { IfErr result (λ fault. fault ≡ WalkFault.Memory) }
    {
        let draws = Draws::new(alloc, options)?;
        let most = draws.most_turns(options.run.members, options.run.turns);
        Ok(Turns {
            options: *options,
            made: 0,
            most,
            draws,
        })
    }

    /// Draws the next turn, and tells what it tries in the world as it stands: nothing is done there. The world may have any group
    /// and any record. Once the last turn was drawn there is none, and nothing changes.
    #[tactic(auto, unfolding(crate::specs::Turns::turn_of, crate::specs::Turns::after_turn_of))]
    pub fn next(&mut self, stage: &Stage) -> Turn
        ensures value { result ≡ turn_of self.old stage.now.rehearsal }
        ensures after { self.new ≡ after_turn_of self.old stage.now.rehearsal }
    {
        if self.made >= self.most {
            return Turn::Over;
        }
        self.made += 1;
        match self.draws.turn(&self.options, self.made, stage) {
            Some(step) => Turn::Step(step),
            None => Turn::Rest,
        }
    }
}
