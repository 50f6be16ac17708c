//! The options of walks, by numbers.

ghost use Rattle.std.specs.Prelude.{◌≡◌, ◌<◌, ◌≤◌, ◌⊎◌, IfNone, IfSome};
ghost use Rattle.ct_embed.specs.WalkCodes.{IsWalk, options_of, run_of};
ghost use Rattle.ct_program.specs.FreeOptions.{InRange};

use ct_names::{MAX_BOUND, MAX_CELLS, MAX_MEMBERS};
use ct_program::{FreeOptions, MAX_EACH, MAX_RATE, MAX_TURNS};
use ct_walk::WalkOptions;

/// The options of a walk, each under its name on a command line.
#[repr(C)]
#[derive(Clone, Copy)]
pub struct OptionsCode {
    pub turns: u32,
    pub seed: u32,
    pub batch: u32,
    pub every: u32,
    pub rate: u16,
    pub cells: u16,
    pub submit: u16,
    pub postpone: u16,
    pub lose: u16,
    pub repeat: u16,
    pub scatter: u16,
    pub lasting: u16,
    pub cut: u16,
    pub members: u8,
    pub crash: u8,
    pub crashes: u8,
}

impl OptionsCode {
    // The options of a walk, where each is in its range.
    pub(crate) fn walk(&self) -> Option<WalkOptions>
        ensures value { IfSome result (λ options. options ≡ options_of self.now) }
        ensures range { IfSome result IsWalk }
        ensures none { IfNone result (IsWalk (options_of self.now) → ⊥) }
    {
        let run = self.run()?;
        within(u32::from(self.crash), 0, u32::from(run.members))?;
        let half = u32::from((run.members - 1) / 2);
        Some(WalkOptions {
            run,
            every: within(self.every, 0, MAX_TURNS)?,
            scatter: within(u32::from(self.scatter), 0, MAX_RATE as u32)? as u16,
            lasting: within(u32::from(self.lasting), 0, MAX_RATE as u32)? as u16,
            crashes: within(u32::from(self.crashes), 0, half)? as u8,
            cuts: within(u32::from(self.cut), 0, MAX_EACH as u32)? as u16,
        })
    }

    // Those that a free run has too.
    fn run(&self) -> Option<FreeOptions>
        ensures value { IfSome result (λ run. run ≡ run_of self.now) }
        ensures range { IfSome result InRange }
        ensures none { IfNone result (InRange (run_of self.now) → ⊥) }
    {
        Some(FreeOptions {
            members: within(u32::from(self.members), 1, MAX_MEMBERS as u32)? as u8,
            turns: within(self.turns, 0, MAX_TURNS)?,
            seed: within(self.seed, 0, u32::MAX)?,
            rate: within(u32::from(self.rate), 0, MAX_RATE as u32)? as u16,
            cells: within(u32::from(self.cells), 0, MAX_CELLS as u32)? as u16,
            submit: within(u32::from(self.submit), 0, MAX_EACH as u32)? as u16,
            crash: within(u32::from(self.crash), 0, MAX_MEMBERS as u32)? as u8,
            postpone: within(u32::from(self.postpone), 0, MAX_EACH as u32)? as u16,
            lose: within(u32::from(self.lose), 0, MAX_EACH as u32)? as u16,
            repeat: within(u32::from(self.repeat), 0, MAX_EACH as u32)? as u16,
            batch: within(self.batch, 1, MAX_BOUND)?,
        })
    }
}

// The number, where it is in this range.
fn within(n: u32, least: u32, most: u32) -> Option<u32>
    ensures value { IfSome result (λ it. it ≡ n) }
    ensures range { IfSome result (λ it. (least ≤ it) × (it ≤ most)) }
    ensures none { IfNone result ((n < least) ⊎ (most < n)) }
{
    if n < least || most < n { None } else { Some(n) }
}
