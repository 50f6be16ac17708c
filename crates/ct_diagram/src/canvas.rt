//! What is drawn of some steps, in three layers.

ghost use Rattle.std.specs.Prelude.{◌≡◌, ◌≤◌, ◌<◌, ◌+◌, ◌++◌, ◌^◌, [], ◌∷◌, length, OnOk, string_bytes};
ghost use Rattle.ct_diagram.specs.Arrows.{arrows, grid_of};
ghost use Rattle.ct_diagram.specs.Marks.{marks};
ghost use Rattle.ct_diagram.specs.Shades.{shades};

use crate::arrows::{grid_of, push_arrows};
use crate::drawn::Drawn;
use crate::marks::push_marks;
use crate::shades::push_shades;
use crate::window::Window;
use ct_model::Step;
use ct_names::{MAX_ENVELOPES, Member};
use ct_world::World;
use std::alloc::{AllocError, Global};

// What is drawn of some steps.
#[derive(Drop)]
pub(crate) struct Canvas {
    // The steps, in order.
    pub trail: Vec<Drawn>,
    // Behind all else, the rounds.
    pub shades: String,
    // Then the envelopes.
    pub arrows: String,
    // In front of all else, the steps.
    pub marks: String,
}

impl Canvas {
    // Nothing is drawn.
    pub(crate) fn new(alloc: Global) -> Canvas
        ensures trail { result.trail.items ≡ [] }
        ensures shades { string_bytes result.shades ≡ [] }
        ensures arrows { string_bytes result.arrows ≡ [] }
        ensures marks { string_bytes result.marks ≡ [] }
    {
        Canvas {
            trail: Vec::new(alloc),
            shades: String::new(alloc),
            arrows: String::new(alloc),
            marks: String::new(alloc),
        }
    }

    // Draws the world's last step. The later ones are drawn after it.
    pub(crate) fn draw(
        &mut self,
        world: &World,
        window: &Window,
        senders: &[Member],
        drawn: Drawn,
        later: &[Step],
    ) -> Result<(), AllocError>
        requires sent { drawn.before ≤ MAX_ENVELOPES }
        requires near { drawn.number + length later.now < 2 ^ 63 }
        ensures trail { OnOk result (self.new.trail.items ≡ self.old.trail.items ++ drawn ∷ []) }
        ensures shades { OnOk result (string_bytes self.new.shades
            ≡ string_bytes self.old.shades ++ shades world.now.rehearsal (grid_of world.now.rehearsal window.now) drawn) }
        ensures arrows { OnOk result (string_bytes self.new.arrows ≡ string_bytes self.old.arrows
            ++ arrows world.now.rehearsal window.now senders.now self.old.trail.items drawn later.now) }
        ensures marks { OnOk result (string_bytes self.new.marks
            ≡ string_bytes self.old.marks ++ marks world.now.rehearsal (grid_of world.now.rehearsal window.now) drawn) }
    {
        let grid = grid_of(world, window);
        push_shades(&mut self.shades, world, grid, drawn)?;
        push_arrows(
            &mut self.arrows,
            world,
            window,
            senders,
            &self.trail,
            drawn,
            later,
        )?;
        push_marks(&mut self.marks, world, grid, drawn)?;
        self.trail.push(drawn)?;
        Ok(())
    }
}
