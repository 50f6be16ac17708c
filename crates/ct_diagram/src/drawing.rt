//! The diagram of a part of a run.

ghost use Rattle.std.specs.Prelude.{◌≡◌, ◌≤◌, ◌<◌, ◌+◌, ◌++◌, ◌^◌, length, OnOk, IfOk, IfErr, string_bytes, replicate};
ghost use Rattle.ct_model.specs.Rehearsal.{state_of};
ghost use Rattle.ct_records.specs.Replay.{IsAllowed};
ghost use Rattle.ct_records.specs.View.{rehearsal_of};
ghost use Rattle.ct_world.specs.Setup.{record_of};
ghost use Rattle.ct_diagram.specs.Diagram.{whole_trail, whole_layer, shades_layer, arrows_layer, marks_layer, one_of, one_drawn};
ghost use Rattle.ct_diagram.specs.Diagram.{framed_text, drawn_after, IsDiagram, FailsWith, IsOfReplay};
ghost use Rattle.ct_diagram.specs.Trail.{place_after};
ghost use Rattle.ct_diagram.specs.Window.{is_drawn, steps_in};

use crate::canvas::Canvas;
use crate::drawn::Drawn;
use crate::frame::{push_foot, push_head, push_rows};
use crate::grid::Grid;
use crate::sight::{Glance, Sight, glance_of, is_quiet, sight_of};
use crate::trail::place_after;
use crate::window::{MOST_STEPS, Window};
use ct_model::Step;
use ct_names::{MAX_ENVELOPES, Member};
use ct_records::Script;
use ct_told::ShowFault;
use ct_world::{Replay, Replayed, Setup, World};
use std::alloc::{AllocError, Global};

/// The diagram of the steps of the record that the window has. The steps after the window's last one are not looked at.
pub fn diagram(alloc: Global, script: &Script, window: &Window) -> Result<Vec<u8>, ShowFault>
    ensures ok { IfOk result (λ text. IsDiagram window.now (rehearsal_of script.now) text.items) }
    ensures err { IfErr result (λ fault. FailsWith window.now fault (rehearsal_of script.now)) }
{
    let end = (window.to as usize).min(script.steps.len());
    let steps = window.steps(end);
    if steps > MOST_STEPS {
        return Err(ShowFault::TooManySteps { steps });
    }
    let canvas = drawn(alloc, script.setup(), &script.steps[..end], window)?;
    let grid = Grid {
        n: script.group.n(),
        columns: window.columns,
    };
    Ok(framed(alloc, &canvas, grid)?)
}

// The frame round what is drawn.
#[tactic(auto, unfolding(crate::specs::Diagram::framed_text))]
fn framed(alloc: Global, canvas: &Canvas, grid: Grid) -> Result<Vec<u8>, AllocError>
    requires { length canvas.now.trail.items ≤ MOST_STEPS }
    ensures { IfOk result (λ text. text.items ≡ framed_text grid (place_after canvas.now.trail.items Sight.Hidden)
        (string_bytes canvas.now.shades) (string_bytes canvas.now.arrows) (string_bytes canvas.now.marks)) }
{
    let end = place_after(&canvas.trail, Sight::Hidden);
    let mut text = String::new(alloc);
    push_head(&mut text, grid, end)?;
    text.push_str(&canvas.shades)?;
    push_rows(&mut text, grid, end)?;
    text.push_str(&canvas.arrows)?;
    text.push_str(&canvas.marks)?;
    push_foot(&mut text, grid, end)?;
    Ok(text.into_bytes())
}

// What is drawn of these steps, or the first of them that is refused.
fn drawn(alloc: Global, setup: Setup, steps: &[Step], window: &Window) -> Result<Canvas, ShowFault>
    requires narrow { steps_in window.now steps.now ≤ MOST_STEPS }
    ensures allowed { OnOk result (IsAllowed (record_of setup steps.now)) }
    ensures trail { IfOk result (λ canvas. canvas.trail.items ≡ whole_trail window.now (record_of setup steps.now)) }
    ensures few { IfOk result (λ canvas. length canvas.trail.items ≤ MOST_STEPS) }
    ensures shades { IfOk result (λ canvas. string_bytes canvas.shades ≡ whole_layer shades_layer window.now (record_of setup steps.now)) }
    ensures arrows { IfOk result (λ canvas. string_bytes canvas.arrows ≡ whole_layer arrows_layer window.now (record_of setup steps.now)) }
    ensures marks { IfOk result (λ canvas. string_bytes canvas.marks ≡ whole_layer marks_layer window.now (record_of setup steps.now)) }
    ensures err { IfErr result (λ fault. IsOfReplay fault (record_of setup steps.now)) }
{
    let mut replay = Replay::new(alloc, setup, steps)?;
    let mut senders = Vec::new(alloc);
    let mut canvas = Canvas::new(alloc);
    while !replay.is_over() {
        let seen = glance_of(replay.world(), replay.left()[0]);
        let done = replay.step()?;
        note(&mut senders, done.step.member(), done.sent)?;
        draw_next(
            &mut canvas,
            replay.world(),
            window,
            &senders,
            seen,
            done,
            replay.left(),
        )?;
    }
    Ok(canvas)
}

// Notes the sender of as many envelopes.
fn note(senders: &mut Vec<Member>, sender: Member, sent: u32) -> Result<(), AllocError>
    ensures { OnOk result (senders.new.items ≡ senders.old.items ++ replicate sent sender) }
{
    let count = senders.len() + sent as usize;
    senders.resize(count, sender)
}

// Draws the world's last step, where the window has it.
fn draw_next(
    canvas: &mut Canvas,
    world: &World,
    window: &Window,
    senders: &[Member],
    seen: Glance,
    done: Replayed,
    later: &[Step],
) -> Result<(), AllocError>
    requires sent { done.before ≤ MAX_ENVELOPES }
    requires near { done.number + length later.now < 2 ^ 63 }
    requires few { length canvas.old.trail.items < MOST_STEPS }
    ensures trail { OnOk result (canvas.new.trail.items ≡ canvas.old.trail.items
        ++ one_drawn window.now world.now.rehearsal canvas.old.trail.items done.before done.number done.step seen) }
    ensures shades { OnOk result (string_bytes canvas.new.shades ≡ string_bytes canvas.old.shades
        ++ one_of shades_layer window.now world.now.rehearsal senders.now canvas.old.trail.items done.before done.number done.step seen
        later.now) }
    ensures arrows { OnOk result (string_bytes canvas.new.arrows ≡ string_bytes canvas.old.arrows
        ++ one_of arrows_layer window.now world.now.rehearsal senders.now canvas.old.trail.items done.before done.number done.step seen
        later.now) }
    ensures marks { OnOk result (string_bytes canvas.new.marks ≡ string_bytes canvas.old.marks
        ++ one_of marks_layer window.now world.now.rehearsal senders.now canvas.old.trail.items done.before done.number done.step seen
        later.now) }
{
    if window.has(done.number) {
        let drawn = drawn_after(&canvas.trail, world, window, seen, done);
        canvas.draw(world, window, senders, drawn, later)
    } else {
        Ok(())
    }
}

// How the world's last step is drawn behind these.
#[tactic(auto, unfolding(crate::specs::Diagram::drawn_after))]
fn drawn_after(
    trail: &[Drawn],
    world: &World,
    window: &Window,
    seen: Glance,
    done: Replayed,
) -> Drawn
    requires { length trail.now < MOST_STEPS }
    ensures value { result ≡ drawn_after window.now world.now.rehearsal trail.now done.before done.number done.step seen }
    ensures before { result.before ≡ done.before }
    ensures number { result.number ≡ done.number }
{
    let is_quiet = is_quiet(world, seen, done.before, done.step);
    let sight = sight_of(window, world, is_quiet, done.step);
    Drawn {
        number: done.number,
        before: done.before,
        sent: world.sent(),
        step: done.step,
        is_quiet,
        sight,
        place: place_after(trail, sight),
    }
}
