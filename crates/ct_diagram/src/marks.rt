//! A mark for each step.

ghost use Rattle.std.specs.Prelude.{◌≡◌, ◌≤◌, ◌+◌, ◌++◌, OnOk};
ghost use Rattle.ct_text.specs.Adds.{Adds};
ghost use Rattle.ct_model.specs.Actor.{actor};
ghost use Rattle.ct_text.specs.Standing.{instance_of, round_of};
ghost use Rattle.ct_show.specs.Details.{letter_of};
ghost use Rattle.ct_show.specs.Wires.{round_text};
ghost use Rattle.ct_diagram.specs.Grid.{spot_of};
ghost use Rattle.ct_diagram.specs.Marks.{class_of, kind_at, received_kind, dot_text, circle_text, letter_text, sign_text};
ghost use Rattle.ct_diagram.specs.Marks.{entered_text, falling_text, changed_text, note_text, who_text, title_text, mark_text};
ghost use Rattle.ct_diagram.specs.Marks.{small_text, marks};

use crate::arrows::kind_of;
use crate::drawn::Drawn;
use crate::grid::{Grid, MIDDLE, Spot};
use crate::sight::Sight;
use ct_model::Step;
use ct_names::{MAX_ENVELOPES, Member};
use ct_show::{letter_of, push_detail, push_round};
use ct_text::{instance_of, push_estimate_of, round_of};
use ct_world::{Letter, World};
use std::alloc::AllocError;

// The mark of the world's last step: one in a column, a small one, or none.
pub(crate) fn push_marks(
    text: &mut String,
    world: &World,
    grid: Grid,
    drawn: Drawn,
) -> Result<(), AllocError>
    requires { drawn.before ≤ MAX_ENVELOPES }
    ensures { OnOk result (Adds text.old text.new (marks world.now.rehearsal grid drawn)) }
{
    let spot = grid.spot(drawn.place, drawn.step.member());
    match drawn.sight {
        Sight::Wide => push_mark(text, world, drawn, spot),
        Sight::Small => push_small(text, world, drawn, spot),
        Sight::Hidden => Ok(()),
    }
}

#[tactic(auto, unfolding(crate::specs::Marks::mark_text))]
fn push_mark(text: &mut String, world: &World, drawn: Drawn, spot: Spot) -> Result<(), AllocError>
    requires { drawn.before ≤ MAX_ENVELOPES }
    ensures { OnOk result (Adds text.old text.new (mark_text world.now.rehearsal drawn spot)) }
{
    push_note(text, world, drawn.step, spot)?;
    push_title(text, world, drawn.before, drawn.number, drawn.step)?;
    push_sign(text, world, drawn, spot)?;
    text.push_str("</g>\n")
}

// A receipt that changes nothing.
#[tactic(auto, unfolding(crate::specs::Marks::small_text))]
fn push_small(text: &mut String, world: &World, drawn: Drawn, spot: Spot) -> Result<(), AllocError>
    requires { drawn.before ≤ MAX_ENVELOPES }
    ensures { OnOk result (Adds text.old text.new (small_text world.now.rehearsal drawn spot)) }
{
    push_title(text, world, drawn.before, drawn.number, drawn.step)?;
    push_dot(text, received_kind(world, drawn.step), spot, 2)?;
    text.push_str("</g>\n")
}

// The kind of what the step receives, nothing where it receives nothing.
fn received_kind(world: &World, step: Step) -> &'static str
    ensures { result.now ≡ received_kind world.now.rehearsal step }
{
    match step {
        Step::Receive(_, serial) => kind_at(world.letter(serial)),
        _ => "",
    }
}

// What is read where the pointer rests on the mark.
#[tactic(auto, unfolding(crate::specs::Marks::title_text))]
fn push_title(
    text: &mut String,
    world: &World,
    before: u32,
    number: usize,
    step: Step,
) -> Result<(), AllocError>
    requires { before ≤ MAX_ENVELOPES }
    ensures { OnOk result (Adds text.old text.new (title_text world.now.rehearsal before number step)) }
{
    push_who(text, number, step.member())?;
    push_detail(text, world, before, step)?;
    text.push_str("</title>")
}

#[tactic(auto, unfolding(crate::specs::Marks::who_text))]
fn push_who(text: &mut String, number: usize, member: Member) -> Result<(), AllocError>
    ensures { OnOk result (Adds text.old text.new (who_text number member)) }
{
    write!(text, "<g><title>step {number}, member {member}: ")
}

// A dot for a receipt, a letter in a circle for another step.
fn push_sign(text: &mut String, world: &World, drawn: Drawn, spot: Spot) -> Result<(), AllocError>
    ensures { OnOk result (Adds text.old text.new (sign_text world.now.rehearsal drawn.before drawn.step spot)) }
{
    match drawn.step {
        Step::Receive(_, serial) => push_dot(text, kind_at(world.letter(serial)), spot, 4),
        step => push_lettered(
            text,
            class_of(world, drawn.before, step),
            letter_of(step),
            spot,
        ),
    }
}

// A dot in the colour of what is received.
#[tactic(auto, unfolding(crate::specs::Marks::dot_text))]
fn push_dot(text: &mut String, kind: &str, spot: Spot, radius: u8) -> Result<(), AllocError>
    ensures { OnOk result (Adds text.old text.new (dot_text kind.now spot radius)) }
{
    let Spot { x, y } = spot;
    write!(
        text,
        "<circle class='dot {kind}' cx='{x}' cy='{y}' r='{radius}'/>"
    )
}

fn push_lettered(text: &mut String, class: &str, letter: &str, spot: Spot) -> Result<(), AllocError>
    ensures { OnOk result (Adds text.old text.new ((circle_text class.now spot ++ letter_text letter.now spot))) }
{
    push_circle(text, class, spot)?;
    push_letter(text, letter, spot)
}

#[tactic(auto, unfolding(crate::specs::Marks::circle_text))]
fn push_circle(text: &mut String, class: &str, spot: Spot) -> Result<(), AllocError>
    ensures { OnOk result (Adds text.old text.new (circle_text class.now spot)) }
{
    let Spot { x, y } = spot;
    write!(text, "<circle class='{class}' cx='{x}' cy='{y}' r='9'/>")
}

#[tactic(auto, unfolding(crate::specs::Marks::letter_text))]
fn push_letter(text: &mut String, letter: &str, spot: Spot) -> Result<(), AllocError>
    ensures { OnOk result (Adds text.old text.new (letter_text letter.now spot)) }
{
    let x = spot.x;
    let low = u64::from(spot.y) + 4;
    write!(text, "<text x='{x}' y='{low}'>{letter}</text>")
}

// The kind of what an envelope carries.
fn kind_at(letter: Option<Letter>) -> &'static str
    ensures { result.now ≡ kind_at letter }
{
    match letter {
        None => "",
        Some(letter) => kind_of(&letter.wire),
    }
}

// How the mark of the world's last step looks.
fn class_of(world: &World, before: u32, step: Step) -> &'static str
    ensures { result.now ≡ class_of world.now.rehearsal before step }
{
    match step {
        Step::Conclude(_) => {
            if world.sent() == before {
                "own"
            } else {
                "decision"
            }
        }
        Step::Suspect(_) | Step::Crash(_) => "alarm",
        Step::Deliver(_) | Step::Follow(_) => "delivery",
        Step::Postpone(_, _) | Step::Lose(_, _) | Step::Repeat(_, _) => "net",
        _ => "own",
    }
}

// The round that is entered, or the estimate where it changes.
fn push_note(text: &mut String, world: &World, step: Step, spot: Spot) -> Result<(), AllocError>
    ensures { OnOk result (Adds text.old text.new (note_text world.now.rehearsal step spot)) }
{
    match step {
        Step::Enter(member) => push_entered(text, world, member, spot),
        Step::Begin(member) | Step::Choose(member, _) | Step::Adopt(member) => {
            push_changed(text, world, member, spot)
        }
        _ => Ok(()),
    }
}

#[tactic(auto, unfolding(crate::specs::Marks::entered_text))]
fn push_entered(
    text: &mut String,
    world: &World,
    member: Member,
    spot: Spot,
) -> Result<(), AllocError>
    ensures { OnOk result (Adds text.old text.new (entered_text world.now.rehearsal member spot)) }
{
    let x = spot.x;
    let high = spot.y.saturating_sub(20);
    write!(text, "<text class='round' x='{x}' y='{high}'>")?;
    push_round_of(text, world, member)?;
    text.push_str("</text>\n")
}

fn push_round_of(text: &mut String, world: &World, member: Member) -> Result<(), AllocError>
    ensures { OnOk result (Adds text.old text.new
        (round_text (instance_of world.now.rehearsal member) (round_of world.now.rehearsal member))) }
{
    push_round(text, instance_of(world, member), round_of(world, member))
}

#[tactic(auto, unfolding(crate::specs::Marks::changed_text))]
fn push_changed(
    text: &mut String,
    world: &World,
    member: Member,
    spot: Spot,
) -> Result<(), AllocError>
    ensures { OnOk result (Adds text.old text.new (changed_text world.now.rehearsal member spot)) }
{
    push_falling(text, spot.x, u64::from(spot.y) + 26)?;
    push_estimate_of(text, world, member)?;
    text.push_str("</text>\n")
}

// A text begins here, which falls to the right; right of the middle it ends here, and falls to the left.
#[tactic(auto, unfolding(crate::specs::Marks::falling_text))]
fn push_falling(text: &mut String, x: u32, y: u64) -> Result<(), AllocError>
    ensures { OnOk result (Adds text.old text.new (falling_text x y)) }
{
    if x > MIDDLE {
        write!(
            text,
            "<text class='note left' x='{x}' y='{y}' transform='rotate(-18 {x} {y})'>"
        )
    } else {
        write!(
            text,
            "<text class='note' x='{x}' y='{y}' transform='rotate(18 {x} {y})'>"
        )
    }
}
