//! Lines, taken one by one.

ghost use Rattle.std.specs.Prelude.{◌≡◌, true, false, Ok, IfOk, IfErr, Some, is_ok};
ghost use Rattle.ct_play.specs.Faults.{IsShort};
ghost use Rattle.ct_shrink.specs.Lines.{after_line, after_taken, allowed, taken};

use crate::line::Line;
use crate::naming::other_line;
use ct_play::{LineFault, Watch, step_of};

// Takes the line, or the other one where it is refused; answers the one that was taken.
#[tactic(auto, unfolding(crate::specs::Lines::taken, crate::specs::Lines::allowed, crate::specs::Lines::after_taken))]
pub(crate) fn take(watch: &mut Watch<'_>, line: &Line) -> Result<Option<Line>, LineFault>
    ensures taken { IfOk result (λ kept. kept ≡ taken watch.old.played line.now) }
    ensures after { IfOk result (λ kept. watch.new.played ≡ after_taken watch.old.played kept) }
    ensures goal { watch.new.goal ≡ watch.old.goal }
    ensures err { IfErr result IsShort }
{
    if is_taken(watch, line)? {
        return Ok(Some(*line));
    }
    match other_line(watch.stage(), line) {
        None => Ok(None),
        Some(other) => take_other(watch, &other),
    }
}

// Takes the line where it is allowed.
#[tactic(auto, unfolding(crate::specs::Lines::allowed, crate::specs::Lines::after_taken))]
fn take_other(watch: &mut Watch<'_>, line: &Line) -> Result<Option<Line>, LineFault>
    ensures taken { IfOk result (λ kept. kept ≡ allowed watch.old.played (Some line.now)) }
    ensures after { IfOk result (λ kept. watch.new.played ≡ after_taken watch.old.played kept) }
    ensures goal { watch.new.goal ≡ watch.old.goal }
    ensures err { IfErr result IsShort }
{
    if is_taken(watch, line)? {
        Ok(Some(*line))
    } else {
        Ok(None)
    }
}

// Takes the line where it is allowed, and answers whether it is.
#[tactic(auto, unfolding(crate::specs::Lines::after_line))]
fn is_taken(watch: &mut Watch<'_>, line: &Line) -> Result<bool, LineFault>
    ensures ok { IfOk result (λ taken. taken ≡ is_ok (after_line watch.old.played line.now)) }
    ensures after { result ≡ Ok true → after_line watch.old.played line.now ≡ Ok watch.new.played }
    ensures same { result ≡ Ok false → watch.new.played ≡ watch.old.played }
    ensures goal { watch.new.goal ≡ watch.old.goal }
    ensures err { IfErr result IsShort }
{
    let Ok(step) = step_of(watch.stage(), line.member, line.act) else {
        return Ok(false);
    };
    match watch.step(step) {
        Ok(()) => Ok(true),
        Err(fault) if fault.is_short() => Err(fault),
        Err(_) => Ok(false),
    }
}
