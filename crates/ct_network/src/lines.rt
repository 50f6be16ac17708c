//! The waiting lines of all members.

ghost use Rattle.std.specs.Prelude.{◌≡◌, ℕ, [], IfOk, OnOk, replicate};
ghost use Rattle.ct_network.specs.Lines.{serials_of, HaveRoom};

use crate::line::Line;
use std::alloc::{AllocError, Global};

/// As many lines, in which nothing waits. Only memory can be refused.
pub(crate) fn new_lines(alloc: Global, members: u8) -> Result<Vec<Line>, AllocError>
    ensures { IfOk result (λ lines. serials_of lines.items ≡ replicate members []) }
{
    let mut lines = Vec::new(alloc);
    for _ in 0..members {
        lines.push(Line::new(alloc))?;
    }
    Ok(lines)
}

/// Lines in which the same serials wait. Only memory can be refused.
pub(crate) fn copy_lines(alloc: Global, lines: &[Line]) -> Result<Vec<Line>, AllocError>
    ensures { IfOk result (λ copies. serials_of copies.items ≡ serials_of lines.now) }
{
    let mut copies = Vec::new(alloc);
    for i in 0..lines.len() {
        copies.push(lines[i].copy(alloc)?)?;
    }
    Ok(copies)
}

/// Makes room in each line for so many more serials. What waits stays, and so does room, also where memory is refused.
pub(crate) fn make_room(lines: &mut Vec<Line>, more: usize) -> Result<(), AllocError>
    ensures same { serials_of lines.new.items ≡ serials_of lines.old.items }
    ensures ok { OnOk result (HaveRoom lines.new.items more) }
    ensures room { (least : ℕ) → HaveRoom lines.old.items least → HaveRoom lines.new.items least }
{
    for i in 0..lines.len() {
        let line = &mut lines[i];
        line.make_room(more)?;
    }
    Ok(())
}
