//! Laws of the definitions: of lines and of goals, what is written and what is read are the same.

ghost use Rattle.std.specs.Prelude.{◌≡◌, ℕ, List, Ok, IfOk};
ghost use Rattle.ct_grammar.specs.declared.goal.Goal.{Goal};
ghost use Rattle.ct_grammar.specs.declared.line.Line.{Line};
ghost use Rattle.ct_grammar.specs.Goals.{goal_of};
ghost use Rattle.ct_grammar.specs.Lines.{line_of};
ghost use Rattle.ct_print.specs.Goals.{goal_text};
ghost use Rattle.ct_print.specs.Lines.{line_text};
ghost use Rattle.ct_print.specs.Writable.{GoalFits, IsWritable};

/// What is written of a line is read as that line, and what is written of a goal as that goal.
pub fn law_read_back()
    ensures lines { (line : Line) → IsWritable line → line_of (line_text line) ≡ Ok line }
    ensures goals { (goal : Goal) → GoalFits goal → goal_of (goal_text goal) ≡ Ok goal }
{}

/// Each line and each goal that is read can be written.
pub fn law_writable()
    ensures lines { (bytes : List ℕ) → IfOk (line_of bytes) IsWritable }
    ensures goals { (bytes : List ℕ) → IfOk (goal_of bytes) GoalFits }
{}
