//! What lines state of what acts do, as they say it.

ghost use Rattle.std.specs.Prelude.{◌≡◌, ◌++◌, OnOk, string_bytes};
ghost use Rattle.ct_print.specs.Statements.{listed_text, statement_text};

use crate::acts::push_command;
use crate::reports::push_some_names;
use ct_grammar::{Listed, Statement};
use std::alloc::AllocError;

/// Puts the statement behind the text, as `set 0 7` or `{1.1,2.1} ts 0`. Where memory is refused, a beginning of it may stand there.
#[tactic(auto, unfolding(crate::specs::Statements::statement_text))]
pub fn push_statement(text: &mut String, statement: &Statement) -> Result<(), AllocError>
    ensures { OnOk result (string_bytes text.new ≡ string_bytes text.old ++ statement_text statement.now) }
{
    match statement {
        Statement::Command(command) => push_command(text, *command),
        Statement::Value(listed) => push_listed(text, listed),
        Statement::Estimate(listed, ts) => {
            push_listed(text, listed)?;
            write!(text, " ts {ts}")
        }
    }
}

// The messages, and how many more there are.
#[tactic(auto, unfolding(crate::specs::Statements::listed_text, crate::specs::Reports::value_text))]
fn push_listed(text: &mut String, listed: &Listed) -> Result<(), AllocError>
    ensures { OnOk result (string_bytes text.new ≡ string_bytes text.old ++ listed_text listed.now) }
{
    text.push_str("{")?;
    push_some_names(text, ',', listed.names.as_slice())?;
    if listed.more == 0 {
        return text.push_str("}");
    }
    let more = listed.more;
    write!(text, " and {more} more}}")
}
