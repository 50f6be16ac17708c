//! Commands and steps in the words of a schedule.

ghost use Rattle.std.specs.Prelude.{OnOk};
ghost use Rattle.ct_text.specs.Adds.{Adds};
ghost use Rattle.ct_show.specs.Acts.{act_words, command_words, step_words};

use ct_model::Step;
use ct_names::Command;
use std::alloc::AllocError;

// As `set 0 7`.
#[tactic(auto, unfolding(crate::specs::Acts::command_words))]
pub(crate) fn push_command(text: &mut String, command: Command) -> Result<(), AllocError>
    ensures { OnOk result (Adds text.old text.new (command_words command)) }
{
    match command {
        Command::Set(register, value) => write!(text, "set {register} {value}"),
        Command::Add(register, amount) => write!(text, "add {register} {amount}"),
        Command::Copy(from, to) => write!(text, "copy {from} {to}"),
    }
}

// As `receive #5`.
#[tactic(auto, unfolding(crate::specs::Acts::act_words))]
pub(crate) fn push_act(text: &mut String, step: Step) -> Result<(), AllocError>
    ensures { OnOk result (Adds text.old text.new (act_words step)) }
{
    match step {
        Step::Submit(_, command) => {
            text.push_str("submit ")?;
            push_command(text, command)
        }
        Step::Receive(_, serial) => write!(text, "receive #{serial}"),
        Step::Begin(_) => text.push_str("begin"),
        Step::Enter(_) => text.push_str("enter"),
        Step::Choose(_, from) => write!(text, "choose {from}"),
        Step::Adopt(_) => text.push_str("adopt"),
        Step::Suspect(_) => text.push_str("suspect"),
        Step::Conclude(_) => text.push_str("conclude"),
        Step::Deliver(_) => text.push_str("deliver"),
        Step::Follow(_) => text.push_str("follow"),
        Step::Crash(_) => text.push_str("crash"),
        Step::Postpone(_, serial) => write!(text, "postpone #{serial}"),
        Step::Lose(_, serial) => write!(text, "lose #{serial}"),
        Step::Repeat(_, serial) => write!(text, "repeat #{serial}"),
    }
}

// With its member, as `2 receive #5`.
#[tactic(auto, unfolding(crate::specs::Acts::step_words))]
pub(crate) fn push_step(text: &mut String, step: Step) -> Result<(), AllocError>
    ensures { OnOk result (Adds text.old text.new (step_words step)) }
{
    let member = step.member();
    write!(text, "{member} ")?;
    push_act(text, step)
}
