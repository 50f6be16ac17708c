//! The words that make a walk again.

ghost use Rattle.std.specs.Prelude.{Some};
ghost use Rattle.ct_find.specs.Texts.{again_text, option_text, options_text};

use ct_grammar::Text;
use ct_names::MAX_BOUND;
use ct_walk::WalkOptions;
use std::fmt;

/// The words that make a walk again that was looked for. Its text is a command line, with the options that are not the usual
/// ones.
#[derive(Drop)]
pub struct Again {
    /// The options of the walk.
    pub options: WalkOptions,
    /// Its seed.
    pub seed: u32,
    /// The goal, as it stands in single quotes for a shell.
    pub goal: Text,
}

impl fmt::Display for Again {
    ghost output = { λ again. Some (again_text again) };

    fn fmt<W: fmt::Write>(&self, f: &mut fmt::Formatter<W>) -> fmt::Result {
        let options = Options(&self.options);
        write!(
            f,
            "ct_tool walk --members {} --seed {}{options}--until '{}'",
            self.options.run.members,
            self.seed,
            self.goal.as_str()
        )
    }
}

// The options that are not the usual ones.
#[derive(Clone, Copy, Drop)]
struct Options<'a>(&'a WalkOptions);

impl fmt::Display for Options<'_> {
    ghost output = { λ options. Some (options_text options.0.now) };

    #[tactic(auto, unfolding(crate::specs::Texts::options_text))]
    fn fmt<W: fmt::Write>(&self, f: &mut fmt::Formatter<W>) -> fmt::Result {
        let options = self.0;
        let run = &options.run;
        write!(
            f,
            "{}{}{}{}{}{}{}{}{}{}{}{}{}{} ",
            Unusual("turns", run.turns, 1000),
            Unusual("rate", run.rate as u32, 64),
            Unusual("cells", run.cells as u32, 64),
            Unusual("submit", run.submit as u32, 8),
            Unusual("crash", run.crash as u32, 0),
            Unusual("postpone", run.postpone as u32, 0),
            Unusual("lose", run.lose as u32, 0),
            Unusual("repeat", run.repeat as u32, 0),
            Unusual("batch", run.batch, MAX_BOUND),
            Unusual("every", options.every, 0),
            Unusual("scatter", options.scatter as u32, 0),
            Unusual("lasting", options.lasting as u32, 0),
            Unusual("crashes", options.crashes as u32, 0),
            Unusual("cut", options.cuts as u32, 0)
        )
    }
}

// An option, its value, and its value where none is given.
#[derive(Clone, Copy, Drop)]
struct Unusual(&'static str, u32, u32);

impl fmt::Display for Unusual {
    ghost output = { λ option. Some (option_text option.0.now option.1 option.2) };

    #[tactic(auto, unfolding(crate::specs::Texts::option_text))]
    fn fmt<W: fmt::Write>(&self, f: &mut fmt::Formatter<W>) -> fmt::Result {
        let Unusual(name, value, usual) = *self;
        if value == usual {
            return Ok(());
        }
        write!(f, " --{name} {value}")
    }
}
