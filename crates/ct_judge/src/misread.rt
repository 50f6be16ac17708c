//! Bytes that are no line.

ghost use Rattle.std.specs.Prelude.{◌≡◌, OnOk, codes};
ghost use Rattle.ct_text.specs.Adds.{Adds};
ghost use Rattle.ct_grammar.specs.Misfits.{misfit_text};
ghost use Rattle.ct_judging.specs.Reading.{misread_text};
ghost use Rattle.ct_judging.specs.Wording.{behind};

use ct_grammar::Misfit;
use ct_judging::Misread;
use std::alloc::AllocError;

// Puts behind the text what is told of them.
pub(crate) fn push_misread(text: &mut String, misread: &Misread) -> Result<(), AllocError>
    ensures { OnOk result (Adds text.old text.new (misread_text misread.now)) }
{
    match misread {
        Misread::NoText => text.push_str("no UTF-8"),
        Misread::Record => text.push_str(
            "not understood: this is a record, which ct_tool check judges",
        ),
        Misread::TooLong => text.push_str("not understood: more than 4096 bytes"),
        Misread::NoLine(misfit) => push_misfit(text, "not understood: ", misfit),
    }
}

#[tactic(auto, unfolding(ct_judging::specs::Wording::behind))]
fn push_misfit(text: &mut String, words: &str, misfit: &Misfit) -> Result<(), AllocError>
    ensures { OnOk result (Adds text.old text.new (behind words.now (misfit_text misfit.now))) }
{
    text.push_str(words)?;
    misfit.push_onto(text)
}
