//! The words after `find` that ask for the smallest run.

ghost use Rattle.std.specs.Prelude.{◌≡◌, ◌<◌, option_map, IfOk, IfSome};
ghost use Rattle.clap.specs.Words.{found_of, rows_of};
ghost use Rattle.ct_best.specs.Line.{best_options, best_or_none};

use crate::best::BestOptions;
use clap::ArgMatches;
use ct_shrink::shrink_options;
use ct_streams::{WordFault, number_for};

/// How the smallest run is asked for; None where it is not. Else the fault of the first option that asks for nothing.
pub fn best_options<'a>(found: &'a ArgMatches<'_>) -> Result<Option<BestOptions>, WordFault<'a>>
    ensures exact { result ≡ best_options (rows_of (found_of found.now)) }
    ensures some { IfOk result (λ best. IfSome best (λ best. 0 < best.count)) }
{
    best_or_none(found, found.get_str("best"))
}

fn best_or_none<'a>(
    found: &'a ArgMatches<'_>,
    text: Option<&'a str>,
) -> Result<Option<BestOptions>, WordFault<'a>>
    ensures exact { result ≡ best_or_none (rows_of (found_of found.now)) (option_map (λ text. text.now) text.entry) }
    ensures some { IfOk result (λ best. IfSome best (λ best. 0 < best.count)) }
{
    match text {
        None => Ok(None),
        Some(text) => {
            let count = number_for("best", text, 1, u32::MAX)?;
            let shrink = shrink_options(found)?;
            Ok(Some(BestOptions { count, shrink }))
        }
    }
}
