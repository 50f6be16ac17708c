//! The options of commands that follow files.

ghost use Rattle.std.specs.Prelude.{◌≡◌, false, IfOk, option_map};
ghost use Rattle.clap.specs.Words.{found_of, rows_of, rule_of};
ghost use Rattle.ct_streams.specs.Following.{idle_in, idle_or_none, idle_rule, seconds_rule};

use crate::arguments::{number_for, value_option};
use crate::word_fault::WordFault;
use clap::{Arg, ArgMatches};
use std::alloc::{AllocError, Global};

/// For how many seconds files may be followed at most without a line.
pub const MAX_IDLE: u32 = 86_400;

/// The option `idle`, which asks for `follow` beside it: after how long a while without a line files are taken to be over.
pub fn idle_option<'a>(alloc: Global, help: &'a str) -> Result<Arg<'a>, AllocError>
    ensures rule { IfOk result (λ idle. rule_of idle ≡ idle_rule) }
    ensures local { IfOk result (λ idle. idle.global ≡ false) }
{
    seconds(alloc, help).requires_arg("follow")
}

fn seconds<'a>(alloc: Global, help: &'a str) -> Arg<'a>
    ensures rule { rule_of result ≡ seconds_rule }
    ensures local { result.global ≡ false }
{
    value_option(alloc, "idle", help).value_name("S")
}

/// After how many seconds without a line files that are followed are over, where that is given.
pub fn idle_in<'a>(found: &'a ArgMatches<'_>) -> Result<Option<u32>, WordFault<'a>>
    ensures { result ≡ idle_in (rows_of (found_of found.now)) }
{
    idle_or_none(found.get_str("idle"))
}

fn idle_or_none<'a>(text: Option<&'a str>) -> Result<Option<u32>, WordFault<'a>>
    ensures { result ≡ idle_or_none (option_map (λ text. text.now) text.entry) }
{
    match text {
        None => Ok(None),
        Some(text) => Ok(Some(number_for("idle", text, 1, MAX_IDLE)?)),
    }
}
