//! The arguments of command lines.

ghost use Rattle.std.specs.Prelude.{◌≡◌, ◌≤◌, false, IfOk, IfSome, option_map};
ghost use Rattle.clap.specs.Words.{app_of, found_of, new_app, rows_of, rule_of};
ghost use Rattle.ct_streams.specs.Arguments.{file_rule, files_rule, flag_rule, option_rule, required_rule, value_rule, whole_in};
ghost use Rattle.ct_streams.specs.Values.{is_set, is_true, number_for, option_in};

use crate::given::Given;
use crate::wanted::Wanted;
use crate::word_fault::WordFault;
use clap::{Arg, ArgAction, ArgMatches, Command};
use std::alloc::Global;

/// A subcommand that has no argument yet: its name, what it does, and what its help ends with.
pub fn subcommand<'a>(alloc: Global, name: &'a str, about: &'a str, after: &'a str) -> Command<'a>
    ensures { app_of result ≡ new_app name.entry.now }
{
    Command::new(alloc, name).about(about).after_help(after)
}

/// The argument `file` of a subcommand, which is `-` where none is given: standard input.
pub fn file_argument<'a>(alloc: Global, help: &'a str) -> Arg<'a>
    ensures rule { rule_of result ≡ file_rule }
    ensures local { result.global ≡ false }
{
    Arg::new(alloc, "file")
        .value_name("FILE")
        .action(ArgAction::Set)
        .default_value("-")
        .help(help)
}

/// The argument `files` of a subcommand: one file or several, of this kind.
pub fn files_argument<'a>(alloc: Global, kind: &'a str, help: &'a str) -> Arg<'a>
    ensures rule { rule_of result ≡ files_rule }
    ensures local { result.global ≡ false }
{
    Arg::new(alloc, "files")
        .value_name(kind)
        .action(ArgAction::Append)
        .required(true)
        .num_args(1..)
        .help(help)
}

/// An option with no value.
pub fn flag<'a>(alloc: Global, name: &'a str, help: &'a str) -> Arg<'a>
    ensures rule { rule_of result ≡ flag_rule name.entry.now }
    ensures local { result.global ≡ false }
{
    let option = Arg::new(alloc, name).long(name).help(help);
    option.action(ArgAction::SetTrue)
}

/// An option with a value, which need not be given.
pub fn value_option<'a>(alloc: Global, name: &'a str, help: &'a str) -> Arg<'a>
    ensures rule { rule_of result ≡ value_rule name.entry.now }
    ensures local { result.global ≡ false }
{
    let option = Arg::new(alloc, name).long(name).help(help);
    option.action(ArgAction::Set)
}

/// An option with a value, which is `default` where none is given.
pub fn default_option<'a>(alloc: Global, name: &'a str, default: &'a str, help: &'a str) -> Arg<'a>
    ensures rule { rule_of result ≡ option_rule name.entry.now default.entry.now }
    ensures local { result.global ≡ false }
{
    value_option(alloc, name, help).default_value(default)
}

/// An option with a value, which has to be given.
pub fn required_option<'a>(alloc: Global, name: &'a str, help: &'a str) -> Arg<'a>
    ensures rule { rule_of result ≡ required_rule name.entry.now }
    ensures local { result.global ≡ false }
{
    value_option(alloc, name, help).required(true)
}

/// Whether the option with no value is given.
pub fn is_set(found: &ArgMatches<'_>, name: &str) -> bool
    ensures { result ≡ is_set (rows_of (found_of found.now)) name.now }
{
    is_true(found.get_str(name))
}

// Whether the text of an option with no value says that it is given.
fn is_true(text: Option<&str>) -> bool
    ensures { result ≡ is_true (option_map (λ t. t.now) text.entry) }
{
    match text {
        Some(text) => text == "true",
        None => false,
    }
}

/// The option's value, a whole number from `low` to `high`.
pub fn option_in<'a>(
    found: &'a ArgMatches<'_>,
    name: &'a str,
    low: u32,
    high: u32,
) -> Result<u32, WordFault<'a>>
    ensures value { result ≡ option_in (rows_of (found_of found.now)) name.now low high }
    ensures range { IfOk result (λ n. (low ≤ n) × (n ≤ high)) }
{
    match found.get_str(name) {
        Some(text) => number_for(name, text, low, high),
        None => {
            let wanted = Wanted::Number { low, high };
            Err(WordFault::new(name, Given::Nothing, wanted))
        }
    }
}

/// What is given for the option, a whole number from `low` to `high`.
#[tactic(auto, unfolding(crate::specs::Values::number_for))]
pub fn number_for<'a>(
    name: &'a str,
    text: &'a str,
    low: u32,
    high: u32,
) -> Result<u32, WordFault<'a>>
    ensures value { result ≡ number_for name.now low high text.now }
    ensures range { IfOk result (λ n. (low ≤ n) × (n ≤ high)) }
{
    let wanted = match number_in(text, 0, u32::MAX) {
        Some(n) if low <= n && n <= high => return Ok(n),
        Some(_) => Wanted::Within { low, high },
        None => Wanted::Number { low, high },
    };
    Err(WordFault::new(name, Given::One(text), wanted))
}

/// The whole number of the text; None where it has none from `low` to `high`.
pub fn number_in(text: &str, low: u32, high: u32) -> Option<u32>
    ensures value { result ≡ whole_in low high text.now }
    ensures range { IfSome result (λ n. (low ≤ n) × (n ≤ high)) }
{
    match text.parse::<u32>() {
        Ok(n) if low <= n && n <= high => Some(n),
        _ => None,
    }
}
