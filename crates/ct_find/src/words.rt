//! The words after `find` on a command line.

ghost use Rattle.std.specs.Prelude.{◌≡◌, ◌<◌, false, map, option_map, Ok, IfOk, IfErr, IfSome};
ghost use Rattle.clap.specs.Words.{app_of, found_of, rows_of, rule_of};
ghost use Rattle.ct_walk.specs.Line.{IsCallFault};
ghost use Rattle.ct_find.specs.Line.{asking_rule, best_rule, count_form, find_app, find_call};
ghost use Rattle.ct_find.specs.Line.{form_of, goal_rule, jobs_in, jobs_or_none, jobs_rule, seeds_rule, text_in, text_or_line};
ghost use Rattle.ct_find.specs.Line.{tries_rule, with_best_rules, IsFindInRange};

use crate::call::FindCall;
use crate::count_text::CountForm;
use crate::searching::MAX_JOBS;
use clap::{Arg, ArgMatches, Command};
use ct_grammar::Text;
use ct_streams::{
    Given, Wanted, WordFault, default_option, flag, is_set, number_for, required_option,
    subcommand, value_option,
};
use ct_walk::{CallFault, group_goal, joined, search_options, seeds_in, with_search_options};
use std::alloc::{AllocError, Global};

// What stands after the options.
const AFTER: &str = "Goals, each in quotes for the shell; a term behind `and` has to hold, too:
  any round >= 4                 of whom, and what; of any, all, up, 2 or 1,3
  all decided 1                  the decision of instance 1
  up delivered count >= 2        so many messages of each that has not crashed
  any refuses choose NotLargest  what is not allowed
  any crashed and all idle       the facts of a schedule's line `expect`
  ever any suspects up           at the end of some beginning of the run
  never 2 crashed                at the end of none
docs/GOALS.md has them all.

While it runs a line on a terminal tells how many seeds were tried; --seeds can
go on behind the last one.

Examples:
  ct_tool find --members 5 --goal 'any round >= 4' --seeds 1..100000 > run.json
  ct_tool find --members 3 --crash 2 --goal 'up decided 2' --seeds 0..9 --jobs 2
  ct_tool find --members 3 --goal 'any round >= 4' --seeds 1..1000 --count
  ct_tool find --members 3 --goal 'any round >= 4' --seeds 1..1000 --best 9

Status:
  0  a run was written, or the count, where a walk shows the goal
  1  no walk shows the goal
  3  the words of the command line are refused
  4  a write of standard output failed
  5  memory was refused";

// What has to stand after `--goal`.
const GOAL: &str = "a goal, as any round >= 4";

/// What the options of `find` ask for; else the fault of the first one, in the order of the definition, that asks for nothing.
#[tactic(auto, unfolding(crate::specs::Line::find_call))]
pub fn find_call<'a>(alloc: Global, found: &'a ArgMatches<'_>) -> Result<FindCall, CallFault<'a>>
    ensures ok { IfOk result (λ call. find_call (rows_of (found_of found.now)) ≡ Ok call) }
    ensures range { IfOk result IsFindInRange }
    ensures err { IfErr result (IsCallFault (find_call (rows_of (found_of found.now)))) }
{
    let options = search_options(found)?;
    let text = text_in(alloc, found)?;
    let goal = group_goal(alloc, options.run.members, "goal", text.as_str())?;
    let seeds = seeds_in(found)?;
    let jobs = jobs_in(found)?;
    Ok(FindCall {
        options,
        goal,
        text,
        seeds,
        jobs,
    })
}

// The words that are given for `goal`.
fn text_in<'a>(alloc: Global, found: &'a ArgMatches<'_>) -> Result<Text, CallFault<'a>>
    ensures ok { IfOk result (λ text. text_in (rows_of (found_of found.now)) ≡ Ok text) }
    ensures err { IfErr result (IsCallFault (text_in (rows_of (found_of found.now)))) }
{
    text_or_line(alloc, found.get_strs("goal"))
}

fn text_or_line<'a>(alloc: Global, words: Option<&[&'a str]>) -> Result<Text, CallFault<'a>>
    ensures ok { IfOk result (λ text. text_or_line (option_map (λ words. map (λ word. word.now) words.now) words.entry) ≡ Ok text) }
    ensures err { IfErr result (IsCallFault (text_or_line (option_map (λ words. map (λ word. word.now) words.now) words.entry))) }
{
    match words {
        Some(words) => Ok(Text::new(joined(alloc, words)?)),
        None => {
            let fault = WordFault::new("goal", Given::Nothing, Wanted::Words(GOAL));
            Err(CallFault::Word(fault))
        }
    }
}

// How many threads are asked for, where that is given.
fn jobs_in<'a>(found: &'a ArgMatches<'_>) -> Result<Option<u8>, WordFault<'a>>
    ensures exact { result ≡ jobs_in (rows_of (found_of found.now)) }
    ensures range { IfOk result (λ jobs. IfSome jobs (λ n. 0 < n)) }
{
    jobs_or_none(found.get_str("jobs"))
}

fn jobs_or_none<'a>(text: Option<&'a str>) -> Result<Option<u8>, WordFault<'a>>
    ensures exact { result ≡ jobs_or_none (option_map (λ text. text.now) text.entry) }
    ensures range { IfOk result (λ jobs. IfSome jobs (λ n. 0 < n)) }
{
    match text {
        None => Ok(None),
        Some(text) => {
            let jobs = number_for("jobs", text, 1, u32::from(MAX_JOBS))?;
            Ok(Some(jobs as u8))
        }
    }
}

/// The subcommand `find`.
pub fn find_command<'a>(alloc: Global) -> Result<Command<'a>, AllocError>
    ensures { IfOk result (λ command. app_of command ≡ find_app) }
{
    let command = subcommand(
        alloc,
        "find",
        concat!(
            "Makes the walks of many seeds in threads, and writes the record of\n",
            "the first seed's walk that shows the goal, or counts them, or\n",
            "writes the smallest run that is left of several of them",
        ),
        AFTER,
    );
    let command = with_search_options(alloc, command)?
        .arg(goal_arg(alloc))?
        .arg(seeds_arg(alloc))?
        .arg(jobs_arg(alloc))?
        .arg(flag(alloc, "quiet", "Tells nothing while it runs"))?
        .arg(flag(
            alloc,
            "count",
            "Tries all the seeds, and writes how many of their\nwalks show the goal and how far those go, in place\nof a record",
        ))?
        .arg(asking_flag(
            alloc,
            "json",
            "count",
            "Writes the count as a JSON object, in place of a\ntable",
        )?)?;
    with_best_options(alloc, command)
}

// The command, and after its arguments those of the smallest run.
fn with_best_options<'a>(alloc: Global, command: Command<'a>) -> Result<Command<'a>, AllocError>
    ensures { IfOk result (λ longer. app_of longer ≡ with_best_rules (app_of command.entry)) }
{
    command
        .arg(best_arg(alloc)?)?
        .arg(tries_arg(alloc)?)?
        .arg(asking_flag(
            alloc,
            "record",
            "best",
            "Writes the smallest run as a record, in place of a\nschedule",
        )?)
}

fn goal_arg<'a>(alloc: Global) -> Arg<'a>
    ensures rule { rule_of result ≡ goal_rule }
    ensures local { result.global ≡ false }
{
    required_option(
        alloc,
        "goal",
        "What the walk has to show, as 'any round >= 4 and\nnever 2 crashed'; it stops once it shows it",
    )
    .num_args(1..)
    .value_name("GOAL")
}

fn seeds_arg<'a>(alloc: Global) -> Arg<'a>
    ensures rule { rule_of result ≡ seeds_rule }
    ensures local { result.global ≡ false }
{
    required_option(
        alloc,
        "seeds",
        "The seeds that are tried, from A to B, both of them\ntoo: 0 to 4294967295",
    )
    .value_name("A..B")
}

fn jobs_arg<'a>(alloc: Global) -> Arg<'a>
    ensures rule { rule_of result ≡ jobs_rule }
    ensures local { result.global ≡ false }
{
    value_option(
        alloc,
        "jobs",
        "How many threads there are, 1 to 64; without it\nfour for each processor",
    )
    .value_name("N")
}

fn best_arg<'a>(alloc: Global) -> Result<Arg<'a>, AllocError>
    ensures rule { IfOk result (λ best. rule_of best ≡ best_rule) }
    ensures local { IfOk result (λ best. best.global ≡ false) }
{
    value_option(
        alloc,
        "best",
        concat!(
            "Makes the walks of the first K seeds that show the\n",
            "goal smaller, as `ct_tool shrink` does, and writes\n",
            "the smallest run: 1 or more",
        ),
    )
    .value_name("K")
    .conflicts_with("count")
}

fn tries_arg<'a>(alloc: Global) -> Result<Arg<'a>, AllocError>
    ensures rule { IfOk result (λ tries. rule_of tries ≡ tries_rule) }
    ensures local { IfOk result (λ tries. tries.global ≡ false) }
{
    default_option(
        alloc,
        "tries",
        "10000",
        "How many trials are made at most for each of them,\n1 to 1000000",
    )
    .value_name("N")
    .requires_arg("best")
}

// An option with no value, which asks for another one beside it.
fn asking_flag<'a>(
    alloc: Global,
    name: &'a str,
    needed: &'a str,
    help: &'a str,
) -> Result<Arg<'a>, AllocError>
    ensures rule { IfOk result (λ option. rule_of option ≡ asking_rule name.entry.now) }
    ensures local { IfOk result (λ option. option.global ≡ false) }
{
    flag(alloc, name, help).requires_arg(needed)
}

/// As what a count of the seeds is asked for; None where the record of a walk is.
pub fn count_form(found: &ArgMatches<'_>) -> Option<CountForm>
    ensures { result ≡ count_form (rows_of (found_of found.now)) }
{
    form_of(is_set(found, "count"), is_set(found, "json"))
}

fn form_of(count: bool, json: bool) -> Option<CountForm>
    ensures { result ≡ form_of count json }
{
    match (count, json) {
        (true, true) => Some(CountForm::Json),
        (true, false) => Some(CountForm::Table),
        (false, _) => None,
    }
}
