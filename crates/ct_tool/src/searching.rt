//! The commands that make walks.

ghost use Rattle.std.specs.Prelude.{◌<◌};
ghost use Rattle.ct_find.specs.Line.{IsFindInRange};

use crate::ending::{done, miss, refuse, searched, written};
use crate::meter::Meter;
use crate::trials::Trials;
use clap::ArgMatches;
use ct_best::{BestOptions, best_options, write_best};
use ct_find::{CountForm, FindCall, FindFault, count_form, find_call, write_count, write_found};
use ct_streams::Counted;
use ct_walk::{start_shows, walk_call, write_walk};
use std::io;
use std::process::ExitCode;
use std::thread::Threads;

// Writes the record of one walk.
pub(crate) fn walk(rt: &HostRuntime, found: &ArgMatches<'_>) -> Result<(), ExitCode> {
    let call = match walk_call(rt.alloc(), found) {
        Ok(call) => call,
        Err(fault) => return Err(refuse(rt, fault)),
    };
    let alloc = rt.alloc();
    let (options, until) = (&call.options, call.until.as_ref());
    let starts = done(rt, start_shows(alloc, options, until))?;
    let mut writer = Counted::new(io::writer(rt));
    let ended = write_walk(alloc, options, until, &mut writer);
    let _ = searched(rt, ended, writer.is_broken(), starts)?;
    Ok(())
}

// Counts the seeds whose walks show the goal, or writes the smallest run that is left of several, where the words ask for that; else
// writes the record of the first one's walk.
pub(crate) fn find<R: Threads + Sync>(
    rt: &HostRuntime,
    threads: &R,
    found: &ArgMatches<'_>,
) -> Result<(), ExitCode> {
    let call = match find_call(rt.alloc(), found) {
        Ok(call) => call,
        Err(fault) => return Err(refuse(rt, fault)),
    };
    let best = match best_options(found) {
        Ok(best) => best,
        Err(fault) => return Err(refuse(rt, fault)),
    };
    let quiet = found.get_flag("quiet");
    let starts = done(rt, start_shows(rt.alloc(), &call.options, Some(&call.goal)))?;
    let mut meter = Meter::new(rt, call.seeds, quiet);
    match (count_form(found), best) {
        (Some(form), _) => count_found(rt, threads, call, form, &mut meter, starts),
        (None, Some(best)) => find_best(rt, threads, call, &best, &mut meter, quiet, starts),
        (None, None) => find_first(rt, threads, call, &mut meter, starts),
    }
}

// Writes the record of the walk that is looked for, and tells of its seed and the words that make it again.
fn find_first<R: Threads + Sync>(
    rt: &HostRuntime,
    threads: &R,
    call: FindCall,
    meter: &mut Meter<'_>,
    starts: bool,
) -> Result<(), ExitCode>
    requires range { IsFindInRange call }
{
    let mut writer = Counted::new(io::writer(rt));
    let ended = write_found(threads, rt.alloc(), call, &mut writer, meter);
    meter.clear();
    if let Some(found) = searched(rt, ended, writer.is_broken(), starts)? {
        let _ = eprintln!(rt; "{}\n{}", found.seed, found.again);
    }
    Ok(())
}

// Writes the smallest run that is left of several walks, and tells of each, of the smallest, and the words that make its walk again.
fn find_best<R: Threads + Sync>(
    rt: &HostRuntime,
    threads: &R,
    call: FindCall,
    best: &BestOptions,
    meter: &mut Meter<'_>,
    quiet: bool,
    starts: bool,
) -> Result<(), ExitCode>
    requires range { IsFindInRange call }
    requires some { 0 < best.now.count }
{
    let mut trials = Trials::new(rt, quiet, false);
    let mut writer = Counted::new(io::writer(rt));
    let alloc = rt.alloc();
    let ended = write_best(threads, alloc, call, best, &mut writer, meter, &mut trials);
    meter.clear();
    trials.clear();
    if let Some(told) = searched(rt, ended, writer.is_broken(), starts)? {
        for walk in &told.walks {
            let _ = eprintln!(rt; "{walk}");
        }
        let _ = eprintln!(rt; "{told}\n{}", told.again);
    }
    Ok(())
}

// Writes the count of the seeds, and tells of it where no walk shows the goal.
fn count_found<R: Threads + Sync>(
    rt: &HostRuntime,
    threads: &R,
    call: FindCall,
    form: CountForm,
    meter: &mut Meter<'_>,
    starts: bool,
) -> Result<(), ExitCode>
    requires range { IsFindInRange call }
{
    let mut writer = Counted::new(io::writer(rt));
    let ended = write_count(threads, rt.alloc(), call, form, &mut writer, meter);
    meter.clear();
    match written(rt, ended, writer.is_broken())? {
        Some(Some(none)) => Err(miss(rt, FindFault::NotFound(none), starts)),
        _ => Ok(()),
    }
}
