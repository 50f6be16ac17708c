//! The commands over the file that their words name.

use crate::ending::done;
use crate::named_file::NamedFile;
use crate::trials::Trials;
use clap::ArgMatches;
use ct_complete::{CompleteFault, write_completed, write_obstacle};
use ct_diagram::{diagram_window, draw};
use ct_judge::{record, record_partial};
use ct_listing::write_schedule;
use ct_shrink::{ShrinkFault, shrink_options, write_smaller};
use ct_streams::{Counted, WordFault};
use ct_views::{View, show};
use ct_walk::given_goal;
use std::io;
use std::process::ExitCode;

// Writes what is shown of a record, where the words ask for a view.
pub(crate) fn view(
    rt: &HostRuntime,
    found: &ArgMatches<'_>,
    view: Result<View, WordFault<'_>>,
) -> Result<(), ExitCode> {
    let view = done(rt, view)?;
    let mut file = NamedFile::open(rt, found)?;
    let mut writer = Counted::new(io::writer(rt));
    let ended = show(rt.alloc(), &mut file.reader, &mut writer, &view);
    file.written(rt, ended, writer.is_broken())?;
    Ok(())
}

// Draws the steps of a record that the words ask for.
pub(crate) fn diagram(rt: &HostRuntime, found: &ArgMatches<'_>) -> Result<(), ExitCode> {
    let window = done(rt, diagram_window(found))?;
    let mut file = NamedFile::open(rt, found)?;
    let mut writer = Counted::new(io::writer(rt));
    let ended = draw(rt.alloc(), &mut file.reader, &mut writer, &window);
    file.written(rt, ended, writer.is_broken())?;
    Ok(())
}

// Writes the schedule of a record.
pub(crate) fn schedule(rt: &HostRuntime, found: &ArgMatches<'_>) -> Result<(), ExitCode> {
    let mut file = NamedFile::open(rt, found)?;
    let mut writer = Counted::new(io::writer(rt));
    let ended = write_schedule(rt.alloc(), &mut file.reader, &mut writer);
    file.written(rt, ended, writer.is_broken())?;
    Ok(())
}

// Writes a record that goes on until all is done, and at wish as JSON what stands in the way.
pub(crate) fn complete(rt: &HostRuntime, found: &ArgMatches<'_>) -> Result<(), ExitCode> {
    let mut file = NamedFile::open(rt, found)?;
    let mut writer = Counted::new(io::writer(rt));
    let ended = write_completed(rt.alloc(), &mut file.reader, &mut writer);
    if let Err(CompleteFault::Hindered(obstacle)) = &ended
        && found.get_flag("json")
    {
        let told = write_obstacle(rt.alloc(), &mut writer, obstacle);
        file.written(rt, told, writer.is_broken())?;
    }
    file.written(rt, ended, writer.is_broken())?;
    Ok(())
}

// Writes the record of a schedule.
pub(crate) fn record_schedule(rt: &HostRuntime, found: &ArgMatches<'_>) -> Result<(), ExitCode> {
    let mut file = NamedFile::open(rt, found)?;
    let mut writer = Counted::new(io::writer(rt));
    let ended = if found.get_flag("partial") {
        record_partial(rt.alloc(), &mut file.reader, &mut writer)
    } else {
        record(rt.alloc(), &mut file.reader, &mut writer)
    };
    file.written(rt, ended, writer.is_broken())?;
    Ok(())
}

// Writes a smaller run of a record, and tells how small it is.
pub(crate) fn shrink(rt: &HostRuntime, found: &ArgMatches<'_>) -> Result<(), ExitCode> {
    let (alloc, quiet) = (rt.alloc(), found.get_flag("quiet"));
    let options = done(rt, shrink_options(found))?;
    let text = found.get_str("goal").unwrap_or("");
    let goal = done(rt, given_goal(alloc, "goal", text))?;
    let mut file = NamedFile::open(rt, found)?;
    let mut writer = Counted::new(io::writer(rt));
    let mut trials = Trials::new(rt, quiet, true);
    let reader = &mut file.reader;
    let ended = write_smaller(alloc, reader, &mut writer, &goal, &options, &mut trials);
    trials.clear();
    if let Err(ShrinkFault::NoMember { .. }) = &ended {
        let _ = eprint!(rt; "--goal {text}: ");
    }
    if let Some(summary) = file.written(rt, ended, writer.is_broken())?
        && !quiet
    {
        let _ = eprintln!(rt; "{summary}");
    }
    Ok(())
}
