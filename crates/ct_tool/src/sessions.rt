//! The commands that answer lines, and merge and judge logs.

use crate::clockwork::Clockwork;
use crate::ending::{close, done, refuse, written};
use crate::host::{Host, can_write};
use crate::told_files::ToldFiles;
use clap::ArgMatches;
use ct_enact::enact_logs;
use ct_judge::{Heard, KeepFault, LineRefused, interact, keep};
use ct_logs::{MergeFault, Told, Way, merge_form, merge_logs};
use ct_order::{order_asked, order_logs};
use ct_streams::{Counted, FileFault, NamedFault, idle_in};
use std::io;
use std::process::ExitCode;

// Answers the lines on standard input, and keeps the record in the end, where a file is named for it. One that can't be written
// is told of before the first answer.
pub(crate) fn hold_session(rt: &HostRuntime, found: &ArgMatches<'_>) -> Result<(), ExitCode> {
    let file = found.get_str("record");
    if let Some(name) = file
        && !can_write(rt, name)
    {
        return Err(refuse_to_write(rt, name));
    }
    let mut reader = Counted::new(rt.reader());
    let mut writer = Counted::new(io::writer(rt));
    let ended = interact(rt.alloc(), &mut reader, &mut writer);
    match written(rt, ended, writer.is_broken())? {
        Some(heard) => end_session(rt, heard, file, found.get_flag("strict")),
        None => Ok(()),
    }
}

// Keeps the record, where a file is named for it, and tells of a line that was refused, where each has to be taken.
fn end_session(
    rt: &HostRuntime,
    heard: Heard,
    file: Option<&str>,
    strict: bool,
) -> Result<(), ExitCode> {
    let Heard { judge, refused } = heard;
    if let Some(name) = file {
        match keep(rt.alloc(), judge, &mut Host::new(rt), name) {
            Err(KeepFault::Write) => return Err(refuse_to_write(rt, name)),
            ended => done(rt, ended)?,
        }
    }
    if strict && refused {
        return Err(refuse(rt, LineRefused));
    }
    Ok(())
}

// Tells of a file that can't be written.
fn refuse_to_write(rt: &HostRuntime, name: &str) -> ExitCode {
    let fault = FileFault::Write;
    refuse(rt, NamedFault { name, fault })
}

// Writes the run of the logs that the words name, and tells what it shows.
pub(crate) fn merge(rt: &HostRuntime, found: &ArgMatches<'_>) -> Result<(), ExitCode> {
    let names = found.get_strs("files").unwrap_or(&[]);
    let form = merge_form(found);
    let (alloc, host) = (rt.alloc(), Host::new(rt));
    let mut writer = Counted::new(io::writer(rt));
    let way = match pace(rt, found, names)? {
        Some(pace) => Way::Follow(pace),
        None if found.get_flag("presume") => Way::Presume,
        None => Way::Once,
    };
    let ended = merge_logs(alloc, &host, names, form, way, &mut writer);
    end_merge(rt, ended, writer.is_broken())
}

// What follows the logs in the files of these names, where the words ask for that.
fn pace<'a>(
    rt: &'a HostRuntime,
    found: &ArgMatches<'_>,
    names: &[&str],
) -> Result<Option<Clockwork<'a>>, ExitCode> {
    let idle = done(rt, idle_in(found))?;
    if !found.get_flag("follow") {
        return Ok(None);
    }
    match Clockwork::new(rt, idle, names) {
        Ok(pace) => Ok(Some(pace)),
        Err(_) => Err(refuse(rt, MergeFault::Memory)),
    }
}

// Tells what a merged run shows, or why none is written.
fn end_merge(
    rt: &HostRuntime,
    ended: Result<Told, MergeFault>,
    is_broken: bool,
) -> Result<(), ExitCode> {
    let Some(told) = written(rt, ended, is_broken)? else {
        return Ok(());
    };
    let status = told.status();
    let Told { text, .. } = told;
    Err(close(rt, text, status))
}

// Judges the logs of any atomic broadcast that the words name.
pub(crate) fn order(rt: &HostRuntime, found: &ArgMatches<'_>) -> Result<(), ExitCode> {
    let names = found.get_strs("files").unwrap_or(&[]);
    let pace = pace(rt, found, names)?;
    let asked = order_asked(found);
    let (alloc, mut files) = (rt.alloc(), ToldFiles::new(rt));
    let mut writer = Counted::new(io::writer(rt));
    if found.get_flag("schedule") {
        let ended = enact_logs(alloc, &files, names, asked, pace, &mut writer);
        files.clear();
        written(rt, ended, writer.is_broken())?;
    } else {
        let ended = order_logs(alloc, &files, names, asked, pace, &mut writer);
        files.clear();
        written(rt, ended, writer.is_broken())?;
    }
    Ok(())
}
