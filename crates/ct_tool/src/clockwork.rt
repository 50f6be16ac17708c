//! How long logs are followed.

use crate::file_identity::FileIdentity;
use ct_streams::{FileChange, Pace};
use std::alloc::AllocError;
use std::io::ErrorKind;
use std::time::{Duration, Instant};
use std::{fs, thread};

// How long a look at logs waits that found nothing new.
const WAIT_MILLIS: u64 = 50;

// Follows logs until no line came for so many seconds, or until the program is ended.
#[derive(Drop)]
pub(crate) struct Clockwork<'a> {
    rt: &'a HostRuntime,
    // None: until the program is ended.
    idle: Option<u32>,
    // When the last line came, or it was first asked.
    since: Option<Instant>,
    // Which files had the names of logs before these were opened.
    files: Vec<Option<FileIdentity>>,
}

impl<'a> Clockwork<'a> {
    // For logs in the files of these names, which are opened later.
    pub(crate) fn new(
        rt: &'a HostRuntime,
        idle: Option<u32>,
        names: &[&str],
    ) -> Result<Clockwork<'a>, AllocError> {
        let mut files = Vec::new(rt.alloc());
        for name in names {
            files.push(FileIdentity::named(rt, name))?;
        }
        Ok(Clockwork {
            rt,
            idle,
            since: Instant::now(rt).ok(),
            files,
        })
    }

    // Whether no line came for as long as there may be none. Without a clock it is over at once.
    fn is_over(&self) -> bool {
        let Some(idle) = self.idle else {
            return false;
        };
        match &self.since {
            Some(since) => match since.elapsed(self.rt) {
                Ok(elapsed) => elapsed.as_secs() >= u64::from(idle),
                Err(_) => true,
            },
            None => true,
        }
    }
}

impl Pace for Clockwork<'_> {
    fn goes_on(&mut self, bytes: usize, lines: usize) -> bool {
        if lines > 0 {
            self.since = Instant::now(self.rt).ok();
            return true;
        }
        if self.is_over() {
            return false;
        }
        if bytes == 0 {
            thread::sleep(self.rt, Duration::from_millis(WAIT_MILLIS));
        }
        true
    }

    fn change(&self, place: usize, name: &str, bytes: usize) -> Option<FileChange> {
        let first = self.files.get(place).copied()??;
        match fs::metadata(self.rt, name) {
            Ok(metadata) if FileIdentity::of(&metadata) != first => Some(FileChange::Replaced),
            Ok(metadata) if metadata.is_file() && metadata.len() < bytes as u64 => {
                Some(FileChange::Shorter)
            }
            Err(error) if error.kind() == ErrorKind::NotFound => Some(FileChange::Removed),
            _ => None,
        }
    }
}
