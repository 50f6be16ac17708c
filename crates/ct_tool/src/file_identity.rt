//! Which files have names.

use std::fs::{self, Metadata};
use std::os::unix::fs::MetadataExt;

// Which file it is: its device, and its number there.
#[derive(Clone, Copy, PartialEq, Eq)]
pub(crate) struct FileIdentity {
    device: u64,
    number: u64,
}

impl FileIdentity {
    // That of the file of this name; None for standard input, and where the machine doesn't tell.
    pub(crate) fn named(rt: &HostRuntime, name: &str) -> Option<FileIdentity> {
        if name == "-" {
            return None;
        }
        match fs::metadata(rt, name) {
            Ok(metadata) => Some(FileIdentity::of(&metadata)),
            Err(_) => None,
        }
    }

    pub(crate) fn of(metadata: &Metadata) -> FileIdentity {
        FileIdentity {
            device: metadata.dev(),
            number: metadata.ino(),
        }
    }
}
