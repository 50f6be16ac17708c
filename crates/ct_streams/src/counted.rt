//! Streams whose failures are counted.

use crate::failed::Failed;
use crate::sink::Sink;
use crate::source::Source;
use std::io::{ErrorKind, Read, Write};

/// A reader or a writer of std, and how often it failed. A write that takes none of some bytes is a failure.
#[derive(Drop)]
pub struct Counted<T> {
    stream: T,
    failures: u64,
    // The last failure was a write into a pipe that nobody reads.
    broken: bool,
}

impl<T> Counted<T> {
    ghost use Rattle.std.specs.Prelude.{◌≡◌, false, nat_lt};
    ghost use Rattle.ct_streams.specs.Counted.{stream_of, failures_of, broken_of};

    /// The stream, which has not failed yet.
    pub fn new(stream: T) -> Counted<T>
        ensures stream { stream_of result ≡ stream }
        ensures none { failures_of result ≡ 0 }
        ensures unbroken { broken_of result ≡ false }
    {
        Counted {
            stream,
            failures: 0,
            broken: false,
        }
    }

    /// Whether it failed.
    pub fn has_failed(&self) -> bool
        ensures { result ≡ nat_lt 0 (failures_of self.now) }
    {
        self.failures > 0
    }

    /// Whether the last failure was a write into a pipe that nobody reads.
    pub fn is_broken(&self) -> bool
        ensures { result ≡ broken_of self.now }
    {
        self.broken
    }

    /// The stream alone.
    pub fn into_inner(self) -> T
        ensures { result ≡ stream_of self }
    {
        self.stream
    }
}

impl<R: Read> Source for Counted<R> {
    ghost use Rattle.ct_streams.specs.Counted.{stream_of, failures_of};

    ghost left = { λ s. R.remaining (stream_of s) };

    ghost failures = { λ s. failures_of s };

    fn read(&mut self, buffer: &mut [u8]) -> Result<usize, Failed> {
        match self.stream.read(buffer) {
            Ok(n) => Ok(n),
            Err(_) => {
                self.failures += 1;
                Err(Failed)
            }
        }
    }
}

impl<W: Write> Sink for Counted<W> {
    ghost use Rattle.ct_streams.specs.Counted.{stream_of, failures_of};

    ghost written = { λ s. W.contents (stream_of s) };

    ghost failures = { λ s. failures_of s };

    fn write(&mut self, bytes: &[u8]) -> Result<usize, Failed> {
        match self.stream.write(bytes) {
            Ok(n) if n > 0 || bytes.is_empty() => Ok(n),
            Ok(_) => {
                self.failures += 1;
                Err(Failed)
            }
            Err(error) => {
                self.failures += 1;
                self.broken = error.kind() == ErrorKind::BrokenPipe;
                Err(Failed)
            }
        }
    }
}
