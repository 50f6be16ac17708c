//! A source, and the first bytes that were read of it.

use ct_streams::{Failed, Source};
use std::alloc::Global;

// How many bytes are kept at most.
const MOST: usize = 65_536;

// A source, and the first bytes that were read of it.
#[derive(Drop)]
pub(crate) struct Front<R> {
    source: R,
    bytes: Vec<u8>,
    is_cut: bool,
}

impl<R> Front<R> {
    ghost use Rattle.std.specs.Prelude.{◌≡◌};

    // Nothing was read yet.
    pub(crate) fn new(alloc: Global, source: R) -> Front<R>
        ensures { result.source ≡ source }
    {
        Front {
            source,
            bytes: Vec::new(alloc),
            is_cut: false,
        }
    }

    // The first bytes that were read.
    pub(crate) fn bytes(&self) -> &[u8] {
        &self.bytes
    }

    // Whether more was read than they.
    pub(crate) fn is_cut(&self) -> bool {
        self.is_cut
    }
}

impl<R: Source> Source for Front<R> {
    ghost left = { λ front. R.left front.source };

    ghost failures = { λ front. R.failures front.source };

    fn read(&mut self, buffer: &mut [u8]) -> Result<usize, Failed> {
        let n = self.source.read(buffer)?;
        self.is_cut = self.is_cut || !keep(&mut self.bytes, &buffer[..n]);
        Ok(n)
    }
}

// Keeps these too, if there is room for them; and whether there is.
fn keep(bytes: &mut Vec<u8>, more: &[u8]) -> bool {
    more.len() <= MOST - bytes.len().min(MOST) && bytes.extend_from_slice(more).is_ok()
}
