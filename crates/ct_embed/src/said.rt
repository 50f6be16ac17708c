//! What waits to be copied.

ghost use Rattle.std.specs.Prelude.{◌≡◌};
ghost use Rattle.ct_embed.specs.Telling.{said_bytes};

use std::alloc::Global;

// The answers to lines, or what was asked for in their place.
#[derive(Drop)]
pub(crate) enum Said {
    Answers(String),
    Shown(Vec<u8>),
}

impl Said {
    // Its bytes.
    pub(crate) fn bytes(&self) -> &[u8]
        ensures { result.now ≡ said_bytes self.now }
    {
        match self {
            Said::Answers(text) => text.as_bytes(),
            Said::Shown(bytes) => bytes,
        }
    }
}
