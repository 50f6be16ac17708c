//! A box, as C holds it.

ghost use Rattle.std.specs.Prelude.{◌≡◌};
ghost use Rattle.ct_embed.specs.Content.{Content, nothing};

use std::alloc::Global;
use std::marker::Model;

/// A world, a session, a walk or a shrinker in a box, or nothing. It takes as much room as a pointer.
#[repr(C)]
#[derive(Drop)]
pub struct Handle {
    pub(crate) at: *mut u8,
    pub(crate) alloc: Global,
    pub ghost content: { Content },
}

impl Model for Handle {
    ghost use Rattle.ct_embed.specs.Content.{Content};
    ghost use Rattle.ct_embed.specs.Owned.{owned};

    ghost also_owns = { λ h. owned h.content h.alloc h.at };
}

impl Handle {
    // Holds nothing.
    pub(crate) fn none(alloc: Global) -> Handle
        ensures { result.content ≡ nothing }
    {
        Handle {
            at: std::ptr::null_mut(),
            alloc,
        }
    }
}
