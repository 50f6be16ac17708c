//! A shrinker as its caller holds it.

ghost use Rattle.std.specs.Prelude.{◌≡◌, Some, None, option_map, is_some, true};
ghost use Rattle.ct_embed.specs.Content.{a_shrinker, shrinker_of};

use crate::handle::Handle;
use crate::parts::Parts;
use ct_shrink::Shrinker;
use std::alloc::Global;

/// A shrinker, as its caller holds it: zeros before it is opened and once it is closed.
#[repr(C)]
#[derive(Drop)]
pub struct HeldShrinker {
    pub handle: Handle,
    pub is_open: bool,
    pub ghost same: { is_open ≡ is_some (shrinker_of handle.content) },
}

impl HeldShrinker {
    // Takes the shrinker out, and leaves nothing.
    pub(crate) fn take(&mut self, alloc: Global) -> Option<Box<Shrinker>>
        ensures was { option_map (λ own. own.value) result ≡ shrinker_of self.old.handle.content }
        ensures is { shrinker_of self.new.handle.content ≡ None }
    {
        if !self.is_open {
            return None;
        }
        let handle = std::mem::replace(&mut self.handle, Handle::none(alloc));
        self.is_open = false;
        Some(handle.into_shrinker().into_box())
    }

    // Puts one in.
    pub(crate) fn put(&mut self, own: Box<Shrinker>)
        ensures { shrinker_of self.new.handle.content ≡ Some own.value }
    {
        self.handle = Handle::of_shrinker(Parts::of(own));
        self.is_open = true;
    }
}

impl Handle {
    // Holds what the parts own.
    fn of_shrinker(own: Parts<Shrinker, Global>) -> Handle
        ensures { result.content ≡ a_shrinker own.value }
    {
        let Parts { ptr, alloc } = own;
        Handle {
            at: ptr as *mut u8,
            alloc,
        }
    }

    // Gives the shrinker up.
    fn into_shrinker(self) -> Parts<Shrinker, Global>
        requires { is_some (shrinker_of self.content) ≡ true }
        ensures { self.content ≡ a_shrinker result.value }
    {
        let Handle { at, alloc } = self;
        Parts {
            ptr: at as *mut Shrinker,
            alloc,
        }
    }
}
