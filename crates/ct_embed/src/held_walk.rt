//! A walk as its caller holds it.

ghost use Rattle.std.specs.Prelude.{◌≡◌, Some, None, option_map, is_some, true};
ghost use Rattle.ct_embed.specs.Content.{a_walk, walk_of};

use crate::handle::Handle;
use crate::parts::Parts;
use ct_walk::Turns;
use std::alloc::Global;

/// A walk, as its caller holds it: zeros before it is opened and once it is closed.
#[repr(C)]
#[derive(Drop)]
pub struct HeldWalk {
    pub handle: Handle,
    pub is_open: bool,
    pub ghost same: { is_open ≡ is_some (walk_of handle.content) },
}

impl HeldWalk {
    // Takes the walk out, and leaves nothing.
    pub(crate) fn take(&mut self, alloc: Global) -> Option<Box<Turns>>
        ensures was { option_map (λ own. own.value) result ≡ walk_of self.old.handle.content }
        ensures is { walk_of self.new.handle.content ≡ None }
    {
        if !self.is_open {
            return None;
        }
        let handle = std::mem::replace(&mut self.handle, Handle::none(alloc));
        self.is_open = false;
        Some(handle.into_walk().into_box())
    }

    // Puts one in.
    pub(crate) fn put(&mut self, own: Box<Turns>)
        ensures { walk_of self.new.handle.content ≡ Some own.value }
    {
        self.handle = Handle::of_walk(Parts::of(own));
        self.is_open = true;
    }
}

impl Handle {
    // Holds what the parts own.
    fn of_walk(own: Parts<Turns, Global>) -> Handle
        ensures { result.content ≡ a_walk own.value }
    {
        let Parts { ptr, alloc } = own;
        Handle {
            at: ptr as *mut u8,
            alloc,
        }
    }

    // Gives the walk up.
    fn into_walk(self) -> Parts<Turns, Global>
        requires { is_some (walk_of self.content) ≡ true }
        ensures { self.content ≡ a_walk result.value }
    {
        let Handle { at, alloc } = self;
        Parts {
            ptr: at as *mut Turns,
            alloc,
        }
    }
}
