//! A world as its caller holds it.

ghost use Rattle.std.specs.Prelude.{◌≡◌, Some, None, option_map, is_some, true};
ghost use Rattle.ct_embed.specs.Content.{a_world, world_of};

use crate::handle::Handle;
use crate::own_world::OwnWorld;
use crate::parts::Parts;
use std::alloc::Global;

/// A world, as its caller holds it: zeros before it is opened and once it is closed.
#[repr(C)]
#[derive(Drop)]
pub struct HeldWorld {
    pub handle: Handle,
    pub is_open: bool,
    pub ghost same: { is_open ≡ is_some (world_of handle.content) },
}

impl HeldWorld {
    // Takes the world out, and leaves nothing.
    pub(crate) fn take(&mut self, alloc: Global) -> Option<Box<OwnWorld>>
        ensures was { option_map (λ own. own.value) result ≡ world_of self.old.handle.content }
        ensures is { world_of self.new.handle.content ≡ None }
    {
        if !self.is_open {
            return None;
        }
        let handle = std::mem::replace(&mut self.handle, Handle::none(alloc));
        self.is_open = false;
        Some(handle.into_world().into_box())
    }

    // Puts one in.
    pub(crate) fn put(&mut self, own: Box<OwnWorld>)
        ensures { world_of self.new.handle.content ≡ Some own.value }
    {
        self.handle = Handle::of_world(Parts::of(own));
        self.is_open = true;
    }
}

impl Handle {
    // Holds what the parts own.
    fn of_world(own: Parts<OwnWorld, Global>) -> Handle
        ensures { result.content ≡ a_world own.value }
    {
        let Parts { ptr, alloc } = own;
        Handle {
            at: ptr as *mut u8,
            alloc,
        }
    }

    // Gives the world up.
    fn into_world(self) -> Parts<OwnWorld, Global>
        requires { is_some (world_of self.content) ≡ true }
        ensures { self.content ≡ a_world result.value }
    {
        let Handle { at, alloc } = self;
        Parts {
            ptr: at as *mut OwnWorld,
            alloc,
        }
    }
}
