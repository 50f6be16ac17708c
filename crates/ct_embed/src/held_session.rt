//! A session as its caller holds it.

ghost use Rattle.std.specs.Prelude.{◌≡◌, Some, None, option_map, is_some, true};
ghost use Rattle.ct_embed.specs.Content.{a_session, session_of};

use crate::handle::Handle;
use crate::own_session::OwnSession;
use crate::parts::Parts;
use std::alloc::Global;

/// A session, as its caller holds it: zeros before it is opened and once it is closed.
#[repr(C)]
#[derive(Drop)]
pub struct HeldSession {
    pub handle: Handle,
    pub is_open: bool,
    pub ghost same: { is_open ≡ is_some (session_of handle.content) },
}

impl HeldSession {
    // Takes the session out, and leaves nothing.
    pub(crate) fn take(&mut self, alloc: Global) -> Option<Box<OwnSession>>
        ensures was { option_map (λ own. own.value) result ≡ session_of self.old.handle.content }
        ensures is { session_of self.new.handle.content ≡ None }
    {
        if !self.is_open {
            return None;
        }
        let handle = std::mem::replace(&mut self.handle, Handle::none(alloc));
        self.is_open = false;
        Some(handle.into_session().into_box())
    }

    // Puts one in.
    pub(crate) fn put(&mut self, own: Box<OwnSession>)
        ensures { session_of self.new.handle.content ≡ Some own.value }
    {
        self.handle = Handle::of_session(Parts::of(own));
        self.is_open = true;
    }
}

impl Handle {
    // Holds what the parts own.
    fn of_session(own: Parts<OwnSession, Global>) -> Handle
        ensures { result.content ≡ a_session own.value }
    {
        let Parts { ptr, alloc } = own;
        Handle {
            at: ptr as *mut u8,
            alloc,
        }
    }

    // Gives the session up.
    fn into_session(self) -> Parts<OwnSession, Global>
        requires { is_some (session_of self.content) ≡ true }
        ensures { self.content ≡ a_session result.value }
    {
        let Handle { at, alloc } = self;
        Parts {
            ptr: at as *mut OwnSession,
            alloc,
        }
    }
}
