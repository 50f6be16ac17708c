//! The serials that a step sent.

ghost use Rattle.std.specs.Prelude.{◌≡◌, ◌==◌, ◌+◌, ◌≤◌, if◌then◌else◌};

// The first one, 0 where none was sent, and how many.
#[derive(Clone, Copy)]
pub(crate) struct Sent {
    pub(crate) first: u32,
    pub(crate) count: u32,
}

impl Sent {
    // So many behind those that were sent before.
    pub(crate) fn after(before: u32, count: u32) -> Sent
        requires { before ≤ 1000000 }
        ensures first { result.first ≡ (if count == 0 then 0 else before + 1) }
        ensures count { result.count ≡ count }
    {
        let first = if count == 0 { 0 } else { before + 1 };
        Sent { first, count }
    }
}
