//! Envelopes in few bytes.

use crate::short::Short;
use ct_names::Member;
use std::mem::size_of;

/// An envelope in 16 bytes.
#[derive(Clone, Copy)]
pub(crate) struct Packed {
    pub to: Member,
    pub wire: Short,
}

const _: () = prove!(size_of::<Packed>() == 16);
