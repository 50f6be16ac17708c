//! Look-ups in maps in which an entry mostly stands at an index that is known from its key.

ghost use Rattle.std.specs.Prelude.{◌≡◌, ◌-◌, false, slice_get};
ghost use Rattle.std.specs.Borrow.{sem};
ghost use Rattle.std.specs.Option.{option_copied, option_copied_mut, option_map_or};
ghost use Rattle.indexmap.specs.IndexMap.{get};
ghost use Rattle.indexmap.specs.Lends.{lends_get};

use indexmap::IndexMap;
use std::alloc::Allocator;
use std::hash::{BuildHasher, Hash};

/// The index of a key where the keys 1, 2, 3 and so on were inserted in this order; 0 for the key 0.
#[inline(always)]
pub fn index_in_order(key: u32) -> usize
    ensures { result ≡ key - 1 }
{
    key.saturating_sub(1) as usize
}

/// The value at the key, as `get` gives it: without a hash where the entry stands at the index.
#[inline(always)]
pub fn find<'m, K: Eq + Hash, V, S: BuildHasher, A: Allocator>(
    map: &'m IndexMap<K, V, S, A>,
    key: &K,
    index: usize,
) -> Option<&'m V>
    ensures { option_copied result ≡ get K.eq map.now key.now }
{
    match map.get_index(index) {
        Some((found, value)) if key == found => Some(value),
        _ => map.get(key),
    }
}

/// The value at the key, to write, as `get_mut` gives it: without a hash where the entry stands at the index.
#[inline(always)]
pub fn find_mut<'m, K: Eq + Hash, V, S: BuildHasher, A: Allocator>(
    map: &'m mut IndexMap<K, V, S, A>,
    key: &K,
    index: usize,
) -> Option<&'m mut V>
    ensures* writes_back { sem 𝓛 (lends_get K.row V.row S.row A.row S.Hasher.row
        K.Hash S.BuildHasher S.Hasher.Hasher A.Allocator map.entry (K.eq key.now) result) }
    ensures value { option_copied_mut result ≡ get K.eq map.old key.now }
{
    if is_at(map, key, index) {
        map.get_index_mut(index)
    } else {
        map.get_mut(key)
    }
}

// Whether the entry at the index has the key.
fn is_at<K: Eq + Hash, V, S: BuildHasher, A: Allocator>(
    map: &IndexMap<K, V, S, A>,
    key: &K,
    index: usize,
) -> bool
    ensures { result ≡ option_map_or (λ e. K.eq key.now e.0) (slice_get map.now.entries index) false }
{
    match map.get_index(index) {
        Some((found, _)) => key == found,
        None => false,
    }
}
