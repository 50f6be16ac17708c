//! Marks by number and origin.

ghost use Rattle.std.specs.Prelude.{◌≡◌, ℕ, ◌-◌, ◌++◌, [], nat_lt, length, replicate, IfOk};
ghost use Rattle.ct_relay.specs.Marks.{covers, told, with_mark};

use ct_names::{MAX_MEMBERS, MAX_SUBMISSIONS, Member, MemberSet};
use std::alloc::{AllocError, Global};
use std::marker::Model;

/// How many numbers have marks at most: 0 and all that a member submits, which are more than the instances.
const MOST: usize = MAX_SUBMISSIONS as usize + 1;

/// How many numbers have marks at first.
const FIRST: usize = 64;

/// Of each number, from 0 on, the origins that have a mark at that number. They cover the numbers below their length and the
/// origins from 1 to [`MAX_MEMBERS`].
#[derive(Drop)]
pub(crate) struct Marks {
    sets: Vec<MemberSet>,
    // The largest number that came.
    top: u16,
}

// Contracts see the origins of each number.
impl Model for Marks {
    ghost use Rattle.std.specs.Prelude.{ℕ, List};

    ghost Value = { List (List ℕ) };

    ghost view = { λ marks. marks.sets.items };
}

impl Marks {
    /// Marks that cover no number.
    pub(crate) fn new(alloc: Global) -> Marks
        ensures { result ≡ [] }
    {
        Marks {
            sets: Vec::new(alloc),
            top: 0,
        }
    }

    /// The same marks once more, or the error where memory is refused.
    pub(crate) fn copy(&self, alloc: Global) -> Result<Marks, AllocError>
        ensures { IfOk result (λ copy. copy ≡ self.now) }
    {
        Ok(Marks {
            sets: Vec::from_slice(alloc, &self.sets)?,
            top: self.top,
        })
    }

    /// Whether it has a mark, where they cover it.
    pub(crate) fn told(&self, origin: u32, number: u32) -> Option<bool>
        ensures { result ≡ told self.now origin number }
    {
        if self.covers(origin, number) {
            Some(self.sets[number as usize].contains(origin as Member))
        } else {
            None
        }
    }

    /// Marks it, where they cover it. Whether they do.
    pub(crate) fn add(&mut self, origin: u32, number: u32) -> bool
        ensures covered { result ≡ covers self.old origin number }
        ensures marks { self.new ≡ with_mark self.old origin number }
    {
        if let Ok(number) = u16::try_from(number) {
            self.top = self.top.max(number);
        }
        let covered = self.covers(origin, number);
        if covered {
            let mut set = self.sets[number as usize];
            set.insert(origin as Member);
            self.sets[number as usize] = set;
        }
        covered
    }

    /// Covers more numbers, twice as many or more, where the largest number that came is past the middle of them and memory
    /// is given. Whether it does.
    pub(crate) fn grow(&mut self) -> bool
        ensures longer { result ≡ nat_lt (length self.old) (length self.new) }
        ensures marks { self.new ≡ self.old ++ replicate (length self.new - length self.old) [] }
    {
        let len = self.sets.len();
        let top = usize::from(self.top);
        if 2 * top < len || len >= MOST {
            return false;
        }
        let longer = (4 * top).clamp(FIRST, MOST);
        self.sets.resize(longer, MemberSet::new()).is_ok()
    }

    // Whether they have a place for it.
    fn covers(&self, origin: u32, number: u32) -> bool
        ensures { result ≡ covers self.now origin number }
    {
        (number as usize) < self.sets.len() && 1 <= origin && origin <= u32::from(MAX_MEMBERS)
    }
}
