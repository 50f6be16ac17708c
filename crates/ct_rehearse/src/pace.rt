//! How the workers of a run begin together, and keep in step.

ghost use Rattle.std.specs.Prelude.{◌≡◌, ◌<◌, true};
ghost use Rattle.ct_rehearse.specs.Pace.{goes_on};

use crate::marks::{GONE, least_of, mark_of, place_of};
use crate::patience::Patience;
use crate::plan::MAX_SCRIPTS;
use ct_names::MAX_MEMBERS;
use std::alloc::{AllocError, Global};
use std::sync::atomic::{AtomicU64, Ordering};
use std::sync::{OnceLock, OnceToken, Wait};
use std::thread;

/// The most workers of a run.
const WORKERS: usize = MAX_MEMBERS as usize + MAX_SCRIPTS;

// Has the workers of a run begin together, and shows how far each is. Threads share it.
#[derive(Drop)]
pub(crate) struct Pace {
    // Set once all workers were started.
    pub(crate) begun: OnceLock<()>,
    // A mark for each worker, the first worker's first.
    marks: Vec<AtomicU64>,
}

// What shows that the others wait for a worker.
#[derive(Drop)]
pub(crate) struct Admitted {
    worker: u32,
}

impl Pace {
    // The pace of so many workers, none of which was started.
    pub(crate) fn new(alloc: Global, workers: usize) -> Result<Pace, AllocError> {
        let mut marks = Vec::with_capacity(alloc, workers)?;
        for _ in 0..workers {
            marks.push(AtomicU64::new(GONE))?;
        }
        Ok(Pace {
            begun: OnceLock::new(),
            marks,
        })
    }

    // The worker was started, so that the others wait for it.
    pub(crate) fn admit(&self, worker: u32) -> Admitted
        requires { 0 < worker }
        ensures { result.worker ≡ worker }
    {
        self.mark(worker, mark_of(0));
        Admitted { worker }
    }

    // Has all workers begin.
    pub(crate) fn begin<R: Wait>(&self, rt: &R) {
        let _ = self.begun.set(rt, ());
    }

    // Waits until all begin. The token shows that they have.
    pub(crate) fn wait<R: Wait>(&self, rt: &R) -> OnceToken<'_, ()>
        ensures { result.of ≡ self.now.begun.id }
    {
        for _ in rt.forever() {
            let _ = self.begun.wait(rt);
            if let Some(begun) = self.begun.witness() {
                return begun;
            }
        }
        unreachable!()
    }

    // Shows the mark as the worker's.
    pub(crate) fn mark(&self, worker: u32, mark: u64)
        requires { 0 < worker }
    {
        if let Some(one) = self.marks.get(place_of(worker)) {
            one.store(mark, Ordering::SeqCst);
        }
    }

    // The mark of the slowest worker.
    fn least(&self) -> u64 {
        let mut marks = [GONE; WORKERS];
        for (place, one) in self.marks.iter().enumerate() {
            if let Some(mark) = marks.get_mut(place) {
                *mark = one.load(Ordering::SeqCst);
            }
        }
        least_of(&marks)
    }

    // Gives way while the slowest worker has made fewer turns than one with this mark, until patience ends.
    pub(crate) fn give_way(&self, made: u64, before: Patience) -> Patience
        ensures { goes_on result made ≡ true }
    {
        let mut patience = before.renewed();
        while patience.gives_way(made, self.least()) {
            thread::yield_now();
        }
        patience
    }
}
