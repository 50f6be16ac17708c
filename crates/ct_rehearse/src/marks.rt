//! What the workers of a run show one another.

ghost use Rattle.std.specs.Prelude.{◌≡◌, ◌+◌, ◌<◌};
ghost use Rattle.ct_rehearse.specs.Pace.{gone, least_of, mark_at_gate, mark_of};

// The mark of a worker for which nobody waits: it was not started, or has made its turns.
pub(crate) const GONE: u64 = u64::MAX;

// The mark of a worker that has made so many turns.
pub(crate) fn mark_of(turns: u32) -> u64
    ensures { result ≡ mark_of turns }
{
    2 * u64::from(turns)
}

// The mark of a worker whose gate is called, and that has made so many turns.
pub(crate) fn mark_at_gate(turns: u32) -> u64
    ensures { result ≡ mark_at_gate turns }
{
    2 * u64::from(turns) + 1
}

// Where the mark of a worker stands: workers are numbered from 1, the marks from 0.
pub(crate) fn place_of(worker: u32) -> usize
    requires { 0 < worker }
    ensures { result + 1 ≡ worker }
{
    worker as usize - 1
}

// The least of the marks.
pub(crate) fn least_of(marks: &[u64]) -> u64
    ensures { result ≡ least_of marks.now }
{
    let mut least = GONE;
    for mark in marks {
        least = least.min(*mark);
    }
    least
}
