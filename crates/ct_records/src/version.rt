//! The versions of records.

ghost use Rattle.std.specs.Prelude.{◌≡◌};
ghost use Rattle.ct_records.specs.Script.{since};

use ct_model::Step;

/// The first version.
pub(crate) const FIRST: u64 = 1;

/// The first version with steps that lose and repeat.
const LOSSY: u64 = 2;

/// The version that names the bound on a proposal, and the first with members that follow.
pub(crate) const BOUNDED: u64 = 3;

/// The last version, which is the one that is written.
pub(crate) const LATEST: u64 = 3;

/// The first version of records that has the step.
pub(crate) fn since(step: Step) -> u64
    ensures { result ≡ since step }
{
    match step {
        Step::Lose(..) | Step::Repeat(..) => LOSSY,
        Step::Follow(_) => BOUNDED,
        _ => FIRST,
    }
}
