//! The failure detectors of a free run.

ghost use Rattle.std.specs.Prelude.{◌≡◌, IfOk, vec_len};
ghost use Rattle.ct_program.specs.FreeOptions.{InRange};
ghost use Rattle.ct_program.specs.Seeding.{first_detectors};

use crate::free_options::FreeOptions;
use ct_detect::Seeded;
use std::alloc::{AllocError, Global};

/// A failure detector for each member, member 1's first: that of member m starts from the options' seed plus m, has their
/// rate, and wasn't asked yet. The only error is that memory is refused.
pub fn seeded(alloc: Global, options: &FreeOptions) -> Result<Vec<Seeded>, AllocError>
    requires { InRange options.now }
    ensures exact { IfOk result (λ detectors. detectors.items ≡ first_detectors options.now options.now.members) }
    ensures count { IfOk result (λ detectors. vec_len detectors ≡ options.now.members) }
{
    let mut detectors = Vec::new(alloc);
    for i in 0..options.members {
        let seed = u64::from(options.seed) + u64::from(i + 1);
        detectors.push(Seeded::new(seed, options.rate))?;
    }
    Ok(detectors)
}
