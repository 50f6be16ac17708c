//! What was decided for an instance.

use super::names::Names;
use ct_names::Instance;

/// What was decided for an instance, as `2:1.1,3.1`.
#[derive(Drop)]
pub struct Decision {
    /// The instance.
    pub instance: Instance,
    /// The messages of the value.
    pub names: Names,
}
