//! What workers hand back.

ghost use Rattle.std.specs.Prelude.{◌≡◌};

use crate::made::Made;
use crate::share::Share;
use std::sync::ledger::Ledger;

// What the turns of a worker came to, and its share, on which their steps are counted.
#[derive(Drop)]
pub(crate) struct Worked<L: Ledger> {
    pub(crate) made: Made,
    pub(crate) share: Share<L>,
    ghost part: { share.parts ≡ 1 },
    ghost counted: { share.steps ≡ made.steps },
}

impl<L: Ledger> Worked<L> {
    pub(crate) fn new(made: Made, share: Share<L>) -> Worked<L>
        requires part { share.parts ≡ 1 }
        requires counted { share.steps ≡ made.steps }
        ensures { result.made ≡ made }
    {
        Worked { made, share }
    }
}
