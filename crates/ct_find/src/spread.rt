//! How numbers are spread.

ghost use Rattle.std.specs.Prelude.{◌≡◌, ◌^◌, ◌<◌, ◌≤◌, length, vec_len};
ghost use Rattle.ct_find.specs.Spreads.{value_at, IsSpreadOf};

// How many parts the numbers are divided into.
const QUARTERS: usize = 4;

/// How numbers are spread: five of them, once they are in order.
#[derive(Clone, Copy, Debug, Drop, PartialEq, Eq)]
pub struct Spread {
    /// The least one.
    pub least: u64,
    /// The last one of the first quarter.
    pub lower: u64,
    /// The last one of the first half.
    pub median: u64,
    /// The last one of the first three quarters.
    pub upper: u64,
    /// The greatest one.
    pub greatest: u64,
}

// The spread of the values; None where there is none.
pub(crate) fn spread_of(values: Vec<u64>) -> Option<Spread>
    requires few { vec_len values ≤ 2 ^ 32 }
    ensures { IsSpreadOf values.items result }
{
    let mut ordered = values;
    if ordered.is_empty() {
        return None;
    }
    ordered.sort_unstable();
    Some(Spread {
        least: value_at(&ordered, 0),
        lower: value_at(&ordered, 1),
        median: value_at(&ordered, 2),
        upper: value_at(&ordered, 3),
        greatest: value_at(&ordered, QUARTERS),
    })
}

// The last value of the first so many quarters of those in order, which are rounded up; of none of them the first one.
fn value_at(ordered: &[u64], quarters: usize) -> u64
    requires some { 0 < length ordered.now }
    requires few { length ordered.now ≤ 2 ^ 32 }
    requires quarters { quarters ≤ 4 }
    ensures { result ≡ value_at ordered.now quarters }
{
    let values = (ordered.len() * quarters).div_ceil(QUARTERS);
    ordered[values.saturating_sub(1)]
}
