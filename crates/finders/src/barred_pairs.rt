//! A filter that drops listed pairs.
ghost use Rattle.std.specs.Prelude.{◌≡◌};
ghost use Rattle.finders.specs.Filters.{bars, keeps_of};
ghost use Rattle.finders.specs.FilterLaws.{barred_symmetric};

use crate::filter::Filter;
use geometry::ColliderHandle;

/// How many pairs count.
const MOST_PAIRS: usize = 64;

/// Two colliders, generations included, in either order.
#[derive(Clone, Copy)]
pub struct BarredPair {
    pub first: ColliderHandle,
    pub second: ColliderHandle,
}

/// Drops the listed pairs. Only the first 64 of them count. A handle that is not live does no harm: it names no collider.
#[derive(Clone, Copy)]
pub struct BarredPairs<'a> {
    pub pairs: &'a [BarredPair],
}

impl BarredPair {
    /// Whether the pair is these two, in either order.
    fn bars(self, first: ColliderHandle, second: ColliderHandle) -> bool
        ensures { result ≡ bars self first second }
    {
        (self.first, self.second) == (first, second) || (self.first, self.second) == (second, first)
    }
}

impl<'a> Filter for BarredPairs<'a> {
    ghost keeps = { λ f. keeps_of f.pairs.now };

    ghost symmetric = { λ f. barred_symmetric f.pairs.now };

    fn keep(&self, first: ColliderHandle, second: ColliderHandle) -> bool {
        !self
            .pairs
            .iter()
            .take(MOST_PAIRS)
            .any(|pair| pair.bars(first, second))
    }
}
