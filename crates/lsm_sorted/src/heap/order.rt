// Comparison of items as seen from an end: at the front, the least comes first.
ghost use Rattle.std.specs.Prelude.{◌≡◌};
ghost use Rattle.lsm_sorted.specs.Words as spec;

use sst_entries::Direction;

// Whether `y` comes before `x`, seen from this end. Equal items come before neither.
#[inline]
pub(crate) fn is_before<T: Ord>(end: Direction, y: &T, x: &T) -> bool
    ensures { result ≡ spec.is_gt (spec.toward end T.cmp x.now y.now) }
{
    match end {
        Direction::Front => x.cmp(y).is_gt(),
        Direction::Back => y.cmp(x).is_gt(),
    }
}
