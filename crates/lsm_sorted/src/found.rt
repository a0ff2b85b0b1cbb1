//! The first of two optional entries.
ghost use Rattle.std.specs.Prelude.{◌≡◌};
ghost use Rattle.lsm_sorted.specs.Words as spec;

use sst_entries::InternalValue;
use std::alloc::Allocator;

fn stands_before<A: Allocator>(x: &InternalValue<A>, y: &InternalValue<A>) -> bool
    ensures { result ≡ spec.is_lt (spec.item_cmp x.now y.now) }
{
    x.key < y.key
}

/// Returns the first of two optional entries in entry order.
///
/// Between versions of one key, this is the one with the higher seqno. On a tie it returns the
/// first argument. If one of them is `None`, it returns the other.
pub fn leading<A: Allocator>(
    first: Option<InternalValue<A>>,
    second: Option<InternalValue<A>>,
) -> Option<InternalValue<A>>
    ensures { result ≡ spec.leading_of first second }
{
    match (first, second) {
        (Some(first), Some(second)) => {
            if stands_before(&second, &first) {
                Some(second)
            } else {
                Some(first)
            }
        }
        (Some(first), None) => Some(first),
        (None, second) => second,
    }
}
