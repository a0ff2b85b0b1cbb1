//! The order of entries by key and sequence number.
ghost use Rattle.std.specs.Prelude.{◌≡◌, IsTrue, ◌↔◌, None};
ghost use Rattle.sst_entries.specs.Words as spec;

use crate::{InternalValue, SeqNo};
use std::alloc::Allocator;
use std::cmp::Ordering;

/// Compares two versions by key ascending, then by sequence number descending.
///
/// Kind and value are ignored.
#[inline]
pub fn compare_versions(key: &[u8], seqno: SeqNo, other_key: &[u8], other_seqno: SeqNo) -> Ordering
    ensures { result ≡ spec.version_cmp (spec.read_place key.now seqno)
        (spec.read_place other_key.now other_seqno) }
{
    key.cmp(other_key).then(other_seqno.cmp(&seqno))
}

/// Returns whether the entries are in strict order by key and sequence number.
///
/// Every block and every table requires this order. The call is linear in the number of entries.
pub fn are_strict<A: Allocator>(items: &[InternalValue<A>]) -> bool
    ensures test { result ≡ spec.is_strict_after None items.now }
    ensures means { IsTrue result ↔ spec.IsStrict items.now }
{
    let mut last: Option<&InternalValue<A>> = None;
    for item in items {
        if !item.may_follow(last) {
            return false;
        }
        last = Some(item);
    }
    true
}
