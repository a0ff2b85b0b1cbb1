//! Comparison of keys, eight bytes at a time.
ghost use Rattle.std.specs.Prelude.{◌≡◌};
ghost use Rattle.lsm_sorted.specs.Words as spec;

use sst_entries::{EntryRef, InternalKey};
use std::alloc::Allocator;
use std::cmp::Ordering;

// Compares as slices do, eight bytes at once as one number.
#[inline(always)]
fn compare_bytes(first: &[u8], second: &[u8]) -> Ordering
    ensures { result ≡ spec.slice_cmp spec.nat_cmp first.now second.now }
{
    let mut x = first;
    let mut y = second;
    loop {
        let Some((a, after_a)) = x.split_first_chunk::<8>() else {
            return x.cmp(y);
        };
        let Some((b, after_b)) = y.split_first_chunk::<8>() else {
            return x.cmp(y);
        };
        let found = u64::from_be_bytes(*a).cmp(&u64::from_be_bytes(*b));
        if found.is_ne() {
            return found;
        }
        x = after_a;
        y = after_b;
    }
}

// Compares as `InternalKey::cmp` does. A merge makes many of these comparisons.
#[inline(always)]
pub(crate) fn compare_keys<A: Allocator>(x: &InternalKey<A>, y: &InternalKey<A>) -> Ordering
    ensures { result ≡ spec.key_cmp x.now y.now }
{
    // The rest is compared only on a tie.
    match compare_bytes(x.user_key.as_slice(), y.user_key.as_slice()) {
        Ordering::Equal => y.seqno.cmp(&x.seqno).then(x.value_type.cmp(&y.value_type)),
        found => found,
    }
}

/// Compares the keys of borrowed entries, as a [`Merger`](crate::Merger) compares those of its own.
///
/// The order is by ascending key, then by descending seqno, then by kind. Eight bytes of the keys
/// are compared at once.
#[inline(always)]
pub fn compare_refs(x: &EntryRef<'_>, y: &EntryRef<'_>) -> Ordering
    ensures { result ≡ spec.item_cmp (spec.entry_of_ref x.now) (spec.entry_of_ref y.now) }
{
    match compare_bytes(x.user_key, y.user_key) {
        Ordering::Equal => y.seqno.cmp(&x.seqno).then(x.value_type.cmp(&y.value_type)),
        found => found,
    }
}
