//! Reading items by index, and binary search among them.
ghost use Rattle.std.specs.Prelude.{◌≡◌, ◌<◌, ◌≤◌, ℕ, Bool, List, Some, length};
ghost use Rattle.sst_blocks.specs.Words as spec;

use super::ItemRef;
use crate::starts::Starts;
use crate::{SeqNo, TableVersion};
use std::alloc::Allocator;

/// Returns the item at an index.
#[inline(always)]
pub(crate) fn item_at<'a, R: ItemRef<'a>, A: Allocator>(
    version: TableVersion,
    payload: &'a [u8],
    starts: &Starts<A>,
    index: usize,
) -> R
    requires spelled { spec.ItemsAt (R.format version) payload.now starts.now }
    requires within { index < length starts.now }
    ensures { spec.slice_get (spec.items_of (R.format version) payload.now) index
        ≡ Some (R.returned result) }
{
    R::is_format(version);
    let start = starts.at(index);
    match R::read(version, &payload[start..]) {
        Some(read) => read.0,
        None => unreachable!(),
    }
}

/// Returns the key and the sequence number of the item at an index.
#[inline(always)]
pub(crate) fn key_at<'a, R: ItemRef<'a>, A: Allocator>(
    version: TableVersion,
    payload: &'a [u8],
    starts: &Starts<A>,
    index: usize,
) -> (&'a [u8], SeqNo)
    requires spelled { spec.ItemsAt (R.format version) payload.now starts.now }
    requires within { index < length starts.now }
    ensures { let f = R.format version in
        spec.option_map (λ x. spec.key_and_number (f.key x))
        (spec.slice_get (spec.items_of f payload.now) index) ≡ Some (result.0.now, result.1) }
{
    R::is_format(version);
    let start = starts.at(index);
    R::read_key(version, &payload[start..])
}

/// Returns the number of leading items that pass a test of key and sequence number.
///
/// It is a binary search: no item may pass after one that fails.
pub(crate) fn front_len<'a, R: ItemRef<'a>, A: Allocator, P: Fn(&[u8], SeqNo) -> bool>(
    version: TableVersion,
    payload: &'a [u8],
    starts: &Starts<A>,
    passes: P,
) -> usize
    requires spelled { spec.ItemsAt (R.format version) payload.now starts.now }
    requires callable { P.IsAlwaysCallable passes }
    ensures within { result ≤ length starts.now }
    ensures value { (p : List ℕ → ℕ → Bool) →
        ((key : _) (n : _) (r : _) → P.post passes key n r → r ≡ p key.now n) →
        let f = R.format version in
        let q = λ (x : R.Reported). p (f.key x).user_key (f.key x).seqno in
        let items = spec.items_of f payload.now in
        spec.IsPartitionedBy q items → result ≡ spec.front_length q items }
{
    let mut low = 0;
    let mut high = starts.len();
    while low < high {
        let middle = low + (high - low) / 2;
        let (key, seqno) = key_at::<R, A>(version, payload, starts, middle);
        if passes(key, seqno) {
            low = middle + 1;
        } else {
            high = middle;
        }
    }
    low
}
