//! Filters: their sizes and their bits.
use sst_blocks::{BloomConstructionPolicy, Builder, filter_bound};
use sst_entries::Error;
use std::alloc::{Allocator, Global};
use test_support::Refusing;

fn tenths(tenths: u32) -> BloomConstructionPolicy {
    BloomConstructionPolicy::BitsPerKey(tenths)
}

// Tenths of a bit per key, the number of keys, and the filter's size and bound.
type Size = (u32, usize, usize, u64);

const SIZES: &[Size] = &[
    (100, 0, 8, 33),
    (100, 1, 8, 33),
    (100, 7, 9, 34),
    (100, 1_000, 1_250, 1_275),
    (0, 1_000, 8, 33),
    (1, 641, 9, 34),
    // keys of one byte each, in the largest block and in one that is too large
    (80, 4_294_967_270, 4_294_967_270, u32::MAX as u64),
    (80, 4_294_967_271, 4_294_967_271, 1 << 32),
    (u32::MAX, usize::MAX, usize::MAX, u64::MAX),
];

// Whether a filter has this size and this bound, and is active where a key has bits. It fails from
// four gigabytes on.
fn is_sized(alloc: Global, case: &Size) -> bool {
    let (bits, keys, size, bound) = *case;
    let policy = tenths(bits);
    policy.estimated_filter_size(keys) == size
        && filter_bound(&policy, keys) == bound
        && policy.is_active() == (bits > 0)
        && (bound < 1 << 32 || policy.init(alloc, keys).err() == Some(Error::BlockTooLarge))
}

#[test]
fn sizes_of_filters(rt: HostRuntime) {
    for case in SIZES {
        assert!(rt; is_sized(rt.alloc(), case));
    }
    assert!(rt; BloomConstructionPolicy::default() == tenths(100));
}

/// The payload of a filter of one key, "a", at ten bits.
pub(crate) const ONE_KEY: &[u8] = &[6, 1, 0x30, 0, 2, 0x40, 0, 8, 0];

/// The payload of a filter of "apple", "fig" and "pear".
pub(crate) const THREE_KEYS: &[u8] = &[6, 0x81, 0x42, 0x18, 2, 0x92, 0x60, 0x24, 0x85];

// Tenths of a bit per key, the keys, and the payload: the number of probes, then the bits.
type Built = (u32, &'static [&'static [u8]], &'static [u8]);

const BUILT: &[Built] = &[
    (1, &[], &[1, 0, 0, 0, 0, 0, 0, 0, 0]),
    (28, &[], &[1, 0, 0, 0, 0, 0, 0, 0, 0]),
    (29, &[], &[2, 0, 0, 0, 0, 0, 0, 0, 0]),
    (100, &[], &[6, 0, 0, 0, 0, 0, 0, 0, 0]),
    (435, &[], &[30, 0, 0, 0, 0, 0, 0, 0, 0]),
    (u32::MAX, &[], &[30, 0, 0, 0, 0, 0, 0, 0, 0]),
    (100, &[b"a"], ONE_KEY),
    (100, &[b"apple", b"fig", b"pear"], THREE_KEYS),
];

// The payload of a filter of these keys.
fn payload_of<A: Allocator>(alloc: A, bits: u32, keys: &[&[u8]]) -> Result<Vec<u8, A>, Error> {
    let mut builder = tenths(bits).init(alloc, keys.len())?;
    for key in keys {
        builder.set_with_hash(Builder::<A>::get_hash(key));
    }
    Ok(builder.build())
}

// Whether a filter is built; or `OutOfMemory`, where it may fail.
fn is_built(heap: &Refusing, case: &Built, may_fail: bool) -> bool {
    let (bits, keys, expected) = *case;
    match payload_of(heap, bits, keys) {
        Ok(payload) => payload.as_slice() == expected,
        Err(error) => may_fail && error == Error::OutOfMemory,
    }
}

/// Whether filters are built, each with one request for memory.
pub(crate) fn are_built(heap: &Refusing, may_fail: bool) -> bool {
    for case in BUILT {
        let before = heap.requests();
        if !is_built(heap, case, may_fail) || heap.requests() != before.saturating_add(1) {
            return false;
        }
    }
    true
}
