//! Checksums compared ahead of the loads do not change the result of any load.
use crate::sections::loading::loaded;
use crate::sections::tables::{Written, handle, table_of};
use sst_blocks::BlockType::{Filter, Index};
use sst_blocks::{BlockSource, Error, Opened, SectionName, has_hash, hash, have_hashes};
use std::alloc::Global;

const TEXT: &[u8] = b"a run of bytes, which is walked over from both ends";

// Whether the hash of some bytes differs from another hash, alone and beside bytes of another
// length.
fn is_compared(some: &[u8], all: &[u8]) -> bool {
    let sum = hash(some);
    let whole = hash(all);
    let other = sum ^ 1;
    has_hash(some, sum)
        && !has_hash(some, other)
        && have_hashes(some, sum, all, whole) == (true, true)
        && have_hashes(all, whole, some, other) == (true, false)
        && have_hashes(some, other, all, whole) == (false, true)
}

#[test]
fn sums_are_compared_from_both_ends(rt: HostRuntime) {
    for len in 0..TEXT.len() {
        assert!(rt; is_compared(&TEXT[..len], TEXT), "{len} bytes");
    }
}

// Four filters. Each payload exceeds the bytes that share one bit of the verified-block cache.
const BLOCKS: [Written; 4] = [
    (Filter, &[6; 2100], 0, 2124),
    (Filter, &[6; 5000], 2124, 5024),
    (Filter, &[6; 2500], 7148, 2524),
    (Filter, &[6; 4096], 9672, 4120),
];

// The last byte of each payload, which is 7 in a damaged block.
fn last_bytes(damaged: u8) -> [(usize, u8); 4] {
    [
        (2123, 6 + (damaged & 1)),
        (7147, 6 + (damaged >> 1 & 1)),
        (9671, 6 + (damaged >> 2 & 1)),
        (13791, 6 + (damaged >> 3 & 1)),
    ]
}

// Compares no block, then one of the four, one under another kind, one of another size, and one
// past the end.
fn compare_some(source: &BlockSource) {
    let some = [
        (handle(0, 2124), Filter),
        (handle(2124, 5024), Index),
        (handle(9672, 4119), Filter),
        (handle(1 << 40, 2124), Filter),
    ];
    source.compare_together(&some[..0]);
    source.compare_together(&some);
}

// Compares the four, and one of them again.
fn compare_all(source: &BlockSource) {
    let all = [
        (handle(0, 2124), Filter),
        (handle(2124, 5024), Filter),
        (handle(7148, 2524), Filter),
        (handle(9672, 4120), Filter),
        (handle(7148, 2524), Filter),
    ];
    source.compare_together(&all);
}

// Whether each block loads, or fails with a checksum error where it is damaged, twice.
fn load_so(source: &BlockSource, damaged: u8) -> bool {
    for i in 0..8usize {
        let (kind, payload, offset, size) = BLOCKS[i % 4];
        let expected = if damaged >> (i % 4) & 1 == 1 {
            Err(Error::ChecksumMismatch)
        } else {
            Ok((kind, payload.len()))
        };
        if loaded(source, offset, Some(size), kind, &mut Opened::none()) != expected {
            return false;
        }
    }
    true
}

// Whether the blocks load as they should after their checksums were compared. The set bits of
// `damaged` name the damaged blocks.
fn load_so_behind(alloc: Global, damaged: u8) -> bool {
    match table_of(alloc, SectionName::Data, &BLOCKS, &last_bytes(damaged)) {
        Ok(source) => {
            compare_some(&source);
            compare_all(&source);
            let so = load_so(&source, damaged);
            drop(source);
            so
        }
        Err(_) => false,
    }
}

#[test]
fn sums_that_are_compared_ahead_change_no_answer(rt: HostRuntime) {
    for damaged in 0..16u8 {
        assert!(rt; load_so_behind(rt.alloc(), damaged), "damaged {damaged}");
    }
}
