//! Hashes, and the bytes of blocks.
use crate::sections::tables::{Written, table_of};
use sst_blocks::{BlockType, Header, SectionName, hash};
use std::alloc::Global;

// The vectors are those of http://www.isthe.com/chongo/src/fnv/test_fnv.c.
const VECTORS: &[(&[u8], u64)] = &[
    (b"", 0xcbf2_9ce4_8422_2325),
    (b"a", 0xaf63_dc4c_8601_ec8c),
    (b"b", 0xaf63_df4c_8601_f1a5),
    (b"foobar", 0x8594_4171_f739_67e8),
];

#[test]
fn hashes_of_byte_strings(rt: HostRuntime) {
    for &(bytes, expected) in VECTORS {
        assert!(rt; hash(bytes) == expected);
    }
}

// The block of one entry in the new version.
const HEADER: &[u8] = &[
    0x4c, 0x42, 0x4b, 0x32, 0, 0, 0, 0, 0x17, 0, 0, 0, 0x17, 0, 0, 0, 0x24, 0x49, 0xa9, 0x5e, 0x44,
    0x4c, 0x6e, 0x97,
];

const PAYLOAD: &[u8] = &[
    1, 0, 0, 0, 0, 1, 0, 0, 0, 0, 0, 0, 0, 1, 0, 0, 0, 1, 0, 0, 0, b'a', b'x',
];

const FILTER: &[u8] = b"\x06\xff";

const BOTH: &[Written] = &[
    (BlockType::Data, PAYLOAD, 0, 47),
    (BlockType::Filter, FILTER, 47, 26),
];

// Whether some bytes begin with both blocks: the header and payload, then a second header and the
// filter.
fn begin_with_both(bytes: &[u8]) -> bool {
    bytes.get(..24) == Some(HEADER)
        && bytes.get(24..47) == Some(PAYLOAD)
        && bytes.get(71..73) == Some(FILTER)
}

// Whether both blocks are written. The writer computes two hashes at once: of the payload and of
// all bytes.
fn are_written(alloc: Global) -> bool {
    match table_of(alloc, SectionName::Data, BOTH, &[]) {
        Ok(source) => {
            let are_they = begin_with_both(source.bytes().as_slice());
            drop(source);
            are_they
        }
        Err(_) => false,
    }
}

#[test]
fn blocks_as_bytes(rt: HostRuntime) {
    assert!(rt; are_written(rt.alloc()));
    assert!(rt; Header::serialized_len() == 24);
}
