//! Loads of payloads: the number of entries or handles, or an error.

use crate::blocks::payloads::source_of;
use sst_blocks::BlockType::{Data, Filter, Index, Meta};
use sst_blocks::TableVersion::{V3, V4};
use sst_blocks::{
    Block, BlockSource, BlockType, DataBlock, Error, IndexBlock, Opened, TableVersion,
};
use std::alloc::Allocator;
use test_support::Refusing;

// A version, a kind, a payload, and the number of its entries or handles; `None` where the load
// fails.
type Row = (TableVersion, BlockType, &'static [u8], Option<usize>);

// Payloads too short for their counts, and invalid filters: these fail without a request for
// memory.
const AT_ONCE: &[Row] = &[
    // a count of 2^32 - 1, with nothing after it and with a few bytes
    (V4, Data, &[255, 255, 255, 255], None),
    (V4, Meta, &[255, 255, 255, 255], None),
    (V4, Index, &[255, 255, 255, 255], None),
    (V3, Data, &[255, 255, 255, 255, 0, 1, 2], None),
    (V3, Meta, &[255, 255, 255, 255, 0, 1, 2], None),
    (V3, Index, &[255, 255, 255, 255, 0, 1, 2], None),
    // fewer bytes than a count has
    (V4, Data, &[0, 0, 0], None),
    (V4, Meta, &[0, 0, 0], None),
    (V4, Index, &[0, 0, 0], None),
    (V3, Data, &[], None),
    // an entry of 16 bytes, and in version 3 of 14; the shortest has one more
    (
        V4,
        Data,
        &[1, 0, 0, 0, 0, 0, 0, 0, 0, 0, 0, 0, 0, 0, 0, 0, 0, 0, 0, 0],
        None,
    ),
    (
        V3,
        Data,
        &[1, 0, 0, 0, 0, 0, 0, 0, 0, 0, 0, 0, 0, 0, 0, 0, 0, 0],
        None,
    ),
    // no probes, too many, and no bits
    (V4, Filter, &[0, 255], None),
    (V4, Filter, &[31, 255], None),
    (V4, Filter, &[5], None),
    (V4, Filter, &[], None),
];

// A payload of a count and entries. Each entry has its tag, sequence number, both lengths and the
// first of the two bytes after them.
macro_rules! entries {
    ($count:expr; $([$tag:expr, $seqno:expr, $key_len:expr, $value_len:expr, $first:expr]),*) => {
        &[
            ($count & 0xff) as u8,
            ($count >> 8 & 0xff) as u8,
            ($count >> 16 & 0xff) as u8,
            ($count >> 24 & 0xff) as u8,
            $(
                $tag,
                $seqno,
                0,
                0,
                0,
                0,
                0,
                0,
                0,
                ($key_len & 0xff) as u8,
                ($key_len >> 8 & 0xff) as u8,
                ($key_len >> 16 & 0xff) as u8,
                ($key_len >> 24 & 0xff) as u8,
                ($value_len & 0xff) as u8,
                ($value_len >> 8 & 0xff) as u8,
                ($value_len >> 16 & 0xff) as u8,
                ($value_len >> 24 & 0xff) as u8,
                $first,
                b'x',
            )*
        ]
    };
}

// A payload of a count and handles. Each handle has its end key, the key length that it claims and
// its sequence number.
macro_rules! handles {
    ($count:expr; $([$key:expr, $key_len:expr, $seqno:expr]),*) => {
        &[
            ($count & 0xff) as u8,
            ($count >> 8 & 0xff) as u8,
            ($count >> 16 & 0xff) as u8,
            ($count >> 24 & 0xff) as u8,
            $(
                $seqno, 0, 0, 0, 0, 0, 0, 0, 0, 0, 0, 0, 0, 0, 0, 0, 0, 0, 0, 0,
                $key_len, 0, 0, 0, $key,
            )*
        ]
    };
}

const LOADED: &[Row] = &[
    (V4, Data, entries!(0;), Some(0)),
    (V4, Data, entries!(1;), None),
    (V4, Data, entries!(u32::MAX;), None),
    (V4, Data, entries!(1; [0, 1, 1, 1, 97]), Some(1)),
    (V4, Data, entries!(1; [1, 1, 2, 0, 97]), Some(1)),
    (V4, Data, entries!(1; [2, 1, 2, 0, 97]), Some(1)),
    (V4, Data, entries!(1; [4, 1, 0, 2, 97]), Some(1)),
    (V4, Data, entries!(1; [3, 1, 1, 1, 97]), None),
    (V4, Data, entries!(1; [5, 1, 1, 1, 97]), None),
    (V4, Data, entries!(0; [0, 1, 1, 1, 97]), None),
    (V4, Data, entries!(2; [0, 1, 1, 1, 97]), None),
    (V4, Data, entries!(1; [0, 1, 2, 1, 97]), None),
    (V4, Data, entries!(1; [0, 1, 1, 2, 97]), None),
    (V4, Data, entries!(1; [0, 1, 1, 0, 97]), None),
    (V4, Data, entries!(1; [0, 1, u32::MAX, u32::MAX, 97]), None),
    (
        V4,
        Data,
        entries!(2; [0, 2, 1, 1, 97], [0, 1, 1, 1, 97]),
        Some(2),
    ),
    (
        V4,
        Data,
        entries!(2; [0, 1, 1, 1, 97], [1, 1, 1, 1, 97]),
        None,
    ),
    (
        V4,
        Data,
        entries!(2; [0, 1, 1, 1, 98], [0, 2, 1, 1, 97]),
        None,
    ),
    // the shortest entry of each version
    (
        V4,
        Data,
        &[
            1, 0, 0, 0, 0, 0, 0, 0, 0, 0, 0, 0, 0, 0, 0, 0, 0, 0, 0, 0, 0,
        ],
        Some(1),
    ),
    (
        V3,
        Data,
        &[1, 0, 0, 0, 0, 0, 0, 0, 0, 0, 0, 0, 0, 0, 0, 0, 0, 0, 0],
        Some(1),
    ),
    // a@1 in version 3 cut short in its count, before its key and before its value, and a@1 of the
    // other version
    (V3, Data, &[1, 0, 0], None),
    (
        V3,
        Data,
        &[1, 0, 0, 0, 0, 1, 0, 0, 0, 0, 0, 0, 0, 1, 0, 1, 0, 0],
        None,
    ),
    (
        V3,
        Data,
        &[
            1, 0, 0, 0, 0, 1, 0, 0, 0, 0, 0, 0, 0, 1, 0, 1, 0, 0, 0, 0x61,
        ],
        None,
    ),
    (
        V3,
        Data,
        &[
            1, 0, 0, 0, 0, 1, 0, 0, 0, 0, 0, 0, 0, 1, 0, 0, 0, 1, 0, 0, 0, 0x61, 0x78,
        ],
        None,
    ),
    (
        V4,
        Data,
        &[
            1, 0, 0, 0, 0, 1, 0, 0, 0, 0, 0, 0, 0, 1, 0, 1, 0, 0, 0, 0x61, 0x78,
        ],
        None,
    ),
    (V4, Index, handles!(0;), Some(0)),
    (V4, Index, handles!(1; [b'a', 1, 1]), Some(1)),
    (V4, Index, handles!(2; [b'a', 1, 2], [b'a', 1, 1]), Some(2)),
    (V4, Index, handles!(2; [b'a', 1, 1], [b'b', 1, 2]), Some(2)),
    // fewer handles or more than the count, a truncated end key, a byte after the last handle;
    // handles that are equal, with ascending sequence numbers, with descending keys
    (V4, Index, handles!(1;), None),
    (V4, Index, handles!(u32::MAX; [b'a', 1, 1]), None),
    (V4, Index, handles!(0; [b'a', 1, 1]), None),
    (V4, Index, handles!(1; [b'a', 2, 1]), None),
    (V4, Index, handles!(1; [b'a', 0, 1]), None),
    (V4, Index, handles!(2; [b'a', 1, 1], [b'a', 1, 1]), None),
    (V4, Index, handles!(2; [b'a', 1, 1], [b'a', 1, 2]), None),
    (V4, Index, handles!(2; [b'b', 1, 1], [b'a', 1, 0]), None),
    // fewer bytes than a count has, a truncated header, and the key length of the other version
    (V4, Index, &[1, 0, 0], None),
    (
        V4,
        Index,
        &[1, 0, 0, 0, 1, 0, 0, 0, 0, 0, 0, 0, 0, 0, 0, 0, 0, 0, 0, 0],
        None,
    ),
    (
        V4,
        Index,
        &[
            1, 0, 0, 0, 1, 0, 0, 0, 0, 0, 0, 0, 0, 0, 0, 0, 0, 0, 0, 0, 0x2d, 0, 0, 0, 1, 0, 0x61,
        ],
        None,
    ),
    (V4, Filter, &[30, 255], Some(0)),
];

// The number of entries or handles of a block.
fn count<A: Allocator>(block: Block<A>) -> usize {
    match block.kind() {
        Data | Meta => {
            let block = DataBlock::new(block);
            let len = block.len();
            drop(block);
            len
        }
        Index => {
            let block = IndexBlock::new(block);
            let len = block.len();
            drop(block);
            len
        }
        Filter => 0,
    }
}

// The number of entries or handles of a table's block; `None` where its payload is invalid.
fn count_told<A: Allocator + Copy>(
    source: &BlockSource<A>,
    kind: BlockType,
) -> Result<Option<usize>, Error> {
    match source.load_at(0, kind, &mut Opened::none()) {
        Ok(block) => Ok(Some(count(block))),
        Err(Error::InvalidBlock) => Ok(None),
        Err(error) => Err(error),
    }
}

// The result of loading a row's payload, and how many requests for memory the load makes.
fn returned(heap: &Refusing, row: &Row) -> Result<(Option<usize>, usize), Error> {
    let (version, kind, payload, _) = *row;
    let source = source_of(heap, version, kind, payload)?;
    let before = heap.requests();
    let count = count_told(&source, kind);
    drop(source);
    Ok((count?, heap.requests().saturating_sub(before)))
}

/// The number of cases in both tables above.
pub(crate) const CASES: usize = AT_ONCE.len() + LOADED.len();

/// Whether the load at an index of both tables returns its result; or `OutOfMemory`, where it may
/// fail. The first table's loads make no request for memory once the table is made.
pub(crate) fn is_so_at(heap: &Refusing, place: usize, may_fail: bool) -> bool {
    let is_at_once = place < AT_ONCE.len();
    let row = match AT_ONCE.get(place) {
        Some(row) => Some(row),
        None => LOADED.get(place.saturating_sub(AT_ONCE.len())),
    };
    match row {
        Some(row) => match returned(heap, row) {
            Ok((count, requests)) => count == row.3 && (requests == 0 || !is_at_once),
            Err(error) => may_fail && error == Error::OutOfMemory,
        },
        None => false,
    }
}
