//! Index blocks: encoding of handles, reads and seeks.

use crate::blocks::large::{Size, Within, part};
use crate::blocks::payloads::index_block;
use crate::blocks::walks::{Edge, NONE, Walk, Walked, refusal, walks_so};
use crate::blocks::written::{Reported, is_written, length_behind_seven};
use sst_blocks::Direction::{Back, Front};
use sst_blocks::{
    BlockHandle, BlockOffset, BlockType, Direction, Error, IndexBlock, IndexBlockIter,
    KeyedBlockHandle, SeqNo, Slice, TableVersion, are_strict_handles, index_block_bound,
};
use std::alloc::{AllocError, Allocator};
use test_support::Refusing;

// An end key, its sequence number, and the offset and size of the block.
type Row = (&'static [u8], SeqNo, u64, u32);

fn handle<A: Allocator>(row: &Row) -> KeyedBlockHandle<A> {
    let (end_key, seqno, offset, size) = *row;
    let lies = BlockHandle::new(BlockOffset(offset), size);
    KeyedBlockHandle::new(Slice::from_static(end_key), seqno, lies)
}

fn handles_of<A: Allocator>(alloc: A, rows: &[Row]) -> Result<Vec<KeyedBlockHandle<A>, A>, Error> {
    let mut handles = Vec::new(alloc);
    for row in rows {
        handles.push(handle(row))?;
    }
    Ok(handles)
}

impl Within for KeyedBlockHandle {
    fn within(bytes: &Slice, start: usize, _: &Size, key_len: usize) -> Result<Self, Error> {
        let end_key = part(bytes, start, key_len)?;
        Ok(KeyedBlockHandle::new(end_key, 1, BlockHandle::new(BlockOffset(0), 24)))
    }
}

// Encodes some handles at the end of `buf`. Returns the bound on their block, and the result.
fn encoded<A: Allocator>(
    buf: &mut Vec<u8, A>,
    handles: &[KeyedBlockHandle<A>],
) -> (u64, Result<(), Error>) {
    if !are_strict_handles(handles) {
        return (0, Err(Error::InvalidBlock));
    }
    (
        index_block_bound(handles),
        IndexBlock::encode_into(buf, handles),
    )
}

/// Encodes some handles and compares the bytes with the expected payload.
pub(crate) fn returned<A: Allocator>(
    alloc: A,
    handles: Result<Vec<KeyedBlockHandle<A>, A>, Error>,
    payload: &[u8],
) -> Result<Reported, Error> {
    let handles = handles?;
    let mut written = Vec::from_slice(alloc, &[7])?;
    let (bound, done) = encoded(&mut written, &handles);
    drop(handles);
    let is_it = written.get(1..) == Some(payload);
    Ok((bound, length_behind_seven(&written, done), is_it))
}

impl<A: Allocator> Walk for IndexBlockIter<'_, A> {
    fn narrow(&mut self, edge: Edge, key: &[u8], seqno: SeqNo) -> bool {
        match edge {
            Edge::AtLeast | Edge::Above => self.seek(key, seqno),
            Edge::AtMost | Edge::Below => self.seek_upper(key, seqno),
        }
    }

    fn give(&mut self, end: Direction) -> u64 {
        let given = match end {
            Front => self.next(),
            Back => self.next_back(),
        };
        match given {
            Some(Ok(handle)) => {
                let position = handle.offset().0;
                drop(handle);
                position
            }
            Some(Err(error)) => refusal(error),
            None => NONE,
        }
    }
}

// A payload, its handles, iterations, and finds. A find is a key, a sequence number and the block
// offset of the first handle that reaches them (99 if none).
struct Stored {
    version: TableVersion,
    payload: &'static [u8],
    rows: &'static [Row],
    reached: &'static [(&'static [u8], SeqNo, u64)],
    walks: &'static [Walked],
}

// Whether a block has its handles and no others, and finds, seeks and iterators return what they
// should. Each handle is found at the sequence number above its own.
fn is_read_so<A: Allocator>(block: &IndexBlock<A>, stored: &Stored, may_fail: bool) -> bool {
    if block.len() != stored.rows.len() || block.is_empty() != stored.rows.is_empty() {
        return false;
    }
    for place in 0..block.len() {
        let lies = block.place_at(place);
        let is_there = match stored.rows.get(place) {
            Some(&(end_key, seqno, offset, size)) => {
                lies == BlockHandle::new(BlockOffset(offset), size)
                    && block.find(end_key, seqno.saturating_add(1)) == Some(lies)
            }
            None => false,
        };
        if !is_there {
            return false;
        }
    }
    for &(key, seqno, first) in stored.reached {
        let found = match block.find(key, seqno) {
            Some(handle) => handle.offset().0,
            None => NONE,
        };
        let seeks = [(Edge::AtLeast, key, seqno, first != NONE)];
        if found != first || !walks_so(&mut block.iter(), &seeks, &[(Front, first)], may_fail) {
            return false;
        }
    }
    for &(seeks, given) in stored.walks {
        if !walks_so(&mut block.iter(), seeks, given, may_fail) {
            return false;
        }
    }
    true
}

// A clone of a value, which outlives it, if cloning makes no request for memory.
fn cloned_without_memory<T: Clone + Drop>(heap: &Refusing, value: T) -> Result<T, AllocError> {
    let requests = heap.requests();
    let copy: Result<T, AllocError> = value.clone();
    drop(value);
    if heap.requests() == requests {
        copy
    } else {
        Err(AllocError)
    }
}

// Whether a clone that outlives a loaded block reads as it should; or `OutOfMemory`, where it may
// fail.
fn is_loaded_so(heap: &Refusing, stored: &Stored, may_fail: bool) -> bool {
    match index_block(heap, stored.version, stored.payload) {
        Ok(block) => match cloned_without_memory(heap, block) {
            Ok(copy) => {
                let is_so = is_read_so(&copy, stored, may_fail);
                drop(copy);
                is_so
            }
            Err(_) => false,
        },
        Err(error) => may_fail && error == Error::OutOfMemory,
    }
}

// Whether handles are encoded as their payload; or `OutOfMemory`, where it may fail.
fn is_written_so(heap: &Refusing, stored: &Stored, may_fail: bool) -> bool {
    let returned = returned(heap, handles_of(heap, stored.rows), stored.payload);
    is_written(returned, stored.payload, may_fail)
}

const ONE_IN_V3: &[u8] = &[
    1, 0, 0, 0, 1, 0, 0, 0, 0, 0, 0, 0, 0, 0, 0, 0, 0, 0, 0, 0, 0x2d, 0, 0, 0, 1, 0, 0x61,
];

const ONE_IN_V4: &[u8] = &[
    1, 0, 0, 0, 1, 0, 0, 0, 0, 0, 0, 0, 0, 0, 0, 0, 0, 0, 0, 0, 0x2f, 0, 0, 0, 1, 0, 0, 0, 0x61,
];

// b@5, b@3, d@9 and f@1, with the offsets and sizes of their blocks.
const FOUR: &[Row] = &[
    (b"b", 5, 0, 10),
    (b"b", 3, 10, 10),
    (b"d", 9, 20, 10),
    (b"f", 1, 30, 10),
];

// A count, and for each handle: sequence number, offset, size, length of the end key, end key.
const FOUR_IN_V4: &[u8] = &[
    4, 0, 0, 0, //
    5, 0, 0, 0, 0, 0, 0, 0, 0, 0, 0, 0, 0, 0, 0, 0, 10, 0, 0, 0, 1, 0, 0, 0, b'b', //
    3, 0, 0, 0, 0, 0, 0, 0, 10, 0, 0, 0, 0, 0, 0, 0, 10, 0, 0, 0, 1, 0, 0, 0, b'b', //
    9, 0, 0, 0, 0, 0, 0, 0, 20, 0, 0, 0, 0, 0, 0, 0, 10, 0, 0, 0, 1, 0, 0, 0, b'd', //
    1, 0, 0, 0, 0, 0, 0, 0, 30, 0, 0, 0, 0, 0, 0, 0, 10, 0, 0, 0, 1, 0, 0, 0, b'f',
];

const REACHED_OF_FOUR: &[(&[u8], SeqNo, u64)] = &[
    (b"a", u64::MAX, 0),
    (b"b", 6, 0),
    (b"b", 5, 10),
    (b"b", 4, 10),
    (b"b", 3, 20),
    (b"b", 0, 20),
    (b"c", 0, 20),
    (b"c", 1, 20),
    (b"d", 10, 20),
    (b"d", 9, 30),
    (b"f", 2, 30),
    (b"f", 1, 99),
    (b"g", u64::MAX, 99),
];

const WALKS_OF_FOUR: &[Walked] = &[
    (&[], &[(Front, 0), (Back, 30)]),
    (
        &[],
        &[
            (Front, 0),
            (Front, 10),
            (Front, 20),
            (Front, 30),
            (Front, 99),
        ],
    ),
    // The last handle that remains is the first whose end key is above the key, or else the last of
    // all.
    (&[(Edge::AtMost, b"a", 0, true)], &[(Back, 0)]),
    (&[(Edge::AtMost, b"b", 0, true)], &[(Back, 20)]),
    (&[(Edge::AtMost, b"c", 0, true)], &[(Back, 20)]),
    (&[(Edge::AtMost, b"d", 0, true)], &[(Back, 30)]),
    (&[(Edge::AtMost, b"f", 0, true)], &[(Back, 30)]),
    (&[(Edge::AtMost, b"g", 0, true)], &[(Back, 30)]),
    (
        &[
            (Edge::AtLeast, b"b", 4, true),
            (Edge::AtMost, b"c", 0, true),
        ],
        &[(Back, 20), (Front, 10), (Front, 99), (Back, 99)],
    ),
    (
        &[
            (Edge::AtLeast, b"d", 9, true),
            (Edge::AtMost, b"a", 0, false),
        ],
        &[(Back, 99), (Front, 99), (Front, 99), (Back, 99)],
    ),
];

const STORED: &[Stored] = &[
    Stored {
        version: TableVersion::V3,
        payload: ONE_IN_V3,
        rows: &[(b"a", 1, 0, 45)],
        reached: &[(b"a", 1, 99)],
        walks: &[],
    },
    Stored {
        version: TableVersion::V4,
        payload: ONE_IN_V4,
        rows: &[(b"a", 1, 0, 47)],
        reached: &[(b"a", 1, 99)],
        walks: &[],
    },
    Stored {
        version: TableVersion::V4,
        payload: FOUR_IN_V4,
        rows: FOUR,
        reached: REACHED_OF_FOUR,
        walks: WALKS_OF_FOUR,
    },
];

/// How many cases the table above has.
pub(crate) const CASES: usize = STORED.len();

/// Whether the case at an index reads as it should. If its version is still written, its handles
/// must also be encoded so. `OutOfMemory` counts as right where an allocation may fail.
pub(crate) fn is_so_at(heap: &Refusing, place: usize, may_fail: bool) -> bool {
    match STORED.get(place) {
        Some(stored) => {
            let is_old = matches!(stored.version, TableVersion::V3);
            (is_old || is_written_so(heap, stored, may_fail))
                && is_loaded_so(heap, stored, may_fail)
        }
        None => false,
    }
}
