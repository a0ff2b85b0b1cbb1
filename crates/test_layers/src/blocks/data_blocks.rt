//! Data blocks: encoding of entries; point reads, seeks and cursors in a loaded block and in its
//! source.

use crate::blocks::large::{Size, Within, part};
use crate::blocks::payloads::{data_block, source_of};
use crate::blocks::walks::{Edge, NONE, Walk, Walked, refusal, walks_so};
use crate::blocks::written::{Reported, is_written, length_behind_seven};
use crate::sections::tables::{handle, table_of};
use sst_blocks::Direction::{Back, Front};
use sst_blocks::{
    BlockHandle, BlockSource, BlockType, DataBlock, DataBlockCursor, DataBlockIter, Direction,
    EntryPlace, EntryRef, Error, InternalValue, IterItem, Opened, SectionName, SeqNo, Slice,
    TableVersion, ValueType, are_strict, data_block_bound,
};
use std::alloc::{AllocError, Allocator, Global};
use test_support::Refusing;

fn entry<A: Allocator>(row: &EntryRef<'static>) -> InternalValue<A> {
    let (key, value) = (
        Slice::from_static(row.user_key),
        Slice::from_static(row.value),
    );
    InternalValue::from_components(key, value, row.seqno, row.value_type)
}

fn entries_of<A: Allocator>(
    alloc: A,
    rows: &[EntryRef<'static>],
) -> Result<Vec<InternalValue<A>, A>, Error> {
    let mut entries = Vec::new(alloc);
    for row in rows {
        entries.push(entry(row))?;
    }
    Ok(entries)
}

impl Within for InternalValue {
    fn within(bytes: &Slice, start: usize, size: &Size, key_len: usize) -> Result<Self, Error> {
        let key = part(bytes, start, key_len)?;
        let value = part(bytes, 8192, size.value_len)?;
        Ok(InternalValue::from_components(key, value, 1, ValueType::Value))
    }
}

// Encodes some entries at the end of `buf`. Returns the bound on their block, and the result.
fn encoded<A: Allocator>(
    buf: &mut Vec<u8, A>,
    items: &[InternalValue<A>],
) -> (u64, Result<(), Error>) {
    if !are_strict(items) {
        return (0, Err(Error::InvalidBlock));
    }
    (
        data_block_bound(items),
        DataBlock::encode_into(buf, items, 16, 0),
    )
}

/// Encodes some entries and compares the bytes with the expected payload.
pub(crate) fn returned<A: Allocator>(
    alloc: A,
    entries: Result<Vec<InternalValue<A>, A>, Error>,
    payload: &[u8],
) -> Result<Reported, Error> {
    let entries = entries?;
    let mut written = Vec::from_slice(alloc, &[7])?;
    let (bound, done) = encoded(&mut written, &entries);
    drop(entries);
    let is_it = written.get(1..) == Some(payload);
    Ok((bound, length_behind_seven(&written, done), is_it))
}

impl<A: Allocator> Walk for DataBlockIter<'_, A> {
    fn narrow(&mut self, edge: Edge, key: &[u8], _: SeqNo) -> bool {
        match edge {
            Edge::AtLeast => self.seek(key),
            Edge::Above => self.seek_exclusive(key),
            Edge::AtMost => self.seek_upper(key),
            Edge::Below => self.seek_upper_exclusive(key),
        }
    }

    fn give(&mut self, end: Direction) -> u64 {
        let given = match end {
            Front => self.next(),
            Back => self.next_back(),
        };
        match given {
            Some(Ok(item)) => {
                let number = item.key.seqno;
                drop(item);
                number
            }
            Some(Err(error)) => refusal(error),
            None => NONE,
        }
    }
}

// A payload, its entries, iterations, and point reads: a key, a snapshot and the index of the entry
// found (99 if none).
struct Stored {
    version: TableVersion,
    payload: &'static [u8],
    rows: &'static [EntryRef<'static>],
    reads: &'static [(&'static [u8], SeqNo, usize)],
    walks: &'static [Walked],
}

// Whether a point read finds the wanted entry, or none; or `OutOfMemory`, where it may fail.
fn is_found<A: Allocator>(
    found: Option<IterItem<A>>,
    wanted: Option<&EntryRef<'static>>,
    may_fail: bool,
) -> bool {
    match found {
        Some(Ok(item)) => wanted == Some(&item.as_entry_ref()),
        Some(Err(error)) => may_fail && error == Error::OutOfMemory,
        None => wanted.is_none(),
    }
}

// Whether a block has its entries and no others, and its point reads and iterators return what they
// should.
fn is_read_so<A: Allocator>(block: &DataBlock<A>, stored: &Stored, may_fail: bool) -> bool {
    if block.len() != stored.rows.len() || block.is_empty() != stored.rows.is_empty() {
        return false;
    }
    for place in 0..block.len() {
        let entry = block.entry_ref(place);
        let key = (entry.user_key, entry.seqno);
        if stored.rows.get(place) != Some(&entry) || block.key_at(place) != key {
            return false;
        }
    }
    for &(key, seqno, place) in stored.reads {
        let found = block.point_read(key, seqno).transpose();
        if !is_found(found, stored.rows.get(place), may_fail) {
            return false;
        }
    }
    for &(seeks, given) in stored.walks {
        if !walks_so(&mut block.iter(), seeks, given, may_fail) {
            return false;
        }
    }
    true
}

// Whether a cursor advances to an entry, borrows it and shares it.
fn lends_next<A: Allocator>(
    cursor: &mut DataBlockCursor<A>,
    row: &EntryRef<'static>,
    may_fail: bool,
) -> bool {
    cursor.advance()
        && cursor.entry() == Some(*row)
        && is_found(Some(cursor.share()), Some(row), may_fail)
}

// Whether a cursor yields these entries and then nothing.
fn lends_so<A: Allocator>(
    cursor: &mut DataBlockCursor<A>,
    rows: &[EntryRef<'static>],
    may_fail: bool,
) -> bool {
    let mut is_so = cursor.entry().is_none();
    for row in rows {
        is_so &= lends_next(cursor, row, may_fail);
    }
    !cursor.advance() && cursor.entry().is_none() && is_so
}

// Whether a cursor that is ended after the first entry, if there is one, yields nothing more.
fn lends_none_once_ended<A: Allocator>(cursor: &mut DataBlockCursor<A>, has_one: bool) -> bool {
    let begins = cursor.advance() == has_one;
    cursor.end();
    begins && cursor.entry().is_none() && !cursor.advance()
}

// Whether a cursor yields these entries, from the front and the back in turn, and then nothing.
fn lends_by_turns<A: Allocator>(
    cursor: &mut DataBlockCursor<A>,
    rows: &[EntryRef<'static>],
) -> bool {
    let mut first = 0usize;
    let mut last = rows.len();
    let mut is_so = true;
    for turn in 0..rows.len() {
        if turn % 2 == 0 {
            is_so &= cursor.advance() && cursor.entry() == rows.get(first).copied();
            first = first.saturating_add(1);
        } else {
            last = last.saturating_sub(1);
            is_so &= cursor.advance_back() && cursor.entry() == rows.get(last).copied();
        }
    }
    cursor.unlend();
    is_so && cursor.entry().is_none() && !cursor.advance_back() && !cursor.advance()
}

// Whether a cursor from the second entry on yields these from both ends.
fn lends_behind_the_first<A: Allocator>(block: DataBlock<A>, rows: &[EntryRef<'static>]) -> bool {
    let len = block.len();
    let mut cursor = block.into_cursor_of(1, len);
    lends_by_turns(&mut cursor, rows.get(1..).unwrap_or_default())
}

// Whether a clone that outlives its block reads like it, and its cursor yields the same entries.
fn is_cloned_so<A: Allocator>(
    copy: Result<DataBlock<A>, AllocError>,
    stored: &Stored,
    may_fail: bool,
) -> bool {
    match copy {
        Ok(copy) => {
            let is_so = is_read_so(&copy, stored, may_fail);
            let mut cursor = copy.into_cursor();
            let is_lent = lends_so(&mut cursor, stored.rows, may_fail);
            drop(cursor);
            is_so && is_lent
        }
        Err(_) => may_fail,
    }
}

// Whether a block, which is dropped, reads as it should, and then its clone.
fn both_are_read_so<A: Allocator>(block: DataBlock<A>, stored: &Stored, may_fail: bool) -> bool {
    let copy: Result<_, _> = block.clone();
    let is_so = is_read_so(&block, stored, may_fail);
    let again: Result<_, _> = block.clone();
    let mut cursor = block.into_cursor();
    let is_ended = lends_none_once_ended(&mut cursor, !stored.rows.is_empty());
    drop(cursor);
    let is_part = match again {
        Ok(again) => lends_behind_the_first(again, stored.rows),
        Err(_) => may_fail,
    };
    is_cloned_so(copy, stored, may_fail) && is_so && is_ended && is_part
}

// Whether entries are encoded as their payload; or `OutOfMemory`, where it may fail.
fn is_written_so(heap: &Refusing, stored: &Stored, may_fail: bool) -> bool {
    let returned = returned(heap, entries_of(heap, stored.rows), stored.payload);
    is_written(returned, stored.payload, may_fail)
}

// Whether a payload reads as it should; or `OutOfMemory`, where it may fail.
fn is_loaded_so<A: Allocator + Copy>(alloc: A, stored: &Stored, may_fail: bool) -> bool {
    match data_block(alloc, stored.version, stored.payload) {
        Ok(block) => both_are_read_so(block, stored, may_fail),
        Err(error) => may_fail && error == Error::OutOfMemory,
    }
}

// An entry of a key, a sequence number, a kind and a value.
macro_rules! row {
    ($key:expr, $seqno:expr, $kind:ident, $value:expr) => {
        EntryRef {
            user_key: $key,
            seqno: $seqno,
            value_type: ValueType::$kind,
            value: $value,
        }
    };
}

// a@1, a value of `x`.
const ONE: &[EntryRef<'static>] = &[row!(b"a", 1, Value, b"x")];

const ONE_IN_V3: &[u8] = &[
    1, 0, 0, 0, 0, 1, 0, 0, 0, 0, 0, 0, 0, 1, 0, 1, 0, 0, 0, 0x61, 0x78,
];

const ONE_IN_V4: &[u8] = &[
    1, 0, 0, 0, 0, 1, 0, 0, 0, 0, 0, 0, 0, 1, 0, 0, 0, 1, 0, 0, 0, 0x61, 0x78,
];

const READS_OF_ONE: &[(&[u8], SeqNo, usize)] = &[(b"a", 2, 0), (b"a", 1, 99)];

// a@9, a@7 as a tombstone, a@5, c@0 and e@3.
const FIVE: &[EntryRef<'static>] = &[
    row!(b"a", 9, Value, b"newest"),
    row!(b"a", 7, Tombstone, b""),
    row!(b"a", 5, Value, b""),
    row!(b"c", 0, WeakTombstone, b""),
    row!(b"e", 3, Indirection, b"far"),
];

// A count, and for each entry: tag, sequence number, length of the key, length of the value, key,
// value.
const FIVE_IN_V4: &[u8] = &[
    5, 0, 0, 0, //
    0, 9, 0, 0, 0, 0, 0, 0, 0, 1, 0, 0, 0, 6, 0, 0, 0, b'a', b'n', b'e', b'w', b'e', b's', b't', //
    1, 7, 0, 0, 0, 0, 0, 0, 0, 1, 0, 0, 0, 0, 0, 0, 0, b'a', //
    0, 5, 0, 0, 0, 0, 0, 0, 0, 1, 0, 0, 0, 0, 0, 0, 0, b'a', //
    2, 0, 0, 0, 0, 0, 0, 0, 0, 1, 0, 0, 0, 0, 0, 0, 0, b'c', //
    4, 3, 0, 0, 0, 0, 0, 0, 0, 1, 0, 0, 0, 3, 0, 0, 0, b'e', b'f', b'a', b'r',
];

const READS_OF_FIVE: &[(&[u8], SeqNo, usize)] = &[
    (b"", u64::MAX, 99),
    (b"a", u64::MAX, 0),
    (b"a", 10, 0),
    (b"a", 9, 1),
    (b"a", 8, 1),
    (b"a", 7, 2),
    (b"a", 6, 2),
    (b"a", 5, 99),
    (b"a", 0, 99),
    (b"aa", u64::MAX, 99),
    (b"b", u64::MAX, 99),
    (b"c", 1, 3),
    (b"c", 0, 99),
    (b"d", u64::MAX, 99),
    (b"e", 4, 4),
    (b"e", 3, 99),
    (b"f", u64::MAX, 99),
];

// A seek, and the sequence numbers of the first and the last entry; the last is 99 where there are
// fewer than two.
macro_rules! ends {
    ($edge:ident, $key:expr, $first:expr, $last:expr) => {
        (
            &[(Edge::$edge, $key, 0, $first != 99)],
            &[(Front, $first), (Back, $last)],
        )
    };
}

const WALKS_OF_FIVE: &[Walked] = &[
    ends!(AtLeast, b"a", 9, 3),
    ends!(AtLeast, b"b", 0, 3),
    ends!(AtLeast, b"c", 0, 3),
    ends!(AtLeast, b"e", 3, 99),
    ends!(AtLeast, b"f", 99, 99),
    ends!(Above, b"Z", 9, 3),
    ends!(Above, b"a", 0, 3),
    ends!(Above, b"c", 3, 99),
    ends!(Above, b"e", 99, 99),
    ends!(AtMost, b"Z", 99, 99),
    ends!(AtMost, b"a", 9, 5),
    ends!(AtMost, b"c", 9, 0),
    ends!(AtMost, b"f", 9, 3),
    ends!(Below, b"a", 99, 99),
    ends!(Below, b"c", 9, 5),
    ends!(Below, b"d", 9, 0),
    ends!(Below, b"f", 9, 3),
    // Both ends share one window.
    (
        &[],
        &[
            (Front, 9),
            (Back, 3),
            (Front, 7),
            (Back, 0),
            (Back, 5),
            (Front, 99),
            (Back, 99),
        ],
    ),
    (
        &[],
        &[
            (Back, 3),
            (Back, 0),
            (Back, 5),
            (Back, 7),
            (Back, 9),
            (Back, 99),
        ],
    ),
    // Bounds that cross at the first key leave nothing, whatever a later seek is.
    (
        &[
            (Edge::Above, b"a", 0, true),
            (Edge::AtMost, b"a", 0, false),
            (Edge::AtLeast, b"a", 0, false),
        ],
        &[(Front, 99), (Back, 99)],
    ),
];

const STORED: &[Stored] = &[
    Stored {
        version: TableVersion::V3,
        payload: &[0, 0, 0, 0],
        rows: &[],
        reads: &[(b"a", u64::MAX, 99)],
        walks: &[(&[], &[(Front, 99), (Back, 99)])],
    },
    Stored {
        version: TableVersion::V3,
        payload: ONE_IN_V3,
        rows: ONE,
        reads: READS_OF_ONE,
        walks: &[(&[], &[(Front, 1), (Back, 99)])],
    },
    Stored {
        version: TableVersion::V4,
        payload: ONE_IN_V4,
        rows: ONE,
        reads: READS_OF_ONE,
        walks: &[(&[], &[(Front, 1), (Back, 99)])],
    },
    Stored {
        version: TableVersion::V4,
        payload: FIVE_IN_V4,
        rows: FIVE,
        reads: READS_OF_FIVE,
        walks: WALKS_OF_FIVE,
    },
];

/// How many cases the table above has.
pub(crate) const CASES: usize = STORED.len();

/// Whether the case at an index reads as it should. If its version is still written, its entries
/// must also be encoded so. `OutOfMemory` counts as right where an allocation may fail.
pub(crate) fn is_so_at(heap: &Refusing, place: usize, may_fail: bool) -> bool {
    match STORED.get(place) {
        Some(stored) => {
            let is_old = matches!(stored.version, TableVersion::V3);
            (is_old || is_written_so(heap, stored, may_fail))
                && is_loaded_so(heap, stored, may_fail)
        }
        None => false,
    }
}

// ---- reads of a source

// Whether the source has the entry of `point_read` at the handle that `point_place` returns, or
// both calls return the same error.
fn is_placed(
    source: &BlockSource,
    place: Result<Option<EntryPlace>, Error>,
    found: &Result<Option<InternalValue>, Error>,
) -> bool {
    match (place, found) {
        (Ok(Some(place)), Ok(Some(item))) => source.entry_at(&place) == Some(item.as_entry_ref()),
        (Ok(None), Ok(None)) => true,
        (Err(fault), Err(error)) => fault == *error,
        _ => false,
    }
}

// The entry that a point read of a source returns. `Source(9)` where `point_place` differs from
// `point_read`, or either does not count one load.
fn found_in(
    source: &BlockSource,
    handle: &BlockHandle,
    key: &[u8],
    seqno: SeqNo,
) -> Result<Option<InternalValue>, Error> {
    let mut opened = Opened::none();
    let place = source.point_place(handle, key, seqno, &mut opened);
    let counted = opened.data_loads == 1;
    let found = source.point_read(handle, key, seqno, &mut opened);
    if counted && opened.data_loads == 2 && is_placed(source, place, &found) {
        found
    } else {
        Err(Error::Source(9))
    }
}

// Whether point reads of the source of a payload find what they should. The second call reads a
// block that is already verified.
fn is_found_in_source(alloc: Global, stored: &Stored) -> Result<bool, Error> {
    let source = source_of(alloc, stored.version, BlockType::Data, stored.payload)?;
    let handle = handle(0, size_of(stored.payload));
    for &(key, seqno, place) in stored.reads {
        for _ in 0..2 {
            let found = found_in(&source, &handle, key, seqno)?;
            if !is_found(found.map(Ok), stored.rows.get(place), false) {
                return Ok(false);
            }
        }
    }
    Ok(true)
}

// The size of the block of a payload, with its header of 24 bytes.
fn size_of(payload: &[u8]) -> u32 {
    u32::try_from(payload.len().saturating_add(24)).unwrap_or(0)
}

// Changes of a table of five entries, the offset and size of the block that is read, and the error.
type Refused = (&'static [(usize, u8)], u64, u32, Error);

const REFUSED: &[Refused] = &[
    (&[], 0, 23, Error::Truncated),
    (&[], 0, 126, Error::InvalidHeader),
    (&[], 1_000, 127, Error::Truncated),
    (&[(126, b'?')], 0, 127, Error::ChecksumMismatch),
    (&[(5, 1)], 0, 127, Error::UnsupportedCompression),
];

// Whether a point read of each key fails with the expected error.
fn is_refused(alloc: Global, refused: &Refused) -> Result<bool, Error> {
    let (changes, offset, size, error) = refused;
    let blocks = [(BlockType::Data, FIVE_IN_V4, 0, 127)];
    let source = table_of(alloc, SectionName::Data, &blocks, changes)?;
    let handle = handle(*offset, *size);
    let mut is_so = true;
    for &(key, seqno, _) in READS_OF_FIVE {
        let found = found_in(&source, &handle, key, seqno);
        is_so &= found.err().as_ref() == Some(error);
    }
    Ok(is_so)
}

// Whether the last entry of the second of two blocks is read. A source that ends before this entry
// has nothing at its handle.
fn is_not_there(alloc: Global) -> Result<bool, Error> {
    let blocks = [
        (BlockType::Data, FIVE_IN_V4, 0, 127),
        (BlockType::Data, FIVE_IN_V4, 127, 127),
    ];
    let source = table_of(alloc, SectionName::Data, &blocks, &[])?;
    let other = source_of(alloc, TableVersion::V4, BlockType::Data, ONE_IN_V4)?;
    let place = source.point_place(&handle(127, 127), b"e", 4, &mut Opened::none())?;
    let Some(place) = place else {
        return Ok(false);
    };
    Ok(source.entry_at(&place) == FIVE.last().copied() && other.entry_at(&place).is_none())
}

#[test]
fn a_source_is_read_as_its_blocks(rt: HostRuntime) {
    for stored in STORED {
        assert!(rt; is_found_in_source(rt.alloc(), stored) == Ok(true));
    }
    for refused in REFUSED {
        assert!(rt; is_refused(rt.alloc(), refused) == Ok(true));
    }
    assert!(rt; is_not_there(rt.alloc()) == Ok(true));
}
