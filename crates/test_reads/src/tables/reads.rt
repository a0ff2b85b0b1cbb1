//! Reads of tables: tables of an independent program, unchanged or with some of their bytes
//! changed, and written tables.
//!
//! Each read that depends on a changed byte fails, and no other. Each read has its number of loads.
//! `test_vectors` changes each byte in turn, and compares all reads.
use crate::tables::refusals::{DATA_AT, FF};
use crate::tables::{
    ALL_PINS, BELITTLED, Changed, Of, Parted, Pins, Sought, UNDERSTATED, cloned, counted_read,
    opened,
};
use lsm_tables::table::Table;
use sst_blocks::{Error, SeqNo};
use std::alloc::Global;
use test_support::samples::large::{asked, asked_with};

// The pinned parts.
pub(crate) const BOTH: Pins = (true, true);

const NO_FILTER: Pins = (false, true);

const NO_INDEX: Pins = (true, false);

const NEITHER: Pins = (false, false);

// The error of opening, or the result of a read. This is the sequence number found, if any, and the
// numbers of data, index and filter blocks loaded.
type Answer = Result<(Result<Option<SeqNo>, Error>, [u64; 3]), Error>;

// The result of a read of an open table.
fn answer_of(table: &Table, sought: Sought) -> Answer {
    Ok(counted_read(table, sought.0, sought.1))
}

// Whether a read of a clone of a table has this result after the table is dropped; or whether
// opening fails so.
fn is_answered(table: Result<Table, Error>, sought: Sought, expected: &Answer) -> bool {
    asked_with(asked(table, cloned), sought, answer_of) == *expected
}

// The offsets of up to three bytes, and their new values. A reference in a table of cases costs a
// proof more than the rest of the case, so most cases have none.
pub(crate) type Bytes = ((usize, u8), (usize, u8), (usize, u8));

// No byte.
pub(crate) const NO: (usize, u8) = (usize::MAX, 0);

const WHOLE: Bytes = (NO, NO, NO);

// A table, some bytes, the pins, and a global sequence number.
pub(crate) type Damaged = (Of, Bytes, Pins, SeqNo);

// The table with these bytes changed.
pub(crate) fn damaged(alloc: Global, damaged: &Damaged) -> Result<Table, Error> {
    let (first, second, third) = damaged.1;
    let (one, two, three) = ([first.1], [second.1], [third.1]);
    let changes: [(usize, &[u8]); 3] = [(first.0, &one), (second.0, &two), (third.0, &three)];
    opened(
        alloc,
        &(damaged.0, changes.as_slice(), damaged.2, damaged.3),
    )
}

// The result of a read of a@1 in the table of one entry.
const FINDS_1: Answer = Ok((Ok(Some(1)), [1, 0, 0]));

const MISMATCH: Error = Error::ChecksumMismatch;

// The last byte of the second partition of the index.
const PART_OF_INDEX: Damaged = (Of::Levels, ((277, b'?'), NO, NO), BOTH, 0);

// The last byte of the whole index.
const WHOLE_INDEX: Damaged = (Of::One, ((95, b'?'), NO, NO), NO_INDEX, 0);

// The last byte of the whole filter.
const WHOLE_FILTER: Damaged = (Of::Filtered, ((128, b'?'), NO, NO), NO_FILTER, 0);

// The last byte of the first partition of the filter.
const PART_OF_FILTER: Damaged = (Of::FilterParts, ((328, b'?'), NO, NO), BOTH, 0);

// The last byte of each of four data blocks of 44 bytes, except the second.
const THREE_BLOCKS: Bytes = ((43, b'?'), (131, b'?'), (175, b'?'));

const IN_FILTER_PARTS: Damaged = (Of::FilterParts, THREE_BLOCKS, BOTH, 0);

const IN_LEVELS: Damaged = (Of::Levels, THREE_BLOCKS, BOTH, 0);

// The largest sequence number.
pub(crate) const LARGEST: &[u8] = &[0xff; 8];

const UNCHANGED: Damaged = (Of::FilterParts, WHOLE, BOTH, 0);

// The first handle of the filter's top level, that of `a`, gets the largest sequence number, and
// the block its checksum.
const LARGEST_AT_FIRST: Changed<'static> = (
    Of::FilterParts,
    &[
        (378, &[0x49, 0x67, 0x3a, 0xbd, 0xbd, 0x01, 0xfe, 0xe5]),
        (390, LARGEST),
    ],
    BOTH,
    0,
);

// The last handle of the filter's top level, that of `b`, gets the largest sequence number, and the
// block its checksum.
const LARGEST_AT_LAST: Changed<'static> = (
    Of::FilterParts,
    &[
        (378, &[0x49, 0x1d, 0x37, 0xb0, 0x80, 0x97, 0xf3, 0xf4]),
        (413, LARGEST),
    ],
    BOTH,
    0,
);

// Changes of more than three bytes, a read, and its result.
static CHANGED_READS: [(Changed<'static>, Sought, Answer); 12] = [
    // changes that opening does not detect: no data section;
    ((Of::One, &[(DATA_AT, &FF)], BOTH, 0), (b"a", 2), FINDS_1),
    // an item of the meta block is read below the largest sequence number, whatever its tag
    (
        (
            Of::One,
            &[
                (113, &[242, 66, 123, 10, 63, 159, 186, 194]),
                (912, &[254, 255, 255, 255, 255, 255, 255, 255]),
            ],
            BOTH,
            0,
        ),
        (b"a", 2),
        FINDS_1,
    ),
    (
        (
            Of::One,
            &[(113, &[224, 241, 228, 160, 42, 102, 54, 2]), (911, &[1])],
            BOTH,
            0,
        ),
        (b"a", 2),
        FINDS_1,
    ),
    // the bytes of a number past its type are ignored: `item_count` has nine, and the item before
    // it, which is not read, none
    (
        (
            Of::One,
            &[
                (113, &[76, 6, 64, 197, 118, 194, 105, 42]),
                (
                    566,
                    &[
                        0, 0, 0, 0, 105, 110, 105, 116, 105, 97, 108, 95, 108, 101, 118, 101, 108,
                        0, 0, 0, 0, 0, 0, 0, 0, 0, 10, 0, 9, 0, 0, 0, 105, 116, 101, 109, 95, 99,
                        111, 117, 110, 116, 1, 0, 0, 0, 0, 0, 0, 0, 7,
                    ],
                ),
            ],
            BOTH,
            0,
        ),
        (b"a", 2),
        FINDS_1,
    ),
    // the partition of `b` is queried, and does not have `a`
    (LARGEST_AT_FIRST, (b"a", 10), Ok((Ok(None), [0, 0, 1]))),
    (
        LARGEST_AT_FIRST,
        (b"a", SeqNo::MAX),
        Ok((Ok(None), [0, 0, 1])),
    ),
    (LARGEST_AT_FIRST, (b"b", 2), Ok((Ok(Some(1)), [1, 0, 1]))),
    // no partition is left that could have `b`
    (LARGEST_AT_LAST, (b"b", 2), Ok((Ok(None), [0, 0, 0]))),
    (
        LARGEST_AT_LAST,
        (b"b", SeqNo::MAX),
        Ok((Ok(None), [0, 0, 0])),
    ),
    (LARGEST_AT_LAST, (b"a", 10), Ok((Ok(Some(9)), [1, 0, 1]))),
    // the snapshot less the global sequence number is 0, which no entry is below: nothing is loaded
    (BELITTLED, (b"a", SeqNo::MAX), Ok((Ok(None), [0, 0, 0]))),
    // it is above the lowest sequence number that the meta block describes, and no handle is below
    // it
    (UNDERSTATED, (b"a", SeqNo::MAX), Ok((Ok(None), [0, 0, 0]))),
];

// The letter for the empty key.
const EMPTY: u8 = 0;

fn key_of(letter: u8) -> &'static [u8] {
    match letter {
        b'a' => b"a",
        b'b' => b"b",
        b'c' => b"c",
        _ => b"",
    }
}

// A damaged table, a key of one letter and a snapshot, and the result.
type Read = (Damaged, (u8, SeqNo), Answer);

static READS: [Read; 57] = [
    // changes that opening does not detect: none; another version after the index
    ((Of::One, WHOLE, BOTH, 0), (b'a', 2), FINDS_1),
    ((Of::One, ((96, 9), NO, NO), BOTH, 0), (b'a', 2), FINDS_1),
    // the value, and the compression of the data block
    (
        (Of::One, ((44, b'y'), NO, NO), BOTH, 0),
        (b'a', 2),
        Ok((Err(MISMATCH), [1, 0, 0])),
    ),
    (
        (Of::One, ((5, 1), NO, NO), BOTH, 0),
        (b'a', 2),
        Ok((Err(Error::UnsupportedCompression), [1, 0, 0])),
    ),
    // the global sequence number is tested between the meta block and the index
    (
        (Of::One, WHOLE, BOTH, SeqNo::MAX),
        (b'a', 2),
        Err(Error::GlobalSeqNoTooLarge),
    ),
    (
        (Of::One, WHOLE, BOTH, SeqNo::MAX - 1),
        (b'a', 2),
        Ok((Ok(None), [0, 0, 0])),
    ),
    (
        (Of::One, ((121, 30), NO, NO), BOTH, SeqNo::MAX),
        (b'a', 2),
        Err(MISMATCH),
    ),
    (
        (Of::One, ((50, 1), NO, NO), BOTH, SeqNo::MAX),
        (b'a', 2),
        Err(Error::GlobalSeqNoTooLarge),
    ),
    // opening loads a full index and a full filter that are pinned
    (
        (Of::One, ((95, b'?'), NO, NO), BOTH, 0),
        (b'a', 2),
        Err(MISMATCH),
    ),
    (
        (Of::Filtered, ((128, b'?'), NO, NO), BOTH, 0),
        (b'a', 2),
        Err(MISMATCH),
    ),
    // the index before the filter, or before its top level
    (
        (Of::Filtered, ((50, 1), (128, b'?'), NO), BOTH, 0),
        (b'a', 2),
        Err(Error::UnsupportedCompression),
    ),
    (
        (Of::FilterParts, ((181, 1), (435, b'?'), NO), BOTH, 0),
        (b'a', 2),
        Err(Error::UnsupportedCompression),
    ),
    // and a top level, which is always pinned
    (
        (Of::Levels, ((499, b'?'), NO, NO), NEITHER, 0),
        (b'a', 2),
        Err(MISMATCH),
    ),
    (
        (Of::FilterParts, ((435, b'?'), NO, NO), BOTH, 0),
        (b'a', 2),
        Err(MISMATCH),
    ),
    (
        (Of::FilterParts, ((435, b'?'), NO, NO), NO_FILTER, 0),
        (b'a', 2),
        Err(MISMATCH),
    ),
    (
        (Of::FilterParts, ((435, b'?'), NO, NO), NO_INDEX, 0),
        (b'a', 2),
        Err(MISMATCH),
    ),
    (
        (Of::FilterParts, ((435, b'?'), NO, NO), NEITHER, 0),
        (b'a', 2),
        Err(MISMATCH),
    ),
    // only the read of the damaged index partition fails
    (PART_OF_INDEX, (b'a', 8), Ok((Err(MISMATCH), [0, 1, 0]))),
    (PART_OF_INDEX, (b'a', 10), Ok((Ok(Some(9)), [1, 1, 0]))),
    (PART_OF_INDEX, (b'a', 6), Ok((Ok(Some(5)), [1, 1, 0]))),
    (PART_OF_INDEX, (b'b', 2), Ok((Ok(Some(1)), [1, 1, 0]))),
    (PART_OF_INDEX, (b'c', 8), Ok((Ok(None), [0, 0, 0]))),
    // each read that loads the index fails
    (WHOLE_INDEX, (b'a', 2), Ok((Err(MISMATCH), [0, 1, 0]))),
    (WHOLE_INDEX, (b'c', 2), Ok((Err(MISMATCH), [0, 1, 0]))),
    (WHOLE_INDEX, (b'a', 1), Ok((Ok(None), [0, 0, 0]))),
    // each read that loads the filter fails; a snapshot at the lowest sequence number queries
    // nothing
    (WHOLE_FILTER, (b'a', 2), Ok((Err(MISMATCH), [0, 0, 1]))),
    (WHOLE_FILTER, (b'c', 2), Ok((Err(MISMATCH), [0, 0, 1]))),
    (WHOLE_FILTER, (b'a', 1), Ok((Ok(None), [0, 0, 0]))),
    // only the reads of the damaged partition's keys fail; after the last partition nothing is
    // queried
    (PART_OF_FILTER, (b'a', 8), Ok((Err(MISMATCH), [0, 0, 1]))),
    (PART_OF_FILTER, (EMPTY, 8), Ok((Err(MISMATCH), [0, 0, 1]))),
    (PART_OF_FILTER, (b'b', 2), Ok((Ok(Some(1)), [1, 0, 1]))),
    (PART_OF_FILTER, (b'a', 1), Ok((Ok(None), [0, 0, 0]))),
    (PART_OF_FILTER, (b'c', 8), Ok((Ok(None), [0, 0, 0]))),
    // only the reads of a damaged data block fail
    (IN_FILTER_PARTS, (b'a', 8), Ok((Ok(Some(7)), [1, 0, 1]))),
    (IN_FILTER_PARTS, (b'a', 10), Ok((Err(MISMATCH), [1, 0, 1]))),
    (IN_FILTER_PARTS, (b'a', 6), Ok((Err(MISMATCH), [1, 0, 1]))),
    (IN_FILTER_PARTS, (b'a', 5), Ok((Err(MISMATCH), [1, 0, 1]))),
    (IN_FILTER_PARTS, (b'b', 2), Ok((Err(MISMATCH), [1, 0, 1]))),
    (IN_LEVELS, (b'a', 8), Ok((Ok(Some(7)), [1, 1, 0]))),
    (IN_LEVELS, (b'a', 10), Ok((Err(MISMATCH), [1, 1, 0]))),
    (IN_LEVELS, (b'a', 6), Ok((Err(MISMATCH), [1, 1, 0]))),
    (IN_LEVELS, (b'a', 5), Ok((Err(MISMATCH), [1, 1, 0]))),
    (IN_LEVELS, (b'b', 2), Ok((Err(MISMATCH), [1, 1, 0]))),
    // a read queries the filter partition of the first handle whose end key is greater, or equal
    // with a sequence number below `u64::MAX`
    (UNCHANGED, (b'a', 10), Ok((Ok(Some(9)), [1, 0, 1]))),
    (UNCHANGED, (b'b', 2), Ok((Ok(Some(1)), [1, 0, 1]))),
    // the global sequence number is added, up to the largest sum, which is below no snapshot
    (
        (Of::Numbered(SeqNo::MAX - 1), WHOLE, BOTH, 0),
        (b'a', SeqNo::MAX),
        Ok((Ok(Some(SeqNo::MAX - 1)), [1, 0, 0])),
    ),
    (
        (Of::Numbered(SeqNo::MAX - 1), WHOLE, BOTH, 1),
        (b'a', SeqNo::MAX),
        Ok((Ok(None), [0, 0, 0])),
    ),
    (
        (Of::Numbered(SeqNo::MAX - 1), WHOLE, BOTH, 2),
        (b'a', SeqNo::MAX),
        Err(Error::GlobalSeqNoTooLarge),
    ),
    (
        (Of::Numbered(0), WHOLE, BOTH, SeqNo::MAX - 1),
        (b'a', SeqNo::MAX),
        Ok((Ok(Some(SeqNo::MAX - 1)), [1, 0, 0])),
    ),
    (
        (Of::Numbered(0), WHOLE, BOTH, SeqNo::MAX),
        (b'a', SeqNo::MAX),
        Ok((Ok(None), [0, 0, 0])),
    ),
    (
        (Of::Numbered(1), WHOLE, BOTH, SeqNo::MAX),
        (b'a', SeqNo::MAX),
        Err(Error::GlobalSeqNoTooLarge),
    ),
    (
        (Of::Numbered(3), WHOLE, BOTH, SeqNo::MAX - 3),
        (b'a', SeqNo::MAX),
        Ok((Ok(None), [0, 0, 0])),
    ),
    (
        (Of::Numbered(3), WHOLE, BOTH, SeqNo::MAX - 2),
        (b'a', SeqNo::MAX),
        Err(Error::GlobalSeqNoTooLarge),
    ),
    (
        (Of::Numbered(3), WHOLE, BOTH, 10),
        (b'a', 14),
        Ok((Ok(Some(13)), [1, 0, 0])),
    ),
    (
        (Of::Numbered(3), WHOLE, BOTH, 10),
        (b'a', 13),
        Ok((Ok(None), [0, 0, 0])),
    ),
    (
        (Of::Numbered(3), WHOLE, BOTH, 10),
        (b'a', 10),
        Ok((Ok(None), [0, 0, 0])),
    ),
    // an index with an interval of two is written, and not opened
    (
        (Of::Interval, WHOLE, BOTH, 0),
        (b'a', 2),
        Err(Error::UnsupportedIndexInterval),
    ),
];

// The index of the first read with another result.
fn wrong_read(alloc: Global, reads: &[Read]) -> Option<usize> {
    for (place, (table, (letter, bound), expected)) in reads.iter().enumerate() {
        let sought = (key_of(*letter), *bound);
        if !is_answered(damaged(alloc, table), sought, expected) {
            return Some(place);
        }
    }
    None
}

// The index of the first read after other changes with another result.
fn wrong_changed_read(alloc: Global) -> Option<usize> {
    for (place, (changed, sought, expected)) in CHANGED_READS.iter().enumerate() {
        if !is_answered(opened(alloc, changed), *sought, expected) {
            return Some(place);
        }
    }
    None
}

#[test]
fn what_does_not_rest_on_the_damage_is_read(rt: HostRuntime) {
    assert!(rt; wrong_read(rt.alloc(), &READS) == None);
    assert!(rt; wrong_changed_read(rt.alloc()) == None);
}

// ---- each pair of pins

// The length of the filter, and the numbers of its bytes and of the index's bytes that are pinned.
type Sizes = (u32, usize, usize);

// A key, a snapshot, and the sequence number that is found, if any. Then the numbers of data, index
// and filter blocks loaded under each pair of pins.
type Pinned = (&'static [u8], SeqNo, Option<SeqNo>, [[u64; 3]; 4]);

const NOTHING: [[u64; 3]; 4] = [[0; 3]; 4];

const A_PART: [[u64; 3]; 4] = [[1, 0, 1], [1, 1, 1], [1, 0, 1], [1, 1, 1]];

const UNFILTERED: [[u64; 3]; 4] = [[1, 0, 0], [1, 1, 0], [1, 0, 0], [1, 1, 0]];

const NO_HANDLE: [[u64; 3]; 4] = [[0, 0, 0], [0, 1, 0], [0, 0, 0], [0, 1, 0]];

// Reads of a@9, a@7, a@5 and b@1 in a block each, by one index block and without a filter.
const OF_FOUR_BLOCKS: [Pinned; 5] = [
    (b"a", 10, Some(9), UNFILTERED),
    (b"a", 8, Some(7), UNFILTERED),
    (b"a", 5, None, UNFILTERED),
    (b"b", 2, Some(1), UNFILTERED),
    (b"c", 100, None, NO_HANDLE),
];

// Reads of these by one index block, with a partition of the filter for each key.
const OF_FILTER_PARTS: [Pinned; 8] = [
    (b"", 2, None, [[0, 0, 1]; 4]),
    (b"a", 1, None, NOTHING),
    (b"a", 2, None, A_PART),
    (b"a", 6, Some(5), A_PART),
    (b"a", 8, Some(7), A_PART),
    (b"aa", SeqNo::MAX, None, [[0, 0, 1]; 4]),
    (b"b", 100, Some(1), A_PART),
    // no part of the filter reaches the key
    (b"c", 100, None, NOTHING),
];

// Whether a table has these sizes, and reads have their results under the pair of pins at an index.
fn answers(table: &Table, by: (&[Sizes; 4], &[Pinned], usize)) -> Result<bool, Error> {
    let sizes = (
        table.filter_size(),
        table.pinned_filter_size(),
        table.pinned_block_index_size(),
    );
    let (all, reads, at) = by;
    for (key, seqno, found, loads) in reads {
        let (number, loaded) = counted_read(table, key, *seqno);
        if number != Ok(*found) || loads.get(at) != Some(&loaded) {
            return Ok(false);
        }
    }
    Ok(all.get(at) == Some(&sizes))
}

// Whether a table does so under each pair of pins.
fn all_answer(alloc: Global, of: Of, all: &[Sizes; 4], reads: &[Pinned]) -> bool {
    for (at, pins) in ALL_PINS.iter().enumerate() {
        let table = opened(alloc, &(of, &[], *pins, 0));
        if !matches!(asked_with(table, (all, reads, at), answers), Ok(true)) {
            return false;
        }
    }
    true
}

// Reads of a@9, a@7 and a@5 by a two-level index: a read loads one partition and one data block.
// After the last key the top level, which is always pinned, has no handle.
const BY_PARTITIONS: [Pinned; 3] = [
    (b"a", 8, Some(7), [[1, 1, 0]; 4]),
    (b"a", 5, None, [[1, 1, 0]; 4]),
    (b"c", 100, None, NOTHING),
];

// The empty key in a table of `a`: the filter rejects it; without a filter the first data block is
// searched.
const FILTERED_OUT: [Pinned; 1] = [(b"", 2, None, [[0; 3], [0; 3], [0, 0, 1], [0, 0, 1]])];

const NOT_FILTERED_OUT: [Pinned; 1] = [(b"", 2, None, UNFILTERED)];

const OF_FOUR: [Sizes; 4] = [(0, 0, 104), (0, 0, 0), (0, 0, 104), (0, 0, 0)];

const OF_PARTS: [Sizes; 4] = [(66, 0, 104), (66, 0, 0), (66, 0, 104), (66, 0, 0)];

// The top level of an index of one partition has a count of 4, and a key of one byte with 24 for
// its handle. The partition of a filter has 33 bytes.
const OF_FORGETTING: [Sizes; 4] = [(33, 0, 29); 4];

const BY_ONE_PARTITION: [Pinned; 2] = [
    (b"a", 8, Some(7), [[1, 1, 1]; 4]),
    (b"c", 100, None, NOTHING),
];

// A filter of one key has 9 bytes, and a header of 24.
const OF_DEFAULT: [Sizes; 4] = [(33, 9, 29), (33, 9, 0), (33, 0, 29), (33, 0, 0)];

const OF_ONE: [Sizes; 4] = [(0, 0, 29), (0, 0, 0), (0, 0, 29), (0, 0, 0)];

// In the older table version a handle is 2 bytes shorter.
const OF_FILTERED: [Sizes; 4] = [(33, 9, 27), (33, 9, 0), (33, 0, 27), (33, 0, 0)];

// A table, its sizes and reads under each pair of pins.
const PINNED: &[(Of, [Sizes; 4], &[Pinned])] = &[
    (Of::Rows(Parted::Nothing), OF_FOUR, &OF_FOUR_BLOCKS),
    (Of::Keys, OF_PARTS, &OF_FILTER_PARTS),
    (Of::Forgetting, OF_FORGETTING, &BY_ONE_PARTITION),
    (Of::Rows(Parted::Index), [(0, 0, 104); 4], &BY_PARTITIONS),
    (Of::Levels, [(0, 0, 96); 4], &BY_PARTITIONS),
    (Of::Default, OF_DEFAULT, &FILTERED_OUT),
    (Of::Filtered, OF_FILTERED, &FILTERED_OUT),
    (Of::Numbered(1), OF_ONE, &NOT_FILTERED_OUT),
];

// `test_vectors` has such reads of other tables.
#[test]
fn tables_are_read_under_each_pair_of_pins(rt: HostRuntime) {
    for (of, sizes, reads) in PINNED {
        assert!(rt; all_answer(rt.alloc(), *of, sizes, reads));
    }
}
