//! Lists that are written as one table, opened and read, and the metadata of the tables.
use example_calling::{read_back, write_and_find};
use lsm_sorted::Ranged;
use lsm_tables::table::{Scanner, Table, write_and_open};
use lsm_writers::Timestamp;
use sst_blocks::{Error, InternalValue, ItemName, SeqNo, ValueType};
use std::alloc::{Allocator, Global};
use std::ops::Bound;
use test_support::samples::large::{asked_if_any, asked_mut};
use test_support::samples::lists::list_of;
use test_support::samples::rows::Row;
use test_support::samples::runs::Bounds;
use test_support::samples::tables::open;

// The lists of cases, which refer to them by index: each reference in a table of cases makes its
// proof slower.
const LISTS: &[&[Row<'static>]] = &[
    &[],
    &[
        (b"a", 9, ValueType::Value, b"x"),
        (b"a", 7, ValueType::Tombstone, b""),
        (b"a", 5, ValueType::Value, b"y"),
        (b"b", 1, ValueType::Value, b"z"),
    ],
    &[
        (b"b", 1, ValueType::Value, b"z"),
        (b"b", 1, ValueType::Value, b"z"),
    ],
    &[(b"a", u64::MAX, ValueType::Value, b"")],
    &[
        (b"a", 9, ValueType::WeakTombstone, b""),
        (b"a", 8, ValueType::Value, b"x"),
        (b"b", 7, ValueType::Tombstone, b""),
        (b"c", 6, ValueType::WeakTombstone, b""),
        (b"d", 5, ValueType::Indirection, b"far"),
    ],
    &[(b"a", 3, ValueType::Value, b"x")],
];

const NO_ROWS: usize = 0;

const ROWS: usize = 1;

const TWICE: usize = 2;

const TOO_HIGH: usize = 3;

const TOMBSTONES: usize = 4;

const A3: usize = 5;

fn rows_at(place: usize) -> &'static [Row<'static>] {
    LISTS.get(place).copied().unwrap_or(&[])
}

// The sequence numbers that a read finds and that a scan yields, four at most; 0 after the last.
type Numbers = (Option<SeqNo>, [SeqNo; 5]);

fn numbers<A: Allocator + Copy>(scanner: &mut Scanner<A>) -> Result<[SeqNo; 5], Error> {
    let mut numbers = [0; 5];
    for slot in numbers.iter_mut() {
        match scanner.next() {
            Some(Ok(item)) => *slot = item.key.seqno,
            Some(Err(error)) => return Err(error),
            None => {}
        }
    }
    Ok(numbers)
}

fn all_numbers<A: Allocator + Copy>(
    read: &mut (Option<InternalValue<A>>, Scanner<A>),
) -> Result<Numbers, Error> {
    let found = match &read.0 {
        Some(item) => Some(item.key.seqno),
        None => None,
    };
    Ok((found, numbers(&mut read.1)?))
}

// The sequence number of the entry that a read of a list finds, and those of a scan. Fails with
// `Source(0)` if no table can be written.
fn read_rows<A: Allocator + Copy>(
    alloc: A,
    place: usize,
    global_seqno: SeqNo,
    key: &[u8],
    seqno: SeqNo,
) -> Result<Option<Numbers>, Error> {
    let items = list_of(alloc, rows_at(place))?;
    let read = read_back(alloc, items, global_seqno, key, seqno);
    asked_if_any(read, all_numbers)
}

// The index of rows, a global sequence number, a key and a snapshot, and the result.
type Case = (
    usize,
    SeqNo,
    &'static [u8],
    SeqNo,
    Result<Option<Numbers>, Error>,
);

const NOT_WRITTEN: Result<Option<Numbers>, Error> = Err(Error::Source(0));

const CASES: &[Case] = &[
    (ROWS, 0, b"a", 8, Ok(Some((Some(7), [9, 7, 5, 1, 0])))),
    (
        ROWS,
        10,
        b"a",
        18,
        Ok(Some((Some(17), [19, 17, 15, 11, 0]))),
    ),
    (ROWS, 0, b"c", 8, Ok(Some((None, [9, 7, 5, 1, 0])))),
    (NO_ROWS, 3, b"a", 8, Ok(None)),
    // The list is not strictly sorted, or a sequence number is too high.
    (TWICE, 0, b"b", 2, NOT_WRITTEN),
    (TOO_HIGH, 0, b"a", 2, NOT_WRITTEN),
    // The sum of a sequence number and the global one passes the largest one, or none does.
    (ROWS, u64::MAX - 8, b"a", 8, Err(Error::GlobalSeqNoTooLarge)),
    (
        ROWS,
        u64::MAX - 9,
        b"a",
        1,
        Ok(Some((
            None,
            [u64::MAX, u64::MAX - 2, u64::MAX - 4, u64::MAX - 8, 0],
        ))),
    ),
];

// Whether a list has the result of its case.
fn is_read(alloc: Global, case: &Case) -> bool {
    read_rows(alloc, case.0, case.1, case.2, case.3) == case.4
}

#[test]
fn a_list_is_read_back_or_refused(rt: HostRuntime) {
    for case in CASES {
        assert!(rt; is_read(rt.alloc(), case));
    }
}

/// Whether the rows are read back.
pub(crate) fn rows_are_read<A: Allocator + Copy>(alloc: A) -> Result<bool, Error> {
    let read = read_rows(alloc, ROWS, 0, b"a", 8)?;
    Ok(read == Some((Some(7), [9, 7, 5, 1, 0])))
}

// ---- an entry found by its key alone

// The sequence number of the entry of a key below 8, in a list that is written and opened.
fn found_below_8(alloc: Global, key: &[u8]) -> Result<Option<SeqNo>, Error> {
    match write_and_find(alloc, list_of(alloc, rows_at(ROWS))?, key, 8)? {
        Some(Some(item)) => Ok(Some(item.key.seqno)),
        _ => Ok(None),
    }
}

#[test]
fn what_is_written_is_found(rt: HostRuntime) {
    assert!(rt; found_below_8(rt.alloc(), b"a") == Ok(Some(7)));
    assert!(rt; found_below_8(rt.alloc(), b"c") == Ok(None));
}

// ---- the metadata of a table

// The metadata of a table: its id, its numbers of entries, tombstones, weak tombstones, reclaimable
// weak tombstones and keys, and its lowest and highest sequence number.
//
// Then its highest sequence number with the global one, the ends of its keys, and whether it may
// have keys within some bounds.
type Facts = ([u64; 9], [u8; 2], [bool; 6]);

const BOUNDS: [Bounds<'static>; 6] = [
    (Bound::Unbounded, Bound::Unbounded),
    (Bound::Included(b"b"), Bound::Unbounded),
    (Bound::Included(b"b"), Bound::Included(b"c")),
    (Bound::Included(b"c"), Bound::Unbounded),
    (Bound::Excluded(b"b"), Bound::Unbounded),
    (Bound::Unbounded, Bound::Excluded(b"a")),
];

fn numbers_of(table: &Table) -> Result<[u64; 9], Error> {
    let keys = table.meta_item(ItemName::KeyCount)?;
    let (lowest, highest) = table.metadata.seqnos;
    Ok([
        table.id(),
        table.metadata.item_count,
        table.tombstone_count(),
        table.weak_tombstone_count(),
        table.weak_tombstone_reclaimable(),
        u64::from(keys.as_slice().first().copied().unwrap_or(0)),
        lowest,
        highest,
        table.get_highest_seqno(),
    ])
}

fn ends_of(table: &Table) -> [u8; 2] {
    let range = table.key_range();
    [
        range.min().as_slice().first().copied().unwrap_or(0),
        range.max().as_slice().first().copied().unwrap_or(0),
    ]
}

fn facts_of(table: &mut Table) -> Result<Facts, Error> {
    table.tells_its_list();
    let mut overlaps = [false; 6];
    for (slot, bounds) in overlaps.iter_mut().zip(BOUNDS.iter()) {
        *slot = table.check_key_range_overlap(bounds);
    }
    Ok((numbers_of(table)?, ends_of(table), overlaps))
}

// Whether the `Debug` form of a table has its id.
fn shows_its_id(alloc: Global, table: &Table) -> Result<bool, Error> {
    Ok(format!(in alloc; "{table:?}")?.starts_with("Table:3("))
}

// The metadata of a table, if its `Debug` form has its id and a table opened from its bytes has the
// same metadata. Fails with `Source(4)` otherwise.
fn facts_again(alloc: Global, table: &mut Table, global_seqno: SeqNo) -> Result<Facts, Error> {
    let facts = facts_of(table)?;
    let again = asked_mut(open(alloc, table.bytes()?, global_seqno), facts_of)?;
    if again == facts && shows_its_id(alloc, table)? {
        Ok(facts)
    } else {
        Err(Error::Source(4))
    }
}

// The metadata of a table of the rows at an index.
fn says(alloc: Global, place: usize, global_seqno: SeqNo) -> Result<Option<Facts>, Error> {
    let items = list_of(alloc, rows_at(place))?;
    let table = write_and_open(alloc, 3, Timestamp::from(5), items, global_seqno);
    asked_if_any(table, |table| facts_again(alloc, table, global_seqno))
}

const ROWS_OVERLAP: [bool; 6] = [true, true, true, false, false, false];

const UP_TO_D: [bool; 6] = [true, true, true, true, true, false];

const ONLY_A: [bool; 6] = [true, false, false, false, false, false];

// The index of rows, a global sequence number, and the metadata of their table.
const SAYS: &[(usize, SeqNo, Facts)] = &[
    (ROWS, 0, ([3, 4, 1, 0, 0, 2, 1, 9, 9], *b"ab", ROWS_OVERLAP)),
    (
        ROWS,
        10,
        ([3, 4, 1, 0, 0, 2, 1, 9, 19], *b"ab", ROWS_OVERLAP),
    ),
    (
        ROWS,
        u64::MAX - 9,
        ([3, 4, 1, 0, 0, 2, 1, 9, u64::MAX], *b"ab", ROWS_OVERLAP),
    ),
    (
        TOMBSTONES,
        0,
        ([3, 5, 3, 2, 1, 4, 5, 9, 9], *b"ad", UP_TO_D),
    ),
    (A3, 10, ([3, 1, 0, 0, 0, 1, 3, 3, 13], *b"aa", ONLY_A)),
];

#[test]
fn an_opened_table_says_what_the_list_says(rt: HostRuntime) {
    for (place, global_seqno, facts) in SAYS {
        assert!(rt; says(rt.alloc(), *place, *global_seqno) == Ok(Some(*facts)));
    }
}
