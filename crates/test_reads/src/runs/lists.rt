//! Lists that are written as runs and then read, unchanged or compacted; and the tables that a
//! target cuts.
use example_calling::{compact_run_back, read_run_back};
use lsm_sorted::Run;
use lsm_tables::compaction::Rules;
use lsm_tables::run::write_run;
use lsm_tables::table::{OpenOptions, Table};
use lsm_writers::{TableId, TableIds, Timestamp};
use sst_blocks::{Checksum, Error, SeqNo, Slice, ValueType};
use std::alloc::{Allocator, Global};
use std::ops::Bound;
use test_support::samples::lists::{list_of, read_names};
use test_support::samples::rows::Row;
use test_support::samples::runs::{ALL, Bounds, Name, owned_range};

// How a list is read: unchanged with a global sequence number, or compacted.
#[derive(Clone, Copy)]
enum How {
    Written(SeqNo),
    Kept(Rules),
}

// The index of some rows, how they are read, a key and a snapshot, bounds, and the names that are
// read. These are the found entry and the ends of the range, or nothing.
//
// Rows are given by index, because each reference in a table of cases makes its proof slower.
type Case = (
    usize,
    How,
    (&'static [u8], SeqNo),
    Bounds<'static>,
    &'static [Option<Name>],
);

// The names that are read; `None` without a table.
type Names = Option<[Option<Name>; 3]>;

// The names read from rows that are written with one table per key.
fn read_written<A: Allocator + Copy>(
    alloc: A,
    case: &Case,
    global_seqno: SeqNo,
) -> Result<Names, Error> {
    let items = list_of(alloc, rows_at(case.0))?;
    let range = owned_range(alloc, case.3)?;
    let (key, seqno) = case.2;
    match read_run_back(alloc, items, 0, global_seqno, key, seqno, range)? {
        Some(read) => Ok(Some(read_names(alloc, read)?)),
        None => Ok(None),
    }
}

// The names read from the compaction of such tables.
fn read_kept<A: Allocator + Copy>(alloc: A, case: &Case, rules: Rules) -> Result<Names, Error> {
    let items = list_of(alloc, rows_at(case.0))?;
    let range = owned_range(alloc, case.3)?;
    let (key, seqno) = case.2;
    match compact_run_back(alloc, items, 0, rules, key, seqno, range)? {
        Some(read) => Ok(Some(read_names(alloc, read)?)),
        None => Ok(None),
    }
}

// Whether a case has its names.
fn reads<A: Allocator + Copy>(alloc: A, case: &Case) -> Result<bool, Error> {
    let read = match case.1 {
        How::Written(global_seqno) => read_written(alloc, case, global_seqno),
        How::Kept(rules) => read_kept(alloc, case, rules),
    };
    match read? {
        Some(names) => Ok(names.as_slice() == case.4),
        None => Ok(case.4.is_empty()),
    }
}

const VALUE: ValueType = ValueType::Value;

// A value that fills a block and reaches a target of 1,024 bytes.
const LONG: [u8; 8000] = [b'v'; 8000];

const LISTS: &[&[Row<'static>]] = &[
    &[],
    &[
        (b"a", 9, VALUE, b"x"),
        (b"a", 7, ValueType::Tombstone, b""),
        (b"a", 5, VALUE, b"y"),
        (b"b", 1, VALUE, b"z"),
    ],
    &[(b"a", 10, VALUE, b"x"), (b"a", 3, VALUE, b"y")],
    &[(b"a", 4, ValueType::Tombstone, b"")],
    &[
        (b"a", 10, VALUE, b"x"),
        (b"b", 4, VALUE, b"y"),
        (b"b", 2, VALUE, b"y"),
        (b"c", 6, VALUE, b"z"),
    ],
    &[
        (b"a", 2, VALUE, &LONG),
        (b"a", 1, VALUE, &LONG),
        (b"a", 0, VALUE, &LONG),
        (b"b", 0, VALUE, &LONG),
        (b"c", 1, VALUE, &LONG),
        (b"c", 0, VALUE, &LONG),
    ],
];

const NO_ROWS: usize = 0;

const ROWS: usize = 1;

const VALUES: usize = 2;

const TOMBSTONE: usize = 3;

const THREE_KEYS: usize = 4;

const LONG_ROWS: usize = 5;

fn rows_at(place: usize) -> &'static [Row<'static>] {
    LISTS.get(place).copied().unwrap_or(&[])
}

// Threshold 5; tombstones and sequence numbers are kept.
const KEPT: How = How::Kept(Rules {
    watermark: 5,
    evict: false,
    zeroing: false,
});

// Threshold 5; tombstones are evicted.
const EVICTED: How = How::Kept(Rules {
    watermark: 5,
    evict: true,
    zeroing: false,
});

// Threshold 5; sequence numbers below it become 0.
const ZEROED: How = How::Kept(Rules {
    watermark: 5,
    evict: false,
    zeroing: true,
});

// Threshold 100; tombstones and sequence numbers are kept.
const KEPT_AT_100: How = How::Kept(Rules {
    watermark: 100,
    evict: false,
    zeroing: false,
});

const BEFORE_B: Bounds<'static> = (Bound::Unbounded, Bound::Excluded(b"b"));

const FROM_B: Bounds<'static> = (Bound::Included(b"b"), Bound::Unbounded);

const BEFORE_C: Bounds<'static> = (Bound::Unbounded, Bound::Excluded(b"c"));

const JUST_B: Bounds<'static> = (Bound::Included(b"b"), Bound::Included(b"b"));

const BEHIND_C: Bounds<'static> = (Bound::Excluded(b"c"), Bound::Unbounded);

const A11: Option<Name> = Some((b'a', 11));

const A10: Option<Name> = Some((b'a', 10));

const A9: Option<Name> = Some((b'a', 9));

const A7: Option<Name> = Some((b'a', 7));

const A4: Option<Name> = Some((b'a', 4));

const A3: Option<Name> = Some((b'a', 3));

const B3: Option<Name> = Some((b'b', 3));

const B1: Option<Name> = Some((b'b', 1));

const B0: Option<Name> = Some((b'b', 0));

const C6: Option<Name> = Some((b'c', 6));

const CASES: &[Case] = &[
    (ROWS, How::Written(0), (b"a", 8), ALL, &[A7, A9, B1]),
    // Versions that a reader may see are kept.
    (VALUES, KEPT, (b"a", 7), ALL, &[A3, None, A10]),
    (VALUES, KEPT, (b"a", 11), ALL, &[A10, None, A10]),
    (VALUES, KEPT, (b"a", 3), ALL, &[None, None, A10]),
    (VALUES, KEPT_AT_100, (b"a", 7), ALL, &[None, None, A10]),
    (VALUES, KEPT_AT_100, (b"a", 11), ALL, &[A10, None, A10]),
    // The global sequence number is applied, and the range is within its bounds.
    (ROWS, How::Written(2), (b"a", 8), ALL, &[A7, A11, B3]),
    (ROWS, How::Written(0), (b"a", 8), BEFORE_B, &[A7, None, A9]),
    (NO_ROWS, How::Written(0), (b"a", 8), ALL, &[]),
    // A tombstone is dropped or kept, and small sequence numbers become 0.
    (TOMBSTONE, EVICTED, (b"a", 7), ALL, &[]),
    (TOMBSTONE, KEPT, (b"a", 7), ALL, &[A4, None, A4]),
    (NO_ROWS, KEPT, (b"a", 7), ALL, &[]),
    (THREE_KEYS, ZEROED, (b"b", 1), ALL, &[B0, A10, C6]),
    // The compacted entries are read within bounds.
    (THREE_KEYS, ZEROED, (b"a", 11), FROM_B, &[A10, B0, C6]),
    (THREE_KEYS, ZEROED, (b"a", 11), BEFORE_C, &[A10, A10, B0]),
    (THREE_KEYS, ZEROED, (b"a", 11), JUST_B, &[A10, None, B0]),
    (THREE_KEYS, ZEROED, (b"a", 11), BEHIND_C, &[A10, None, None]),
];

/// The index of the case of an unchanged list.
pub(crate) const AS_IT_IS: usize = 0;

/// The index of the case of a compacted list.
pub(crate) const KEPT_OF_IT: usize = 1;

/// Whether the case at an index has its names.
pub(crate) fn case_is_read<A: Allocator + Copy>(alloc: A, place: usize) -> Result<bool, Error> {
    match CASES.get(place) {
        Some(case) => reads(alloc, case),
        None => Ok(false),
    }
}

// Opening the run fails if a sequence number passes the largest one.
const TOO_HIGH: Case = (ROWS, How::Written(u64::MAX - 8), (b"a", 8), ALL, &[]);

#[test]
fn a_list_is_read_back_from_its_run(rt: HostRuntime) {
    for case in CASES {
        assert!(rt; matches!(reads(rt.alloc(), case), Ok(true)));
    }
    assert!(rt;
        matches!(
            reads(rt.alloc(), &TOO_HIGH),
            Err(Error::GlobalSeqNoTooLarge)
        )
    );
}

// The index of some rows, a target and a global sequence number. Then the number of finished
// tables, and the next id. Between them are the number of entries and the highest sequence number
// of each of the run's first three tables.
type Cut = (
    usize,
    u64,
    SeqNo,
    usize,
    &'static [(u64, SeqNo)],
    Option<TableId>,
);

// The number of entries and the highest sequence number of each table of a run, of three.
fn returned<A: Allocator + Clone>(run: &Option<Run<Table<A>, A>>) -> [(u64, SeqNo); 3] {
    let mut all = [(0, 0); 3];
    if let Some(run) = run {
        for (slot, table) in all.iter_mut().zip(run.as_slice().iter()) {
            *slot = (table.metadata.item_count, table.get_highest_seqno());
        }
    }
    all
}

// Whether rows that are written from the id 5 on are cut as they should.
fn is_cut<A: Allocator + Copy>(alloc: A, cut: &Cut) -> Result<bool, Error> {
    let &(place, target, global_seqno, count, entries, next) = cut;
    let items = list_of(alloc, rows_at(place))?;
    let (ids, created_at) = (TableIds::new(5), Timestamp::from(0));
    let (run, mut ids) = write_run(alloc, ids, target, created_at, items, global_seqno)?;
    let tables = match &run {
        Some(run) => run.as_slice().len(),
        None => 0,
    };
    Ok(tables == count && returned(&run).as_slice() == entries && ids.next() == next)
}

// The length of the blocks of the versions of `a`. Each has a header of 24 bytes, a count of 4, and
// for its one entry 17 bytes, its key and its value.
const OF_A: u64 = 3 * (24 + 4 + 17 + 1 + 8_000);

// A table begins after the blocks have reached the target.
const CUTS: &[Cut] = &[
    (LONG_ROWS, 1_024, 0, 3, &[(3, 2), (1, 0), (2, 1)], Some(8)),
    (
        LONG_ROWS,
        OF_A - 1,
        0,
        2,
        &[(3, 2), (3, 1), (0, 0)],
        Some(7),
    ),
    (LONG_ROWS, OF_A, 0, 2, &[(3, 2), (3, 1), (0, 0)], Some(7)),
    (
        LONG_ROWS,
        OF_A + 1,
        0,
        2,
        &[(4, 2), (2, 1), (0, 0)],
        Some(7),
    ),
    (LONG_ROWS, 50_000, 0, 1, &[(6, 2), (0, 0), (0, 0)], Some(6)),
    (NO_ROWS, 1_024, 0, 0, &[(0, 0), (0, 0), (0, 0)], Some(6)),
    // The global sequence number is applied. At target 0 the first id is drawn for a table without
    // entries.
    (THREE_KEYS, 0, 10, 3, &[(1, 20), (2, 14), (1, 16)], Some(9)),
];

#[test]
fn a_run_has_the_tables_that_the_target_cuts(rt: HostRuntime) {
    for cut in CUTS {
        assert!(rt; matches!(is_cut(rt.alloc(), cut), Ok(true)));
    }
}

// Whether a table's bytes open as a table with these options.
fn opens_so<A: Allocator + Copy>(alloc: A, how: &OpenOptions) -> Result<bool, Error> {
    let items = list_of(alloc, rows_at(THREE_KEYS))?;
    let (ids, created_at) = (TableIds::new(5), Timestamp::from(0));
    let (run, _) = write_run(alloc, ids, 50_000, created_at, items, 0)?;
    let Some(run) = run else {
        return Ok(false);
    };
    let Some(written) = run.as_slice().first() else {
        return Ok(false);
    };
    let table = how.open_bytes(alloc, written.bytes()?, Checksum(7))?;
    Ok(
        table.tree_id == how.tree_id
            && table.checksum == Checksum(7)
            && table.global_seqno() == how.global_seqno
            && table.get_highest_seqno() == how.global_seqno.saturating_add(10),
    )
}

#[test]
fn bytes_open_with_named_options(rt: HostRuntime) {
    let how = OpenOptions {
        global_seqno: 20,
        tree_id: 3,
        pin_filter: false,
        pin_index: false,
    };
    assert!(rt; matches!(opens_so(rt.alloc(), &how), Ok(true)));
    assert!(rt; matches!(opens_so(rt.alloc(), &OpenOptions::default()), Ok(true)));
    // Bytes that are shorter than a trailer are no table.
    let short = OpenOptions::default().open_bytes(
        rt.alloc(),
        Slice::from_static(b"sst"),
        Checksum(0),
    );
    assert!(rt; matches!(short, Err(Error::InvalidTrailer)));
}

/// Whether the first target cuts its rows.
pub(crate) fn target_cuts<A: Allocator + Copy>(alloc: A) -> Result<bool, Error> {
    match CUTS.first() {
        Some(cut) => is_cut(alloc, cut),
        None => Ok(false),
    }
}
