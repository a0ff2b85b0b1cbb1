//! All reads of tables of one list, under each kind of index and of filter.
use crate::tables::walks::{Call, Walk};
use crate::tables::{Parted, open_with, written};
use example_calling::read_each_way;
use lsm_tables::table::{Iter, Scanner, Table};
use sst_blocks::{Error, InternalValue, Slice, ValueType};
use std::alloc::Global;
use std::ops::Bound;
use test_support::samples::large::asked_with;
use test_support::samples::rows::Row;

const ROWS: &[Row<'static>] = &[
    (b"a", 9, ValueType::Value, b"v"),
    (b"a", 7, ValueType::Tombstone, b""),
    (b"b", 1, ValueType::Value, b"w"),
    (b"c", 6, ValueType::Value, b""),
    (b"c", 2, ValueType::Value, b"x"),
];

// The partitioned parts, the filter's tenths of a bit per key, and whether filter and index are
// pinned.
type Kind = (Parted, u32, bool, bool);

const KINDS: &[Kind] = &[
    (Parted::Nothing, 0, true, true),
    (Parted::Nothing, 0, false, false),
    (Parted::Nothing, 100, true, true),
    (Parted::Nothing, 100, false, true),
    (Parted::Nothing, 100, true, false),
    (Parted::Filter, 100, true, true),
    (Parted::Filter, 100, false, false),
    (Parted::Index, 0, true, true),
    (Parted::Index, 100, false, false),
    (Parted::Both, 100, true, true),
];

const ALL: &[Call] = &[
    Call::Front(Some((b'a', 19))),
    Call::Front(Some((b'a', 17))),
    Call::Front(Some((b'b', 11))),
    Call::Front(Some((b'c', 16))),
    Call::Front(Some((b'c', 12))),
    Call::Front(None),
];

const ABOVE_A: &[Call] = &[
    Call::Back(Some((b'c', 12))),
    Call::Back(Some((b'c', 16))),
    Call::Back(Some((b'b', 11))),
    Call::Back(None),
];

// Whether some calls have their results.
fn gives<W: Walk>(walked: &mut W, calls: &[Call]) -> Result<bool, Error> {
    for call in calls {
        if !walked.comes(call, false)? {
            return Ok(false);
        }
    }
    Ok(true)
}

// The results of a point read, a scan and two ranges.
type Reads<S, R> = ((Option<InternalValue<Global>>, S), (R, R));

// Whether four reads have their results. These are a point read of `a` below 19, a range from the
// back above `a` up to `c`, a range of all, and a scan.
fn all_give<S: Walk, R: Walk>(reads: &mut Reads<S, R>) -> Result<bool, Error> {
    match &reads.0.0 {
        Some(item) if item.key.seqno == 17 => {}
        _ => return Ok(false),
    }
    Ok(
        gives(&mut reads.1.0, ABOVE_A)?
            && gives(&mut reads.1.1, ALL)?
            && gives(&mut reads.0.1, ALL)?,
    )
}

// Whether reads, if they can be made, have their results.
fn reads_give<S: Walk + Drop, R: Walk + Drop>(
    reads: Result<Reads<S, R>, Error>,
) -> Result<bool, Error> {
    all_give(&mut reads?)
}

fn all_reads(table: &Table, alloc: Global) -> Result<Reads<Scanner<Global>, Iter<Global>>, Error> {
    let lower = Bound::Excluded(Slice::from(alloc, b"a")?);
    let upper = Bound::Included(Slice::from(alloc, b"c")?);
    read_each_way(table, b"a", 19, lower, upper)
}

// Whether the reads of a table of a kind, with the global sequence number 10, have their results.
fn kind_gives(alloc: Global, kind: &Kind) -> Result<bool, Error> {
    let bytes = written(alloc, kind.0, ROWS, kind.1, 0)?;
    let table = open_with(alloc, bytes, (kind.2, kind.3), 10);
    reads_give(asked_with(table, alloc, all_reads))
}

#[test]
fn each_index_and_filter_gives_the_same(rt: HostRuntime) {
    for kind in KINDS {
        assert!(rt; matches!(kind_gives(rt.alloc(), kind), Ok(true)));
    }
}
