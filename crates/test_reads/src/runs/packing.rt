//! Packing of runs: the tables of each packed run, an unchanged run, and a run without tables,
//! which is ignored.
use lsm_tables::laws::packing_law;
use lsm_tables::run::{pack_runs, write_run};
use lsm_tables::table::Table;
use lsm_writers::{TableIds, Timestamp};
use sst_blocks::{Error, SeqNo, ValueType};
use std::alloc::Global;
use std::sync::Arc;
use test_support::samples::large::add;
use test_support::samples::lists::list_of;
use test_support::samples::rows::Row;
use test_support::samples::runs::{Lists, Tables, runs_of};

const V: ValueType = ValueType::Value;

// Tables of two keys each, with different sequence numbers.
const FOUR_RUNS: &[Lists] = &[
    &[
        &[(b"a", 1, V, b""), (b"c", 1, V, b"")],
        &[(b"m", 2, V, b""), (b"p", 2, V, b"")],
    ],
    &[&[(b"b", 3, V, b""), (b"n", 3, V, b"")]],
    &[&[(b"d", 4, V, b""), (b"f", 4, V, b"")]],
    &[&[(b"x", 5, V, b""), (b"z", 5, V, b"")]],
];

const OVERLAPPING: &[Lists] = &[&[
    &[(b"a", 1, V, b""), (b"z", 1, V, b"")],
    &[(b"c", 2, V, b""), (b"d", 2, V, b"")],
]];

const ONE_KEY: &[Row<'static>] = &[(b"a", 1, V, b"")];

// A run whose tables were removed. Fails with `Source(2)` if it had none.
fn emptied(alloc: Global) -> Result<Tables<Global>, Error> {
    let items = list_of(alloc, ONE_KEY)?;
    let (run, _) = write_run(alloc, TableIds::new(1), 0, Timestamp::from(0), items, 0)?;
    match run {
        Some(mut run) => {
            run.retain(|_| false);
            Ok(Arc::new(alloc, run)?)
        }
        None => Err(Error::Source(2)),
    }
}

// For each of the first four packed runs, the sequence numbers of the first three tables, 0 if
// there is none. Then the number of runs.
type Numbers = ([[SeqNo; 3]; 4], usize);

// The sequence numbers of the first three tables.
fn numbers_of(tables: &[Table<Global>]) -> [SeqNo; 3] {
    let mut numbers = [0; 3];
    for (slot, table) in numbers.iter_mut().zip(tables.iter()) {
        *slot = table.get_highest_seqno();
    }
    numbers
}

// The packed form of some runs.
fn packed(alloc: Global, runs: &[Tables<Global>]) -> Result<Numbers, Error> {
    let mut numbers = [[0; 3]; 4];
    let packed = pack_runs(alloc, runs)?;
    for (slot, run) in numbers.iter_mut().zip(packed.iter()) {
        *slot = numbers_of(run.as_slice());
    }
    Ok((numbers, packed.len()))
}

// Whether some runs are packed as wanted, alone and with an empty run after them.
fn are_packed(alloc: Global, lists: &[Lists], wanted: Numbers) -> bool {
    let Ok(mut runs) = runs_of(alloc, lists) else {
        return false;
    };
    let alone = packed(alloc, &runs);
    let added = add(&mut runs, emptied(alloc));
    let beside = packed(alloc, &runs);
    drop(runs);
    added.is_ok() && alone == Ok(wanted) && beside == Ok(wanted)
}

// One run is unchanged. Among several runs, its overlapping tables would not remain in one run.
const CASES: &[(&[Lists], Numbers)] = &[
    (&[], ([[0; 3]; 4], 0)),
    (FOUR_RUNS, ([[1, 2, 5], [3, 0, 0], [4, 0, 0], [0; 3]], 3)),
    (OVERLAPPING, ([[1, 2, 0], [0; 3], [0; 3], [0; 3]], 1)),
];

#[test]
fn tables_go_behind_those_that_they_overlap(rt: HostRuntime) {
    packing_law();
    for &(lists, wanted) in CASES {
        assert!(rt; are_packed(rt.alloc(), lists, wanted));
    }
}
