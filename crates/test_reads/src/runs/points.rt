//! Point reads of several runs, of all of them and by age, and of one.
//!
//! They compare the entries by value, borrowed and by handle, the loaded blocks, and the error of a
//! damaged table.
use crate::tables::{cloned, lends_same, number_of};
use example_calling::read_run;
use lsm_runs::{
    RunPlace, entry_in_runs, get_runs_ref_counted, place_in_runs, place_in_runs_by_age_counted,
    place_in_runs_counted,
};
use lsm_sorted::Run;
use lsm_tables::run::{get_runs, get_runs_counted, get_runs_ref, get_runs_ref_by_age};
use lsm_tables::table::Table;
use sst_blocks::{EntryRef, Error, InternalValue, Opened, SeqNo, ValueType};
use std::alloc::Global;
use test_support::samples::large::{add, asked_with};
use test_support::samples::rows::Row;
use test_support::samples::runs::{
    ALL, Lists, Tables, damaged_run_of, owned_range, run_of, runs_of,
};

// Some runs, and the damaged table of one of them.
type DamagedRuns = (&'static [Lists], (usize, usize));

// The runs.
fn damaged_runs_of(alloc: Global, runs: DamagedRuns) -> Result<Vec<Tables<Global>>, Error> {
    let (lists, (run, table)) = runs;
    let mut all = Vec::new(alloc);
    for (place, tables) in lists.iter().enumerate() {
        let damaged = if place == run { table } else { tables.len() };
        add(&mut all, damaged_run_of(alloc, tables, damaged))?;
    }
    Ok(all)
}

// The sequence number that a read finds, or its error.
type Found = Result<Option<SeqNo>, Error>;

// The result of a read, and the number of data blocks that it loads.
type Read = (Found, u64);

// A key, a snapshot, and the reads of all runs and of runs by age.
type Case = (&'static [u8], SeqNo, Read, Read);

// Whether a read loads this number of data blocks, and no blocks of other kinds.
fn loads_only(opened: Opened, data_loads: u64) -> bool {
    let others = (opened.index_loads, opened.filter_loads, opened.meta_loads);
    opened.data_loads == data_loads && others == (0, 0, 0)
}

// Whether a read has this result, and loads no blocks of other kinds.
fn is_so(read: (Result<Option<InternalValue>, Error>, Opened), wanted: &Read) -> bool {
    let (found, opened) = read;
    number_of(found) == wanted.0 && loads_only(opened, wanted.1)
}

// The sequence number of the entry that a borrowing read found, if any.
fn number_in(found: Result<Option<EntryRef<'_>>, Error>) -> Found {
    match found {
        Ok(Some(entry)) => Ok(Some(entry.seqno)),
        Ok(None) => Ok(None),
        Err(error) => Err(error),
    }
}

// Whether the runs have the entry of a borrowing read at the handle that `place_in_runs` returns,
// or both calls return the same error.
fn is_placed(
    runs: &[Tables<Global>],
    place: Result<Option<RunPlace>, Error>,
    lent: &Result<Option<EntryRef<'_>>, Error>,
) -> bool {
    match (place, lent) {
        (Ok(Some(place)), Ok(Some(wanted))) => match entry_in_runs(runs, &place) {
            Some(entry) => entry == *wanted,
            None => false,
        },
        (Ok(None), Ok(None)) => true,
        (Err(error), Err(wanted)) => error == *wanted,
        _ => false,
    }
}

// Whether a read of all runs finds the wanted entry by value, borrowed and by handle, with the
// loads counted and without.
fn is_found_each_way(runs: &[Tables<Global>], key: &[u8], bound: SeqNo, wanted: &Found) -> bool {
    let (found, opened) = get_runs_counted(runs, key, bound);
    let (lent, lent_opened) = get_runs_ref_counted(runs, key, bound);
    let (place, place_opened) = place_in_runs_counted(runs, key, bound);
    lent_opened == opened
        && place_opened == opened
        && lends_same(&found, &lent)
        && is_placed(runs, place, &lent)
        && lends_same(&found, &get_runs_ref(runs, key, bound))
        && is_placed(runs, place_in_runs(runs, key, bound), &lent)
        && lends_same(&get_runs(runs, key, bound), &lent)
        && number_of(found) == *wanted
}

// Whether a read of runs by age has this result, borrowed and by handle.
fn is_found_by_age(runs: &[Tables<Global>], key: &[u8], bound: SeqNo, wanted: &Read) -> bool {
    let lent = get_runs_ref_by_age(runs, key, bound);
    let (place, opened) = place_in_runs_by_age_counted(runs, key, bound);
    is_placed(runs, place, &lent) && loads_only(opened, wanted.1) && number_in(lent) == wanted.0
}

// Whether reads of runs have the results of a case, with the loads counted and without.
fn is_read(runs: &[Tables<Global>], case: &Case) -> bool {
    let (key, bound, of_all, by_age) = (case.0, case.1, &case.2, &case.3);
    is_so(get_runs_counted(runs, key, bound), of_all)
        && is_found_each_way(runs, key, bound, &of_all.0)
        && is_found_by_age(runs, key, bound, by_age)
}

// Whether reads of runs have the results of some cases.
fn are_read(alloc: Global, runs: DamagedRuns, cases: &[Case]) -> bool {
    let Ok(runs) = damaged_runs_of(alloc, runs) else {
        return false;
    };
    for case in cases {
        if !is_read(&runs, case) {
            return false;
        }
    }
    true
}

const VALUE: ValueType = ValueType::Value;

const A9_B3: &[Row<'static>] = &[(b"a", 9, VALUE, b"x"), (b"b", 3, VALUE, b"x")];

const A5_C2: &[Row<'static>] = &[(b"a", 5, VALUE, b"x"), (b"c", 2, VALUE, b"x")];

const D1: &[Row<'static>] = &[(b"d", 1, VALUE, b"x")];

// The second run is of two tables.
const TWO_RUNS: &[Lists] = &[&[A9_B3], &[A5_C2, D1]];

const A7_D4: &[Row<'static>] = &[(b"a", 7, VALUE, b"x"), (b"d", 4, VALUE, b"y")];

const THREE_RUNS: &[Lists] = &[&[A9_B3], &[A5_C2, D1], &[A7_D4]];

// The newer run, and the older one.
const BY_AGE: &[Lists] = &[
    &[&[
        (b"a", 9, VALUE, b""),
        (b"a", 7, VALUE, b""),
        (b"b", 3, ValueType::Tombstone, b""),
    ]],
    &[&[(b"a", 2, VALUE, b""), (b"c", 5, VALUE, b"")]],
];

const THREE_TABLES: Lists = &[
    &[(b"a", 0, VALUE, b"x"), (b"b", 0, VALUE, b"x")],
    &[(b"c", 0, VALUE, b"x"), (b"d", 0, VALUE, b"x")],
    &[(b"e", 0, VALUE, b"x"), (b"f", 0, VALUE, b"x")],
];

const TWICE: &[Lists] = &[THREE_TABLES, THREE_TABLES];

const DAMAGED: Found = Err(Error::ChecksumMismatch);

const READS: &[(DamagedRuns, &[Case])] = &[
    (
        (TWO_RUNS, (2, 0)),
        &[
            // Both runs have a table for the key: each is read, also where the first one has it. By
            // age the second one is not read if all its entries are older than the entry found.
            (b"a", 10, (Ok(Some(9)), 2), (Ok(Some(9)), 1)),
            (b"a", 9, (Ok(Some(5)), 2), (Ok(Some(5)), 2)),
            (b"b", 10, (Ok(Some(3)), 2), (Ok(Some(3)), 2)),
            // Only the second run has one.
            (b"c", 10, (Ok(Some(2)), 1), (Ok(Some(2)), 1)),
            (b"d", 10, (Ok(Some(1)), 1), (Ok(Some(1)), 1)),
            // No run has one.
            (b"e", 10, (Ok(None), 0), (Ok(None), 0)),
            // A table without a sequence number below the bound loads no block.
            (b"a", 3, (Ok(None), 1), (Ok(None), 1)),
            (b"a", 2, (Ok(None), 0), (Ok(None), 0)),
        ],
    ),
    (
        (THREE_RUNS, (3, 0)),
        &[
            (b"a", 10, (Ok(Some(9)), 3), (Ok(Some(9)), 1)),
            // The newest is in the last run, or in the second.
            (b"a", 9, (Ok(Some(7)), 3), (Ok(Some(7)), 3)),
            (b"d", 10, (Ok(Some(4)), 2), (Ok(Some(4)), 2)),
            (b"a", 7, (Ok(Some(5)), 3), (Ok(Some(5)), 3)),
            // The third run has no sequence number below the bound.
            (b"d", 4, (Ok(Some(1)), 1), (Ok(Some(1)), 1)),
            (b"c", 3, (Ok(Some(2)), 1), (Ok(Some(2)), 1)),
            // Runs may have a table for a key, and not the key.
            (b"c", 10, (Ok(Some(2)), 2), (Ok(Some(2)), 2)),
            (b"bb", 10, (Ok(None), 2), (Ok(None), 2)),
            (b"e", 10, (Ok(None), 0), (Ok(None), 0)),
        ],
    ),
    (
        (THREE_RUNS, (2, 0)),
        &[
            (b"a", 10, (DAMAGED, 3), (Ok(Some(9)), 1)),
            (b"b", 10, (DAMAGED, 3), (DAMAGED, 3)),
            (b"d", 4, (Ok(Some(1)), 1), (Ok(Some(1)), 1)),
        ],
    ),
    ((&[], (0, 0)), &[(b"a", 10, (Ok(None), 0), (Ok(None), 0))]),
    (
        (BY_AGE, (2, 0)),
        &[
            // All entries of the older run are older than the entry found in the newer one.
            (b"a", SeqNo::MAX, (Ok(Some(9)), 2), (Ok(Some(9)), 1)),
            (b"a", 8, (Ok(Some(7)), 2), (Ok(Some(7)), 1)),
            // The newer run has the key, and no sequence number below the bound.
            (b"a", 3, (Ok(Some(2)), 1), (Ok(Some(2)), 1)),
            // The older run may have a newer version of the key.
            (b"b", SeqNo::MAX, (Ok(Some(3)), 2), (Ok(Some(3)), 2)),
            // The older run alone has a table for the key.
            (b"c", SeqNo::MAX, (Ok(Some(5)), 1), (Ok(Some(5)), 1)),
            (b"d", SeqNo::MAX, (Ok(None), 0), (Ok(None), 0)),
        ],
    ),
    // The load that fails counts, and those after it are not made.
    (
        (TWO_RUNS, (0, 0)),
        &[(b"a", 10, (DAMAGED, 1), (DAMAGED, 1))],
    ),
    (
        (TWO_RUNS, (1, 0)),
        &[
            (b"b", 10, (DAMAGED, 2), (DAMAGED, 2)),
            // A table that is not read causes no error.
            (b"a", 10, (DAMAGED, 2), (Ok(Some(9)), 1)),
            (b"d", 10, (Ok(Some(1)), 1), (Ok(Some(1)), 1)),
        ],
    ),
    // Reads of the keys of a damaged table fail.
    (
        (TWICE, (0, 1)),
        &[
            (b"b", 1, (Ok(Some(0)), 2), (Ok(Some(0)), 2)),
            (b"c", 1, (DAMAGED, 1), (DAMAGED, 1)),
        ],
    ),
];

#[test]
fn reads_of_runs_load_a_block_of_each_table_that_is_asked(rt: HostRuntime) {
    for &(runs, cases) in READS {
        assert!(rt; are_read(rt.alloc(), runs, cases));
    }
}

// Whether some runs have an entry at a handle.
fn is_there(alloc: Global, lists: &[Lists], place: &RunPlace) -> Result<bool, Error> {
    let runs = runs_of(alloc, lists)?;
    Ok(entry_in_runs(&runs, place).is_some())
}

const ONE_RUN: &[Lists] = &[&[A9_B3]];

// A key and a snapshot of a read of three runs, and other runs without an entry at its handle.
// These are no runs, too few, and a run of too few tables.
const ELSEWHERE: &[(&[u8], SeqNo, &[Lists])] = &[
    (b"a", 10, &[]),
    (b"d", 10, TWO_RUNS),
    (b"d", 4, ONE_RUN),
    (b"d", 4, &[&[A9_B3], &[A5_C2]]),
];

// Whether three runs have an entry at its handle, and other runs have none there.
fn is_there_alone(
    alloc: Global,
    key: &[u8],
    bound: SeqNo,
    others: &[Lists],
) -> Result<bool, Error> {
    let runs = runs_of(alloc, THREE_RUNS)?;
    let place = place_in_runs(&runs, key, bound)?;
    drop(runs);
    let Some(place) = place else {
        return Ok(false);
    };
    Ok(is_there(alloc, THREE_RUNS, &place)? && !is_there(alloc, others, &place)?)
}

// Whether the same holds for an entry with a long value, and a run of a table that ends before it.
fn long_is_there_alone(alloc: Global) -> Result<bool, Error> {
    let value = vec![in alloc; b'x'; 4_000]?;
    let rows: [Row<'_>; 1] = [(b"a", 1, VALUE, value.as_slice())];
    let runs = [run_of(alloc, &[rows.as_slice()])?];
    let place = place_in_runs(&runs, b"a", 2)?;
    let Some(place) = place else {
        return Ok(false);
    };
    let is_here = entry_in_runs(&runs, &place).is_some();
    Ok(is_here && !is_there(alloc, ONE_RUN, &place)?)
}

#[test]
fn a_place_past_the_end_of_other_runs_has_no_entry(rt: HostRuntime) {
    for &(key, bound, others) in ELSEWHERE {
        assert!(rt; is_there_alone(rt.alloc(), key, bound, others) == Ok(true));
    }
    assert!(rt; long_is_there_alone(rt.alloc()) == Ok(true));
}

// A run of the same tables that is not shared. Fails with `Source(2)` if there are none.
fn unshared(run: &Tables<Global>, alloc: Global) -> Result<Run<Table>, Error> {
    let mut tables = Vec::new(alloc);
    for table in run.as_slice() {
        add(&mut tables, cloned(table))?;
    }
    Run::new(tables).ok_or(Error::Source(2))
}

// The first of two large values; the second is dropped.
fn first_of<T: Drop, U: Drop>(both: Result<(T, U), Error>) -> Result<T, Error> {
    let (first, second) = both?;
    drop(second);
    Ok(first)
}

// The sequence number that a point read finds in one run, whose second table is damaged.
fn found_alone(alloc: Global, key: &[u8]) -> Found {
    let run = asked_with(damaged_run_of(alloc, THREE_TABLES, 1), alloc, unshared)?;
    let range = owned_range(alloc, ALL);
    number_of(first_of(read_run(alloc, run, key, 1, range?)))
}

#[test]
fn a_run_of_a_damaged_table_is_read_beside_it(rt: HostRuntime) {
    assert!(rt; found_alone(rt.alloc(), b"b") == Ok(Some(0)));
    assert!(rt; found_alone(rt.alloc(), b"c") == DAMAGED);
}
