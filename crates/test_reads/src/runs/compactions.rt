//! Compactions of runs that are not verified: the entries of the new tables, the drawn ids,
//! filters, callbacks, observers, and the unchanged source runs.
use crate::tables::number_of;
use lsm_sorted::compaction::lending::{LentCallback, LentFilter};
use lsm_sorted::compaction::stream::{NoCallback, NoFilter, StreamFilterVerdict};
use lsm_tables::compaction::{
    CompactionObserver, CompactionOutcome, CompactionProgress, NoObserver, Rules, compact_any_runs,
    compact_to_run_with,
};
use lsm_tables::laws::compaction_law;
use lsm_tables::run::get_runs;
use lsm_tables::table::{OpenOptions, Scanner, Table};
use lsm_writers::{FinishedTable, MultiWriter, TableId, TableIds, Timestamp};
use sst_blocks::{EntryRef, Error, IterItem, SeqNo, Slice, UserValue, ValueType};
use std::alloc::{Allocator, Global};
use test_support::samples::large::asked;
use test_support::samples::runs::{Lists, Tables, runs_of};
use test_support::samples::tables::open;

/// A key of one byte, 0 for any other, a sequence number and a kind.
pub(crate) type Version = (u8, SeqNo, ValueType);

/// The first ten versions of a list, and the number of all.
pub(crate) type Listed = ([Option<Version>; 10], usize);

const NONE: Listed = ([None; 10], 0);

// Appends an entry.
fn put(listed: &mut Listed, item: &EntryRef<'_>) {
    let key = match item.user_key {
        [byte] => *byte,
        _ => 0,
    };
    let (versions, count) = listed;
    if let Some(slot) = versions.get_mut(*count) {
        *slot = Some((key, item.seqno, item.value_type));
    }
    *count = count.saturating_add(1);
}

/// Whether a list has exactly these versions, ten at most.
pub(crate) fn are(listed: &Listed, versions: &[Version]) -> bool {
    let (slots, count) = listed;
    for (slot, version) in slots.iter().zip(versions.iter()) {
        if *slot != Some(*version) {
            return false;
        }
    }
    *count == versions.len()
}

// Appends an entry, or returns the error; nothing follows an error.
fn put_next<A: Allocator>(
    listed: Result<Listed, Error>,
    item: IterItem<A>,
) -> Result<Listed, Error> {
    let mut listed = listed?;
    put(&mut listed, &item?.as_entry_ref());
    Ok(listed)
}

// A list with the entries of a scan appended.
fn with_scan(
    listed: Result<Listed, Error>,
    scan: Result<Scanner<Global>, Error>,
) -> Result<Listed, Error> {
    let mut listed = listed;
    for item in scan? {
        listed = put_next(listed, item);
    }
    listed
}

/// The entries of finished tables.
pub(crate) fn entries_of(alloc: Global, tables: Vec<FinishedTable>) -> Result<Listed, Error> {
    let mut listed = Ok(NONE);
    for table in tables {
        let table = open(alloc, table.bytes, 0);
        listed = with_scan(listed, asked(table, Table::scan));
    }
    listed
}

// Drops the version with one sequence number, replaces that with another one by a tombstone, and
// keeps all others.
#[derive(Clone, Copy)]
struct DropsAndHides {
    dropped: SeqNo,
    hidden: SeqNo,
}

impl<A: Allocator> LentFilter<A> for DropsAndHides {
    ghost gives = { λ f x v g. Unit {0} };

    fn filter_ref(&mut self, entry: &EntryRef<'_>) -> Result<StreamFilterVerdict<A>, Error> {
        let seqno = entry.seqno;
        if seqno == self.dropped {
            Ok(StreamFilterVerdict::Drop)
        } else if seqno == self.hidden {
            let nothing: UserValue<A> = Slice::empty();
            Ok(StreamFilterVerdict::Replace((ValueType::Tombstone, nothing)))
        } else {
            Ok(StreamFilterVerdict::Keep)
        }
    }
}

// Records the entries that it receives.
#[derive(Clone, Copy)]
struct Received {
    reports: Listed,
}

impl LentCallback for Received {
    ghost gets = { λ c x d. Unit {0} };

    fn on_dropped_ref(&mut self, kv: &EntryRef<'_>) {
        put(&mut self.reports, kv);
    }
}

// The number of finished tables, and the number of their entries; zeros without a call.
type Progress = (u64, u64);

// Records the progress of its calls, three at most, and stops the compaction at one of them.
#[derive(Clone, Copy)]
struct Reported {
    progress: [Progress; 3],
    count: usize,
    stop: usize,
}

impl CompactionObserver for Reported {
    ghost says = { λ o progress goes q. Unit {0} };

    fn goes_on(&mut self, progress: CompactionProgress) -> bool {
        let place = self.count;
        if let Some(slot) = self.progress.get_mut(place) {
            *slot = (progress.tables, progress.entries);
        }
        self.count = place.saturating_add(1);
        place != self.stop
    }
}

// The arguments of a compaction: a threshold, a target and the first id. Then the sequence number
// that the filter drops, the one that it hides, and the call at which the observer stops.
// Tombstones and sequence numbers are kept.
type How = (SeqNo, u64, TableId, SeqNo, SeqNo, usize);

// The outcome of a compaction.
#[derive(Clone, Copy, PartialEq, Eq)]
enum Came {
    Tables,
    OutOfOrder,
    Stopped,
}

// The outcome, or the error; the entries of the new tables, their ids and the next one. Then the
// entries that the callback received, and the first three calls of the observer.
type Wanted = (
    Result<Came, Error>,
    &'static [Version],
    &'static [TableId],
    Option<TableId>,
    &'static [Version],
    &'static [Progress],
);

// Whether tables have these ids.
fn have_ids(tables: &[FinishedTable], ids: &[TableId]) -> bool {
    for (table, id) in tables.iter().zip(ids.iter()) {
        if table.id != *id {
            return false;
        }
    }
    tables.len() == ids.len()
}

// The outcome of a compaction, if its tables, if any, are the wanted ones.
fn came_of(
    alloc: Global,
    outcome: CompactionOutcome,
    wanted: &Wanted,
) -> Result<Option<Came>, Error> {
    match outcome {
        CompactionOutcome::Tables(tables, mut left) => {
            let is_next = have_ids(&tables, wanted.2) && left.next() == wanted.3;
            let entries = entries_of(alloc, tables)?;
            Ok((is_next && are(&entries, wanted.1)).then_some(Came::Tables))
        }
        CompactionOutcome::OutOfOrder => Ok(Some(Came::OutOfOrder)),
        CompactionOutcome::Stopped => Ok(Some(Came::Stopped)),
    }
}

fn rules_of(watermark: SeqNo) -> Rules {
    Rules {
        watermark,
        evict: false,
        zeroing: false,
    }
}

// The outcome of a compaction of some runs, if its tables, callback and observer have the wanted
// results.
fn compacted(
    alloc: Global,
    runs: &[Tables<Global>],
    how: How,
    wanted: &Wanted,
) -> Result<Option<Came>, Error> {
    let (watermark, target, first, dropped, hidden, stop) = how;
    let mut observer = Reported {
        progress: [(0, 0); 3],
        count: 0,
        stop,
    };
    let writer = MultiWriter::new(alloc, TableIds::new(first), target, 0, Timestamp::from(0))?;
    let (outcome, callback) = compact_any_runs(
        alloc,
        runs,
        rules_of(watermark),
        writer,
        DropsAndHides { dropped, hidden },
        Received { reports: NONE },
        &mut observer,
    )?;
    let came = came_of(alloc, outcome, wanted)?;
    let is_told = are(&callback.reports, wanted.4) && observer.progress.as_slice() == wanted.5;
    Ok(if is_told { came } else { None })
}

// The outcome of a compaction of some runs into one, without a filter and an observer, if its run
// is the wanted one.
fn compacted_to_run(
    alloc: Global,
    runs: &[Tables<Global>],
    how: How,
    wanted: &Wanted,
) -> Result<Option<Came>, Error> {
    let opening = OpenOptions::default();
    let writer = MultiWriter::new(alloc, TableIds::new(how.2), how.1, 0, Timestamp::from(0))?;
    let (outcome, run) = compact_to_run_with(alloc, runs, rules_of(how.0), writer, &opening)?;
    let count = match &run {
        Some(run) => run.as_slice().len(),
        None => 0,
    };
    drop(run);
    let came = came_of(alloc, outcome, wanted)?;
    Ok(if count == wanted.2.len() { came } else { None })
}

// Whether the outcome or the error is the wanted one.
fn is_wanted(came: Result<Option<Came>, Error>, wanted: &Wanted) -> bool {
    match (&came, &wanted.0) {
        (Ok(Some(came)), Ok(wanted)) => *came == *wanted,
        (Err(error), Err(wanted)) => *error == *wanted,
        _ => false,
    }
}

// The sequence numbers that reads of `a`, `b` and `c` find.
type Numbers = [Option<SeqNo>; 3];

// The sequence numbers that these reads find in some runs.
fn numbers_in<A: Allocator + Copy>(runs: &[Tables<A>]) -> Result<Numbers, Error> {
    let a = number_of(get_runs(runs, b"a", SeqNo::MAX))?;
    let b = number_of(get_runs(runs, b"b", SeqNo::MAX))?;
    Ok([a, b, number_of(get_runs(runs, b"c", SeqNo::MAX))?])
}

// A sequence number of no entry.
const NO: SeqNo = SeqNo::MAX;

// More calls than an observer gets, so that it stops nothing.
const OFTEN: usize = 9;

// Whether compactions of some runs have the wanted outcome, and reads of the runs find the same
// before and after. A compaction into one run is tested only without a filter and a stop.
fn comes(alloc: Global, lists: &[Lists], how: How, wanted: &Wanted) -> bool {
    let Ok(runs) = runs_of(alloc, lists) else {
        return false;
    };
    let before = numbers_in(&runs);
    let is_right = is_wanted(compacted(alloc, &runs, how, wanted), wanted);
    let is_plain = how.3 == NO && how.4 == NO && how.5 == OFTEN;
    let is_run = !is_plain || is_wanted(compacted_to_run(alloc, &runs, how, wanted), wanted);
    let after = numbers_in(&runs);
    drop(runs);
    is_right && is_run && before.is_ok() && before == after
}

const V: ValueType = ValueType::Value;

const T: ValueType = ValueType::Tombstone;

const W: ValueType = ValueType::WeakTombstone;

// A value that fills a block and reaches a target of 1,024 bytes.
const LONG: [u8; 8000] = [b'v'; 8000];

// The runs of cases, which refer to them by index: each reference in a table of cases makes its
// proof slower.
const RUNS: &[&[Lists]] = &[
    &[],
    // `a`, `d` and `e` fill a block each; `b` and `c` are in the block of `d`.
    &[
        &[&[(b"a", 9, V, &LONG), (b"b", 6, V, b"x"), (b"d", 4, V, &LONG)]],
        &[&[(b"a", 5, V, b"x"), (b"c", 7, T, b""), (b"e", 1, V, &LONG)]],
        &[&[(b"b", 2, V, b"x"), (b"c", 3, V, b"x"), (b"d", 2, V, b"x")]],
    ],
    &[&[&[
        (b"a", 4, V, &LONG),
        (b"a", 3, V, &LONG),
        (b"a", 2, V, &LONG),
        (b"a", 1, V, &LONG),
        (b"a", 0, V, &LONG),
    ]]],
    &[&[&[
        (b"a", 2, V, &LONG),
        (b"a", 1, V, &LONG),
        (b"a", 0, V, &LONG),
        (b"b", 0, V, &LONG),
        (b"c", 1, V, &LONG),
        (b"c", 0, V, &LONG),
    ]]],
    // The newer run and the older one.
    &[
        &[&[(b"a", 9, V, b"x"), (b"b", 8, V, b"x")]],
        &[&[(b"a", 7, V, b"x"), (b"c", 6, V, b"x")]],
    ],
    &[&[&[(b"b", 1, V, b"")], &[(b"a", 2, V, b"")]]],
    &[&[&[(b"a", 5, V, b"x")]], &[&[(b"a", 5, V, b"y")]]],
    &[&[&[(b"a", 10, V, b"x"), (b"a", 3, V, b"x")]]],
    &[&[&[
        (b"a", 10, V, b"x"),
        (b"a", 4, V, b"x"),
        (b"a", 3, V, b"x"),
        (b"b", 9, V, b"x"),
    ]]],
    &[&[&[(b"a", 10, W, b""), (b"a", 3, V, b"x")]]],
    &[&[&[(b"a", 10, V, b"x")]]],
    &[&[&[(b"a", 10, V, b"x")]], &[&[(b"a", 3, V, b"x")]]],
];

const NO_RUNS: usize = 0;

const THREE_RUNS: usize = 1;

const VERSIONS_OF_A: usize = 2;

const VERSIONS_OF_THREE: usize = 3;

const TWO_RUNS: usize = 4;

const IN_WRONG_ORDER: usize = 5;

const OF_ONE_NUMBER: usize = 6;

const A10_A3: usize = 7;

const FOUR_VERSIONS: usize = 8;

const A10_WEAK: usize = 9;

const A10_ALONE: usize = 10;

const A10_BEFORE_A3: usize = 11;

fn lists_at(place: usize) -> &'static [Lists] {
    RUNS.get(place).copied().unwrap_or(&[])
}

// At threshold 5 the versions after d@4 are dropped.
const KEPT: &[Version] = &[
    (b'a', 9, V),
    (b'a', 5, V),
    (b'b', 6, V),
    (b'b', 2, V),
    (b'c', 7, T),
    (b'c', 3, V),
    (b'd', 4, V),
    (b'e', 1, V),
];

const D2: &[Version] = &[(b'd', 2, V)];

const OF_TWO: &[Version] = &[(b'a', 9, V), (b'a', 7, V), (b'b', 8, V), (b'c', 6, V)];

const UNTOLD: &[Progress] = &[(0, 0), (0, 0), (0, 0)];

const SPENT: Wanted = (Err(Error::TableIdsSpent), &[], &[], None, &[], UNTOLD);

const OUT_OF_ORDER: Wanted = (Ok(Came::OutOfOrder), &[], &[], None, &[], UNTOLD);

const CASES: &[(usize, How, Wanted)] = &[
    (
        NO_RUNS,
        (0, 0, 1, NO, NO, OFTEN),
        (Ok(Came::Tables), &[], &[], Some(2), &[], UNTOLD),
    ),
    // At target 0 the first table has no entries, but its id is drawn.
    (
        THREE_RUNS,
        (5, 0, 5, NO, NO, OFTEN),
        (
            Ok(Came::Tables),
            KEPT,
            &[6, 7, 8, 9, 10],
            Some(11),
            D2,
            &[(1, 2), (2, 4), (3, 6)],
        ),
    ),
    (
        THREE_RUNS,
        (5, 1_024, 5, NO, NO, OFTEN),
        (
            Ok(Came::Tables),
            KEPT,
            &[5, 6, 7],
            Some(8),
            D2,
            &[(1, 2), (2, 7), (0, 0)],
        ),
    ),
    // The versions of a key are in one table.
    (
        VERSIONS_OF_A,
        (0, 1_024, 1, NO, NO, OFTEN),
        (
            Ok(Came::Tables),
            &[
                (b'a', 4, V),
                (b'a', 3, V),
                (b'a', 2, V),
                (b'a', 1, V),
                (b'a', 0, V),
            ],
            &[1],
            Some(2),
            &[],
            UNTOLD,
        ),
    ),
    (
        VERSIONS_OF_THREE,
        (0, 1_024, 1, NO, NO, OFTEN),
        (
            Ok(Came::Tables),
            &[
                (b'a', 2, V),
                (b'a', 1, V),
                (b'a', 0, V),
                (b'b', 0, V),
                (b'c', 1, V),
                (b'c', 0, V),
            ],
            &[1, 2, 3],
            Some(4),
            &[],
            &[(1, 3), (2, 4), (0, 0)],
        ),
    ),
    // The tables of a run are in the wrong order.
    (IN_WRONG_ORDER, (0, 0, 1, NO, NO, OFTEN), OUT_OF_ORDER),
    // Two runs have a key with the same sequence number.
    (OF_ONE_NUMBER, (0, 0, 1, NO, NO, OFTEN), OUT_OF_ORDER),
    // A dropped version hides nothing: the version after it is kept.
    (
        A10_A3,
        (5, 0, 1, 10, 9, OFTEN),
        (
            Ok(Came::Tables),
            &[(b'a', 3, V)],
            &[2],
            Some(3),
            &[(b'a', 10, V)],
            UNTOLD,
        ),
    ),
    // The version that is now the newest hides older ones. A version replaced by a tombstone is
    // reported, and the tombstone is written.
    (
        FOUR_VERSIONS,
        (5, 0, 1, 10, 9, OFTEN),
        (
            Ok(Came::Tables),
            &[(b'a', 4, V), (b'b', 9, T)],
            &[2, 3],
            Some(4),
            &[(b'a', 10, V), (b'a', 3, V), (b'b', 9, V)],
            &[(1, 1), (0, 0), (0, 0)],
        ),
    ),
    // The filter is not called for a weak tombstone.
    (
        A10_WEAK,
        (5, 0, 1, 10, 9, OFTEN),
        (
            Ok(Came::Tables),
            &[(b'a', 10, W), (b'a', 3, V)],
            &[2],
            Some(3),
            &[],
            UNTOLD,
        ),
    ),
    // If all entries are dropped, there is no table.
    (
        A10_ALONE,
        (5, 0, 1, 10, 9, OFTEN),
        (
            Ok(Came::Tables),
            &[],
            &[],
            Some(2),
            &[(b'a', 10, V)],
            UNTOLD,
        ),
    ),
    // The version that is dropped is in one run, and the older one in the next.
    (
        A10_BEFORE_A3,
        (5, 0, 1, 10, 9, OFTEN),
        (
            Ok(Came::Tables),
            &[(b'a', 3, V)],
            &[2],
            Some(3),
            &[(b'a', 10, V)],
            UNTOLD,
        ),
    ),
    // The observer is called between two tables, and may stop the compaction there.
    (
        TWO_RUNS,
        (5, 0, 1, NO, NO, OFTEN),
        (
            Ok(Came::Tables),
            OF_TWO,
            &[2, 3, 4],
            Some(5),
            &[],
            &[(1, 2), (2, 3), (0, 0)],
        ),
    ),
    (
        TWO_RUNS,
        (5, 0, 1, NO, NO, 1),
        (
            Ok(Came::Stopped),
            &[],
            &[],
            None,
            &[],
            &[(1, 2), (2, 3), (0, 0)],
        ),
    ),
    (
        TWO_RUNS,
        (5, 0, 1, NO, NO, 0),
        (
            Ok(Came::Stopped),
            &[],
            &[],
            None,
            &[],
            &[(1, 2), (0, 0), (0, 0)],
        ),
    ),
    // Too few ids, and just enough.
    (THREE_RUNS, (0, 0, TableId::MAX - 1, NO, NO, OFTEN), SPENT),
    (THREE_RUNS, (0, 0, TableId::MAX, NO, NO, OFTEN), SPENT),
    (
        THREE_RUNS,
        (5, 0, TableId::MAX - 5, NO, NO, OFTEN),
        (
            Ok(Came::Tables),
            KEPT,
            &[
                TableId::MAX - 4,
                TableId::MAX - 3,
                TableId::MAX - 2,
                TableId::MAX - 1,
                TableId::MAX,
            ],
            None,
            D2,
            &[(1, 2), (2, 4), (3, 6)],
        ),
    ),
];

#[test]
fn runs_that_nobody_verified_are_compacted(rt: HostRuntime) {
    compaction_law();
    for (place, how, wanted) in CASES {
        assert!(rt; comes(rt.alloc(), lists_at(*place), *how, wanted));
    }
}

// The number of tables of a compaction. Fails with `Source(9)` if it makes none.
fn count_of<A: Allocator + Copy>(alloc: A, runs: &[Tables<A>]) -> Result<usize, Error> {
    let writer = MultiWriter::new(alloc, TableIds::new(5), 0, 0, Timestamp::from(0))?;
    let (outcome, _) = compact_any_runs(
        alloc,
        runs,
        rules_of(0),
        writer,
        NoFilter,
        NoCallback,
        &mut NoObserver,
    )?;
    match outcome {
        CompactionOutcome::Tables(tables, _) => Ok(tables.len()),
        CompactionOutcome::OutOfOrder | CompactionOutcome::Stopped => Err(Error::Source(9)),
    }
}

const TWO_KEYS: &[Lists] = &[
    &[&[(b"a", 9, V, b"x")]],
    &[&[(b"a", 5, V, b"y"), (b"c", 7, T, b"")]],
];

/// Whether a compaction has its result, and its runs, which use ample memory, read as before.
pub(crate) fn leaves_its_runs<A: Allocator + Copy>(
    alloc: A,
    plenty: A,
    may_fail: bool,
) -> Result<bool, Error> {
    let runs = runs_of(plenty, TWO_KEYS)?;
    let is_right = match count_of(alloc, &runs) {
        Ok(tables) => tables == 2,
        Err(error) => may_fail && error == Error::OutOfMemory,
    };
    let read = numbers_in(&runs);
    drop(runs);
    Ok(is_right && read? == [Some(9), None, Some(7)])
}
