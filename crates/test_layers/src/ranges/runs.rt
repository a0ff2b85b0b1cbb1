//! Worked examples of runs: lookups and changes, also with allocation failures.

use crate::ranges::tables::{
    Example, FakeTable, first_wrong, has_ids, is_like, range_of, run_of, table_of, tables_of,
};
use lsm_sorted::Run;
use sst_entries::Error;
use std::alloc::{Allocator, Global};
use std::ops::Bound;
use test_support::Refusing;

// A change of a run.
enum Change {
    // Pushes a table.
    Push(&'static str),
    // Appends some tables.
    Extend(&'static str),
    // Removes the table at an index, which has an id.
    Remove(usize, u64),
    // Keeps the tables with the ids 0 to 3.
    Keep,
    // Removes all tables.
    Clear,
}

// A change, its number of requests for memory, the ids of the tables after it, and whether they are
// in order. Appending tables makes one request, and so does growing the list past its capacity.
type Step = (Change, usize, &'static str, bool);

// A lookup in a run, and its result.
enum Sought {
    // A key, and the id of the table that has it.
    Key(&'static str, Option<u64>),
    // A lower and an upper bound, and the indexes of the first and the last table between them.
    Between(Bound<&'static [u8]>, Bound<&'static [u8]>, Option<(usize, usize)>),
    // A range, and the ids of the tables that overlap with it, and of those inside it.
    Across(&'static str, &'static str, &'static str),
}

// Tables and their ids, the changes of their run, and the lookups after them.
struct Changed {
    tables: &'static str,
    ids: &'static str,
    steps: &'static [Step],
    sought: &'static [Sought],
}

fn is_kept<A: Allocator>(table: &FakeTable<A>) -> bool {
    table.id < 4
}

// Changes a run. Fails if another table is removed.
fn make_change<A: Allocator>(
    alloc: A,
    run: &mut Run<FakeTable<A>, A>,
    change: &Change,
) -> Result<(), Error> {
    match change {
        Change::Push(word) => run.push(table_of(word)),
        Change::Extend(words) => match tables_of(alloc, words) {
            Ok(tables) => run.extend(tables),
            Err(error) => Err(error),
        },
        Change::Remove(place, id) => {
            if *place < run.as_slice().len() && run.remove(*place).id == *id {
                Ok(())
            } else {
                Err(Error::Source(0))
            }
        }
        Change::Keep => {
            run.retain(is_kept);
            Ok(())
        }
        Change::Clear => {
            run.inner_mut().clear();
            Ok(())
        }
    }
}

// Whether the steps change a run as they should, with this number of requests for memory. `None` if
// a request fails, as it may, and leaves the run unchanged.
fn are_changed_so<'h>(
    heap: &'h Refusing,
    run: &mut Run<FakeTable<&'h Refusing>, &'h Refusing>,
    changed: &Changed,
    may_fail: bool,
) -> Option<bool> {
    let mut before = changed.ids;
    let mut are_so = has_ids(run.as_slice(), before);
    for (change, requests, ids, in_order) in changed.steps {
        let made = heap.requests();
        match make_change(heap, run, change) {
            Ok(()) => {
                are_so &= heap.requests().saturating_sub(made) == *requests;
                are_so &= has_ids(run.as_slice(), ids) && run.is_in_order() == *in_order;
            }
            Err(Error::OutOfMemory) if may_fail && has_ids(run.as_slice(), before) => return None,
            Err(_) => return Some(false),
        }
        before = ids;
    }
    Some(are_so)
}

// Whether a lookup in a run has its result.
fn finds<A: Allocator>(run: &Run<FakeTable<A>, A>, sought: &Sought) -> bool {
    match sought {
        Sought::Key(key, id) => match run.get_for_key(key.as_bytes()) {
            Some(table) => *id == Some(table.id),
            None => id.is_none(),
        },
        Sought::Between(low, high, places) => run.range_overlap_indexes(*low, *high) == *places,
        Sought::Across(range, overlapping, contained) => {
            let range = range_of(range);
            has_ids(run.get_overlapping(&range), overlapping)
                && has_ids(run.get_contained(&range), contained)
        }
    }
}

// Whether all lookups in a run have their results.
fn finds_all<A: Allocator>(run: &Run<FakeTable<A>, A>, all: &[Sought]) -> bool {
    for sought in all {
        if !finds(run, sought) {
            return false;
        }
    }
    true
}

impl Example for Changed {
    fn is_so(&self, heap: &Refusing, may_fail: bool) -> bool {
        let Ok(mut run) = run_of(heap, self.tables) else {
            return may_fail;
        };
        match are_changed_so(heap, &mut run, self, may_fail) {
            Some(are_so) => are_so && finds_all(&run, self.sought),
            None => may_fail,
        }
    }
}

const FOUR: &str = "0:a-d 1:e-j 2:k-o 3:p-z";

const SOUGHT: &[Sought] = &[
    Sought::Key("a", Some(0)),
    Sought::Key("aaa", Some(0)),
    Sought::Key("b", Some(0)),
    Sought::Key("c", Some(0)),
    Sought::Key("d", Some(0)),
    Sought::Key("e", Some(1)),
    Sought::Key("j", Some(1)),
    Sought::Key("k", Some(2)),
    Sought::Key("o", Some(2)),
    Sought::Key("p", Some(3)),
    Sought::Key("z", Some(3)),
    Sought::Key("zzz", None),
    Sought::Between(Bound::Unbounded, Bound::Unbounded, Some((0, 3))),
    Sought::Between(Bound::Included(b"a"), Bound::Included(b"a"), Some((0, 0))),
    Sought::Between(Bound::Included(b"a"), Bound::Included(b"b"), Some((0, 0))),
    Sought::Between(Bound::Included(b"a"), Bound::Included(b"d"), Some((0, 0))),
    Sought::Between(Bound::Included(b"d"), Bound::Included(b"d"), Some((0, 0))),
    Sought::Between(Bound::Included(b"a"), Bound::Excluded(b"d"), Some((0, 0))),
    Sought::Between(Bound::Included(b"a"), Bound::Included(b"g"), Some((0, 1))),
    Sought::Between(Bound::Included(b"j"), Bound::Included(b"j"), Some((1, 1))),
    Sought::Between(Bound::Included(b"a"), Bound::Included(b"z"), Some((0, 3))),
    Sought::Between(Bound::Included(b"z"), Bound::Included(b"zzz"), Some((3, 3))),
    Sought::Between(Bound::Included(b"z"), Bound::Unbounded, Some((3, 3))),
    Sought::Between(Bound::Included(b"zzz"), Bound::Included(b"zzzzzzz"), None),
    Sought::Between(Bound::Included(b"n"), Bound::Included(b"l"), Some((2, 2))),
    Sought::Between(Bound::Excluded(b"d"), Bound::Excluded(b"e"), None),
    Sought::Across("a-a", "0", ""),
    Sought::Across("d-d", "0", ""),
    Sought::Across("a-d", "0", "0"),
    Sought::Across("a-f", "01", "0"),
    Sought::Across("a-j", "01", "01"),
    Sought::Across("a-k", "012", "01"),
    Sought::Across("a-l", "012", "01"),
    Sought::Across("a-z", "0123", "0123"),
    Sought::Across("a-zzz", "0123", "0123"),
    Sought::Across("zzz-zzzz", "", ""),
];

// The changes of the run of four tables, without lookups.
macro_rules! changed {
    ($($step:expr),*) => {
        Changed {
            tables: FOUR,
            ids: "0123",
            steps: &[$($step),*],
            sought: &[],
        }
    };
}

const CHANGED: &[Changed] = &[
    Changed {
        tables: FOUR,
        ids: "0123",
        steps: &[(Change::Keep, 0, "0123", true)],
        sought: SOUGHT,
    },
    // A removed table is not found.
    Changed {
        tables: FOUR,
        ids: "0123",
        steps: &[(Change::Remove(1, 1), 0, "023", true)],
        sought: &[
            Sought::Key("e", None),
            Sought::Between(Bound::Included(b"e"), Bound::Included(b"j"), None),
        ],
    },
    // A run may be emptied.
    Changed {
        tables: "4:a-d 5:e-j 6:k-o",
        ids: "456",
        steps: &[(Change::Keep, 0, "", true)],
        sought: &[
            Sought::Key("a", None),
            Sought::Between(Bound::Unbounded, Bound::Unbounded, None),
        ],
    },
    // Tables with the same least key keep their order.
    Changed {
        tables: "0:a-b",
        ids: "0",
        steps: &[
            (Change::Push("1:a-c"), 0, "01", false),
            (Change::Push("2:a-a"), 0, "012", false),
            (Change::Clear, 0, "", true),
        ],
        sought: &[],
    },
    // Appended tables are after those of before, which are kept.
    changed!(
        (Change::Extend("4:b-c"), 2, "01234", false),
        (Change::Keep, 0, "0123", true)
    ),
    // A push sorts a run that is out of order.
    changed!(
        (Change::Extend("4:b-c 5:q-r"), 2, "012345", false),
        (Change::Push("6:y-z"), 0, "0412356", false)
    ),
    changed!((Change::Push("4:zz-zzz"), 1, "01234", true)),
    changed!((Change::Push("4:0-1"), 1, "40123", true)),
    changed!((Change::Push("4:k-l"), 1, "01243", false)),
    // Appending no tables makes no request for memory.
    changed!((Change::Extend(""), 0, "0123", true)),
];

#[test]
fn runs_are_changed_and_searched_with_each_request_for_memory_refused(rt: HostRuntime) {
    let wrong = first_wrong(rt.alloc(), CHANGED);
    assert!(rt; wrong.is_none(), "{wrong:?}");
}

// Whether a run of four tables equals another one, and extends from the least to the greatest of
// their keys.
fn reaches_so(alloc: Global) -> Result<bool, Error> {
    let run = run_of(alloc, FOUR)?;
    let is_alike = is_like(run_of(alloc, FOUR), &run);
    let has_some = run.as_slice().len() > 0;
    let reaches = has_some && is_like(run.aggregate_key_range(), &range_of("a-z"));
    drop(run);
    Ok(is_alike && reaches)
}

#[test]
fn a_run_reaches_over_its_tables(rt: HostRuntime) {
    assert!(rt; Run::<FakeTable>::new(Vec::new(rt.alloc())).is_none());
    assert!(rt; reaches_so(rt.alloc()) == Ok(true));
}
