//! Reads of several runs as one, from both ends: the newest version of each key, whole, and the
//! items after a failing step.
use crate::runs::walks::{Answer, is_given, row_at};
use sst_blocks::{Direction, Error, IterItem, ValueType};
use std::alloc::{Allocator, Global};
use std::ops::Bound;
use test_support::Refusing;
use test_support::samples::lists::answers_within;
use test_support::samples::rows::Row;
use test_support::samples::runs::{ALL, Bounds, Lists, runs_of};
use test_support::samples::whole::{A7, A9, B6, B8, C5, D2, D3};

const F: Direction = Direction::Front;

const B: Direction = Direction::Back;

// The index of some runs, bounds, ends, and the items of the steps. There are three lists of items:
// without a failing step, and with the first or the second one failing. A failing request for the
// verified-block cache makes no step fail.
//
// Items are given by letters and runs by index, because each reference in a table of cases makes
// its proof slower.
type Case = (
    usize,
    Bounds<'static>,
    &'static [Direction],
    &'static [&'static [u8]],
);

// The row at an index in all tables of some runs.
fn row_of(lists: &[Lists], place: usize) -> Option<Row<'static>> {
    let mut left = place;
    for tables in lists {
        match row_at(tables, left) {
            Ok(row) => return Some(row),
            Err(rest) => left = rest,
        }
    }
    None
}

// The item of a letter: the row at its index in all tables, `.` for nothing, and `?` for
// `OutOfMemory`.
fn wanted_at(lists: &[Lists], letter: u8) -> Answer {
    match letter {
        b'.' => Ok(None),
        b'?' => Err(Error::OutOfMemory),
        _ => Ok(row_of(lists, usize::from(letter.saturating_sub(b'a')))),
    }
}

// Whether some items are the wanted ones.
fn are_answers<A: Allocator>(
    given: &[Option<IterItem<A>>],
    lists: &[Lists],
    wanted: &[u8],
) -> bool {
    for (given, letter) in given.iter().zip(wanted.iter()) {
        if !is_given(given, &wanted_at(lists, *letter)) {
            return false;
        }
    }
    given.len() == wanted.len()
}

// The index of the first of some cases that has these items, if any.
fn place_of<A: Allocator>(
    given: &[Option<IterItem<A>>],
    lists: &[Lists],
    cases: &[&[u8]],
) -> Option<usize> {
    for (place, wanted) in cases.iter().enumerate() {
        if are_answers(given, lists, wanted) {
            return Some(place);
        }
    }
    None
}

// The index of the items of a case that its runs yield, if any. Fails if there is no memory for the
// runs.
fn which<A: Allocator + Copy>(alloc: A, case: &Case) -> Result<Option<usize>, Error> {
    let &(place, bounds, ends, cases) = case;
    let lists = lists_at(place);
    let runs = runs_of(alloc, lists)?;
    let given = answers_within(alloc, &runs, bounds, ends);
    drop(runs);
    Ok(place_of(&given?, lists, cases))
}

const A9_X: Row<'static> = (b"a", 9, ValueType::Value, b"x");

const A7_X: Row<'static> = (b"a", 7, ValueType::Value, b"x");

const A5_X: Row<'static> = (b"a", 5, ValueType::Value, b"x");

const B1_X: Row<'static> = (b"b", 1, ValueType::Value, b"x");

const C4_X: Row<'static> = (b"c", 4, ValueType::Value, b"x");

const C2_X: Row<'static> = (b"c", 2, ValueType::Value, b"x");

const D3_X: Row<'static> = (b"d", 3, ValueType::Value, b"x");

const E2_X: Row<'static> = (b"e", 2, ValueType::Value, b"x");

// All rows of each kind in a run of two tables, and in two runs of two tables each. Two runs;
// three, the third of two tables; two, the first of three tables; and none.
const RUNS: &[&[Lists]] = &[
    &[&[&[A9, A7, B8, B6], &[C5, D3, D2]]],
    &[&[&[A9, B8], &[D3]], &[&[A7, B6], &[C5, D2]]],
    &[&[&[A9_X, B1_X]], &[&[A5_X, C2_X]]],
    &[
        &[&[A9_X, B1_X]],
        &[&[A5_X, C2_X]],
        &[&[A7_X, C4_X], &[D3_X]],
    ],
    &[&[&[A9_X], &[C4_X], &[E2_X]], &[&[B1_X, D3_X]]],
    &[],
];

const IN_ONE: usize = 0;

const IN_TWO: usize = 1;

const TWO_RUNS: usize = 2;

const THREE_RUNS: usize = 3;

const OF_THREE_TABLES: usize = 4;

const NO_RUNS: usize = 5;

fn lists_at(place: usize) -> &'static [Lists] {
    RUNS.get(place).copied().unwrap_or(&[])
}

const BEFORE_C: Bounds<'static> = (Bound::Included(b"a"), Bound::Excluded(b"c"));

const D_TO_Z: Bounds<'static> = (Bound::Included(b"d"), Bound::Included(b"z"));

const FRONTS: &[Direction] = &[F, F, F, F, F];

const BACKS: &[Direction] = &[B, B, B, B, B];

const BOTH: &[Direction] = &[B, F, F, B, F];

const CASES: &[Case] = &[
    (IN_ONE, ALL, FRONTS, &[b"acef."]),
    (IN_ONE, ALL, BACKS, &[b"feca."]),
    (IN_ONE, ALL, BOTH, &[b"face."]),
    (IN_TWO, ALL, FRONTS, &[b"abfc."]),
    (IN_TWO, ALL, BACKS, &[b"cfba."]),
    (IN_TWO, ALL, BOTH, &[b"cabf."]),
    (TWO_RUNS, ALL, &[B, F, B, F, B], &[b"dab.."]),
    (TWO_RUNS, BEFORE_C, &[B, B, B], &[b"ba."]),
    (TWO_RUNS, D_TO_Z, &[F, B], &[b".."]),
    (THREE_RUNS, ALL, FRONTS, &[b"abfg."]),
    (THREE_RUNS, ALL, &[B, F, B, B, B], &[b"gafb."]),
    (NO_RUNS, ALL, &[F, B], &[b".."]),
];

#[test]
fn the_newest_version_of_each_key_comes_whole_from_both_ends(rt: HostRuntime) {
    for case in CASES {
        assert!(rt; matches!(which(rt.alloc(), case), Ok(Some(0))));
    }
}

// The steps after the second one make no request for memory. The entry that waits at the other end
// is yielded after the error.
const REFUSALS: &[Case] = &[
    (
        OF_THREE_TABLES,
        ALL,
        &[F, F, F, F, F, F, B],
        &[b"adbec..", b"?......", b"a?....."],
    ),
    (
        OF_THREE_TABLES,
        ALL,
        &[B, B, B, B, B, B, F],
        &[b"cebda..", b"?......", b"c?....."],
    ),
    (
        OF_THREE_TABLES,
        ALL,
        &[F, B, F, B, F, B, F],
        &[b"acdeb..", b"?......", b"a?d...."],
    ),
    (
        OF_THREE_TABLES,
        ALL,
        &[B, F, F, B, F, B, F],
        &[b"cadeb..", b"?......", b"c?e...."],
    ),
];

// The number of requests of a case in which the `nth` one fails, or none if it is 0. Records the
// case's items that the runs yield; `None` if they yield others. There may be no memory for the
// runs.
fn note(alloc: Global, nth: usize, case: &Case, met: &mut [bool; 3]) -> Option<usize> {
    let heap = Refusing::new(alloc, nth);
    match which(&heap, case) {
        Ok(Some(place)) => {
            if let Some(met) = met.get_mut(place) {
                *met = true;
            }
        }
        Err(Error::OutOfMemory) => {}
        Ok(None) | Err(_) => return None,
    }
    Some(heap.requests())
}

// The items of a case that its runs yield without a failing request. Then all that they yield with
// each request failing in turn. `None` if they yield others.
fn met(alloc: Global, case: &Case) -> Option<[[bool; 3]; 2]> {
    let mut first = [false; 3];
    let requests = note(alloc, 0, case, &mut first)?;
    let mut all = first;
    for nth in 1..=requests {
        note(alloc, nth, case, &mut all)?;
    }
    Some([first, all])
}

#[test]
fn a_refused_step_leaves_what_waits_at_the_other_end(rt: HostRuntime) {
    for case in REFUSALS {
        assert!(rt; met(rt.alloc(), case) == Some([[true, false, false], [true; 3]]));
    }
}
