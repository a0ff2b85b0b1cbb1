//! Writes, opens, reads and compacts tables and runs with each request for memory failing in turn.
//! One function tries all works, so that its call is proved once.
use crate::runs::{compactions, lists as run_lists, part, walks};
use crate::tables::{lists, points, queries, refusals};
use sst_blocks::Error;
use std::alloc::{Allocator, Global};
use test_support::samples::runs::is_right;
use test_support::{Refusing, each_refused};

// The work of a test, on a table or on a run. It is named by the index of a case, or by itself.
enum Work {
    List,
    Points,
    Reads(usize),
    Queries,
    Fault,
    Walk(usize),
    RunList(usize),
    CutList,
    Part,
    NewTables,
}

// Whether a work has its result. Some of it uses ample memory.
fn answer<A: Allocator + Copy>(
    alloc: A,
    plenty: A,
    work: &Work,
    may_fail: bool,
) -> Result<bool, Error> {
    match work {
        Work::List => lists::rows_are_read(alloc),
        Work::Points => points::are_right(alloc),
        Work::Reads(at) => points::table_is_read(alloc, *at),
        Work::Queries => queries::are_answered(alloc),
        Work::Fault => refusals::checksums_are_refused(alloc),
        Work::Walk(place) => walks::case_is_read(alloc, *place),
        Work::RunList(place) => run_lists::case_is_read(alloc, *place),
        Work::CutList => run_lists::target_cuts(alloc),
        Work::Part => part::zeroed_is_found(alloc, plenty),
        Work::NewTables => Ok(compactions::leaves_its_runs(alloc, plenty, may_fail) == Ok(true)),
    }
}

// Whether a work makes more requests than `least`, and has its result without a failing request and
// with each of them failing in turn.
fn is_right_refused(alloc: Global, work: &Work, least: usize) -> bool {
    let requests = each_refused(alloc, |heap: &Refusing, may_fail: bool| {
        let plenty = Refusing::new(alloc, 0);
        is_right(answer(heap, &plenty, work, may_fail), may_fail)
    });
    requests.is_ok_and(|requests| requests > least)
}

// Works, and numbers of requests that they exceed. A run is read by its reader, by the reader of a
// span, and by a scan; a list unchanged, and compacted.
const WORKS: &[(Work, usize)] = &[
    (Work::List, 20),
    (Work::Points, 20),
    (Work::Reads(points::OF_TWO_LEVELS), 20),
    (Work::Reads(points::OF_DAMAGED_BLOCKS), 5),
    (Work::Queries, 20),
    (Work::Fault, 2),
    (Work::Walk(walks::IN_TURN_WITHIN), 20),
    (Work::Walk(walks::IN_TURN_BY_SPAN), 20),
    (Work::Walk(walks::BY_SCAN), 20),
    (Work::RunList(run_lists::AS_IT_IS), 20),
    (Work::RunList(run_lists::KEPT_OF_IT), 20),
    (Work::CutList, 20),
    (Work::Part, 20),
    (Work::NewTables, 20),
];

#[test]
fn tables_and_runs_are_made_and_read_with_each_request_refused(rt: HostRuntime) {
    for (work, least) in WORKS {
        assert!(rt; is_right_refused(rt.alloc(), work, *least));
    }
}
