//! Writers after an allocation failure, for each request in turn; later requests succeed. They fail
//! from then on. One function tests them all, so that its call is proved once.
use crate::given::{By, Given, NO_TABLES, Refusals, Reported, returned};
use crate::part_refusals::{Part, filter, index, section, section_of_28};
use sst_blocks::{Error, ValueType};
use std::alloc::{Allocator, Global};
use test_support::samples::rows::Row;
use test_support::{Refusing, each_refused};

// The error codes of an allocation failure: in a new writer, in a call and each one after it, or in
// `finish` alone.
const MEMORY: [Refusals; 3] = [[1, 0, 0, 0, 0], [0, 1, 23, 23, 23], [0, 0, 0, 0, 1]];

// A value that fills a block.
const LONG: &[u8] = &[b'x'; 4_096];

// Two versions of a key, and two further keys; and keys whose values fill a block each.
static SHORT_ROWS: [Row<'static>; 4] = [
    (b"a", 9, ValueType::Value, b"x"),
    (b"a", 7, ValueType::Value, b""),
    (b"b", 1, ValueType::Value, b""),
    (b"c", 1, ValueType::Value, b""),
];

static LONG_ROWS: [Row<'static>; 3] = [
    (b"a", 1, ValueType::Value, LONG),
    (b"b", 1, ValueType::Value, LONG),
    (b"c", 1, ValueType::Value, LONG),
];

// The work of a test. A filter and an index are partitioned or not, and an index has a handle or
// none.
#[derive(Clone, Copy)]
enum Work {
    Short(By),
    Long(By),
    Filter(bool),
    Index(bool, bool),
    Section,
    SectionOf28,
}

// The result of writing a part, in the form of a writer of tables. An error before the part counts
// as that of a new writer.
fn as_told(part: Result<Part, Error>) -> Reported {
    match part {
        Ok(part) => {
            let refusals = part.0;
            let mut seen = NO_TABLES.1;
            seen[0] = part.1;
            (refusals, None, false, (1, seen))
        }
        Err(error) => ([error.number(), 0, 0, 0, 0], None, false, NO_TABLES),
    }
}

// The error codes, and the checksums of the tables.
fn outcome<A: Allocator + Copy>(alloc: A, work: Work) -> Reported {
    match work {
        Work::Short(by) => returned(alloc, by, &SHORT_ROWS, Given::ByValue),
        Work::Long(by) => returned(alloc, by, &LONG_ROWS, Given::ByValue),
        Work::Filter(is_partitioned) => as_told(filter(alloc, is_partitioned)),
        Work::Index(is_partitioned, has_handle) => {
            as_told(index(alloc, is_partitioned, has_handle))
        }
        Work::Section => as_told(section(alloc)),
        Work::SectionOf28 => as_told(section_of_28(alloc)),
    }
}

// Whether a run writes the same bytes as with ample memory, or returns `OutOfMemory` after a
// failing request. Long values are never written when a request fails.
fn is_right<A: Allocator + Copy>(alloc: A, work: Work, ample: &Reported, is_refused: bool) -> bool {
    let outcome = outcome(alloc, work);
    if outcome.0 == [0; 5] {
        return outcome == *ample && !(is_refused && matches!(work, Work::Long(_)));
    }
    is_refused && MEMORY.contains(&outcome.0)
}

// The number of requests that a work makes, if it is right without a failing request and with each
// of them failing in turn.
fn requests(alloc: Global, work: Work) -> Result<usize, usize> {
    let ample = outcome(alloc, work);
    each_refused(
        alloc,
        |heap: &Refusing, is_refused: bool| is_right(heap, work, &ample, is_refused),
    )
}

// Whether a work makes more requests than a count.
fn makes_more_than(alloc: Global, work: Work, count: usize) -> bool {
    match requests(alloc, work) {
        Ok(requests) => requests > count,
        Err(_) => false,
    }
}

// A block for each entry, and a table for each key.
const WORKS: [(Work, usize); 8] = [
    (Work::Short(By::Table(false, 0, 0)), 9),
    (Work::Short(By::Tables(1, 0, 4_096)), 9),
    (Work::Long(By::Tables(1, 1, 4_096)), 20),
    (Work::Filter(false), 3),
    (Work::Filter(true), 6),
    (Work::Index(false, true), 3),
    (Work::Index(true, true), 4),
    (Work::Section, 2),
];

// Writers of tables, indexes and filters fail from then on; a section writer continues.
#[test]
fn a_writer_that_was_refused_memory_has_failed(rt: HostRuntime) {
    for &(work, count) in &WORKS {
        assert!(rt; makes_more_than(rt.alloc(), work, count));
    }
}

// An index without handles makes only the requests of its section writer.
#[test]
fn an_index_of_no_handles_takes_memory_for_sections_alone(rt: HostRuntime) {
    let of_section = requests(rt.alloc(), Work::SectionOf28);
    assert!(rt; of_section.is_ok());
    assert!(rt; requests(rt.alloc(), Work::Index(false, false)) == of_section);
    assert!(rt; requests(rt.alloc(), Work::Index(true, false)) == of_section);
}
