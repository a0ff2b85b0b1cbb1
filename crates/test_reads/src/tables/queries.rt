//! Many reads of one table at once, and the requests for memory of reads.
use crate::tables::{Changed, Of, Parted, Pins, Sought, cloned, counted_read, opened};
use lsm_tables::table::{Query, Table, get_many};
use sst_blocks::{Error, InternalValue, Slice};
use std::alloc::{Allocator, Global};
use test_support::Refusing;
use test_support::samples::large::{asked, asked_with};
use test_support::samples::runs::Name;

fn queries_of<A: Allocator + Copy>(alloc: A, sought: &[Sought]) -> Result<Vec<Query<A>, A>, Error> {
    let mut queries = Vec::new(alloc);
    for one in sought {
        queries.push(Query {
            key: Slice::from(alloc, one.0)?,
            seqno: one.1,
        })?;
    }
    Ok(queries)
}

fn name<A: Allocator>(found: &Option<InternalValue<A>>) -> Option<Name> {
    match found {
        Some(item) => {
            let first = item.key.user_key.as_slice().first().copied();
            Some((first.unwrap_or(0), item.key.seqno))
        }
        None => None,
    }
}

fn are_named<A: Allocator>(found: &[Option<InternalValue<A>>], names: &[Option<Name>]) -> bool {
    for (item, wanted) in found.iter().zip(names.iter()) {
        if name(item) != *wanted {
            return false;
        }
    }
    found.len() == names.len()
}

// Whether queries of a table find the entries with these names.
fn finds<A: Allocator + Copy>(
    table: &Table<A>,
    by: (A, &[Sought], &[Option<Name>]),
) -> Result<bool, Error> {
    let queries = queries_of(by.0, by.1)?;
    let found = get_many(table, &queries);
    drop(queries);
    Ok(are_named(&found?, by.2))
}

const PINS: Pins = (true, true);

// A table of three versions of `a` and one of `b`, each in its own block of 46 bytes.
const WHOLE: Changed<'static> = (Of::Rows(Parted::Nothing), &[], PINS, 0);

// The table with the last byte of the block of a@7 changed, and the magic number of the block of
// b@1.
const TWO_DAMAGED: Changed<'static> = (
    Of::Rows(Parted::Nothing),
    &[(91, b"?"), (138, b"?")],
    PINS,
    0,
);

// A stored table of a@1 whose one data block is damaged.
const DAMAGED: Changed<'static> = (Of::One, &[(44, b"y")], PINS, 0);

const A7: Option<Name> = Some((b'a', 7));

const A9: Option<Name> = Some((b'a', 9));

const B1: Option<Name> = Some((b'b', 1));

// Three queries, the first one again, and the names that they find.
const SOUGHT: &[Sought] = &[(b"a", 8), (b"a", 5), (b"c", 100), (b"a", 8)];

const FOUND: &[Option<Name>] = &[A7, None, None, A7];

// A table, queries, and the names that they find, or an error.
type Case = (
    Changed<'static>,
    &'static [Sought],
    &'static [Option<Name>],
    Result<bool, Error>,
);

// No queries, some, one of them twice, and some in reverse order. The earliest error is returned,
// and none if no query reads the damaged block.
const CASES: &[Case] = &[
    (WHOLE, &[], &[], Ok(true)),
    (
        WHOLE,
        &[(b"a", 8), (b"a", 5), (b"c", 100)],
        &[A7, None, None],
        Ok(true),
    ),
    (WHOLE, SOUGHT, FOUND, Ok(true)),
    (
        WHOLE,
        &[(b"b", 2), (b"a", 8), (b"a", 10), (b"b", 2)],
        &[B1, A7, A9, B1],
        Ok(true),
    ),
    (
        DAMAGED,
        &[(b"c", 2), (b"a", 2), (b"a", 1)],
        &[],
        Err(Error::ChecksumMismatch),
    ),
    (DAMAGED, &[(b"c", 2), (b"a", 1)], &[None, None], Ok(true)),
    (
        TWO_DAMAGED,
        &[(b"a", 10), (b"a", 8), (b"b", 2)],
        &[],
        Err(Error::ChecksumMismatch),
    ),
    (
        TWO_DAMAGED,
        &[(b"b", 2), (b"a", 10), (b"a", 8)],
        &[],
        Err(Error::InvalidHeader),
    ),
];

// Whether queries of a clone of a table have this result after the table is dropped.
fn comes_of_clone(alloc: Global, case: &Case) -> bool {
    let copy = asked(opened(alloc, &case.0), cloned);
    asked_with(copy, (alloc, case.1, case.2), finds) == case.3
}

#[test]
fn each_query_has_its_answer_in_its_place(rt: HostRuntime) {
    for case in CASES {
        assert!(rt; comes_of_clone(rt.alloc(), case));
    }
}

// Whether queries find these names. After `OutOfMemory` they are made again.
fn repeated<A: Allocator + Copy>(
    table: &Table<A>,
    by: (A, &[Sought], &[Option<Name>]),
) -> Result<bool, Error> {
    let (alloc, sought, names) = by;
    match finds(table, (alloc, sought, names)) {
        Err(Error::OutOfMemory) => finds(table, (alloc, sought, names)),
        found => found,
    }
}

/// Whether some queries have their results.
pub(crate) fn are_answered<A: Allocator + Copy>(alloc: A) -> Result<bool, Error> {
    asked_with(opened(alloc, &WHOLE), (alloc, SOUGHT, FOUND), repeated)
}

// ---- the number of requests for memory of reads

// Reads the keys one by one.
fn read_each<A: Allocator + Copy>(table: &Table<A>, sought: &[Sought]) -> Result<(), Error> {
    for one in sought {
        counted_read(table, one.0, one.1).0?;
    }
    Ok(())
}

// The numbers of requests for memory of reads one by one, and of all at once. It is generic in the
// allocator, which is the heap that counts them.
fn requests_of<A: Allocator + Copy>(
    table: &Table<A>,
    by: (A, &Refusing, &[Sought]),
) -> Result<(usize, usize), Error> {
    let (alloc, heap, sought) = by;
    let mut before = heap.requests();
    read_each(table, sought)?;
    let one_by_one = heap.requests().saturating_sub(before);
    let queries = queries_of(alloc, sought)?;
    before = heap.requests();
    let found = get_many(table, &queries).map(drop);
    let at_once = heap.requests().saturating_sub(before);
    drop(queries);
    found.and(Ok((one_by_one, at_once)))
}

// The numbers of requests of a table that is made in that heap.
fn requests_on<A: Allocator + Copy>(
    alloc: A,
    heap: &Refusing,
    of: Of,
    sought: &[Sought],
) -> Result<(usize, usize), Error> {
    let table = opened(alloc, &(of, &[], (false, false), 0));
    asked_with(table, (alloc, heap, sought), requests_of)
}

// More requests than there can be, for a read that fails.
const REFUSED: (usize, usize) = (usize::MAX, usize::MAX);

fn requests_in(alloc: Global, of: Of, sought: &[Sought]) -> (usize, usize) {
    let heap = Refusing::new(alloc, 0);
    requests_on(&heap, &heap, of, sought).unwrap_or(REFUSED)
}

const TWO: &[Sought] = &[(b"a", 10), (b"b", 2)];

const FOUR: &[Sought] = &[(b"a", 10), (b"a", 8), (b"a", 6), (b"b", 2)];

// A read makes no request for memory, neither for the offsets of a block's entries nor for those of
// a partition's handles. The entry shares the table's bytes. Without queries there is no request.
fn asks_for_none(alloc: Global) -> bool {
    let none = requests_in(alloc, Of::Rows(Parted::Nothing), &[]);
    let in_parts = requests_in(alloc, Of::Rows(Parted::Index), TWO);
    none == (0, 0) && in_parts.0 == 0
}

// A block of several queried keys is loaded once, which allocates its entries' offsets. A block of
// a single one is not loaded.
fn loads_once(alloc: Global) -> bool {
    let two = requests_in(alloc, Of::Block, TWO);
    let four = requests_in(alloc, Of::Block, FOUR);
    let apart = requests_in(alloc, Of::Rows(Parted::Nothing), TWO);
    two == four && two.0 == 0 && apart.1 < two.1 && apart.0 == 0
}

#[test]
fn reads_ask_for_no_memory_and_load_a_block_of_several_keys_once(rt: HostRuntime) {
    assert!(rt; asks_for_none(rt.alloc()));
    assert!(rt; loads_once(rt.alloc()));
}
