//! The index of tables of one list, written with each kind of index and pinned or not.
//!
//! It has the same blocks in each case. The tests compare its kind, the start of its readers, and
//! the entries within bounds over an index iterator that was sought or advanced. `test_vectors`
//! compares which blocks these are and their order.
use crate::tables::walks::{Call, Walk, is_loaded, walked};
use crate::tables::{Changed, KINDS, Of, Parted, Pins, opened};
use lsm_tables::table::{
    BlockIndex, BlockIndexImpl, BlockIndexIterImpl, Bound as Edge, Iter, Table,
};
use sst_blocks::{BlockSource, CompressionType, Error, SeqNo, UserKey};
use std::alloc::Global;
use std::ops::Bound;
use test_support::samples::large::{asked, asked_if_any, asked_with};
use test_support::samples::runs::{ALL, Bounds, Name, owned_range};

// The index of a table. By the law it has the blocks of any table that is cut alike, as the table
// itself is.
fn index_in(table: &Table) -> Result<BlockIndexImpl, Error> {
    table.names_blocks_as(table);
    table.block_index()
}

// The sequence number of the first handle that a reader of an index yields, if any.
fn first_number(reader: &mut BlockIndexIterImpl) -> Result<Option<SeqNo>, Error> {
    match reader.next() {
        Some(Ok(handle)) => Ok(Some(handle.seqno())),
        Some(Err(error)) => Err(error),
        None => Ok(None),
    }
}

// The sequence number of the first handle from a key and a sequence number on; `None` if there is
// no reader.
fn starts(
    index: &BlockIndexImpl,
    key: &[u8],
    seqno: SeqNo,
) -> Result<Option<Option<SeqNo>>, Error> {
    asked_if_any(index.forward_reader(key, seqno), first_number)
}

// The kinds of an index: one that is pinned, one that each reader loads, and one of two levels.
const FULL: u8 = 0;

const ON_DEMAND: u8 = 1;

const TWO_LEVELS: u8 = 2;

// The kind of an index, and where its readers start, from a key within it and from one after it.
type Reported = (u8, Option<Option<SeqNo>>, Option<Option<SeqNo>>);

fn returned(index: &BlockIndexImpl) -> Result<Reported, Error> {
    let kind = match index {
        BlockIndexImpl::Full(_) => FULL,
        BlockIndexImpl::VolatileFull(_) => ON_DEMAND,
        BlockIndexImpl::TwoLevel(_) => TWO_LEVELS,
    };
    Ok((kind, starts(index, b"a", 8)?, starts(index, b"c", 100)?))
}

const FOUND: Option<Option<SeqNo>> = Some(Some(7));

const NO_HANDLE: Option<Option<SeqNo>> = Some(None);

// Tables, written and stored, their pins, and the kind and the readers of their index. Only a
// pinned one returns no reader where no handle reaches a key.
const INDEXES: &[(Of, Pins, Reported)] = &[
    (Of::Rows(Parted::Nothing), (true, true), (FULL, FOUND, None)),
    (
        Of::Rows(Parted::Nothing),
        (true, false),
        (ON_DEMAND, FOUND, NO_HANDLE),
    ),
    (
        Of::Rows(Parted::Nothing),
        (false, false),
        (ON_DEMAND, FOUND, NO_HANDLE),
    ),
    (
        Of::Rows(Parted::Index),
        (true, true),
        (TWO_LEVELS, FOUND, NO_HANDLE),
    ),
    (
        Of::Rows(Parted::Index),
        (false, false),
        (TWO_LEVELS, FOUND, NO_HANDLE),
    ),
    (Of::FilterParts, (true, true), (FULL, FOUND, None)),
    (
        Of::FilterParts,
        (true, false),
        (ON_DEMAND, FOUND, NO_HANDLE),
    ),
    (Of::Levels, (true, true), (TWO_LEVELS, FOUND, NO_HANDLE)),
];

// Whether a table's index has its kind and readers, after the table is dropped.
fn states(alloc: Global, of: Of, pins: Pins, expected: Reported) -> bool {
    let index = asked(opened(alloc, &(of, &[], pins, 0)), index_in);
    asked(index, returned) == Ok(expected)
}

#[test]
fn readers_of_the_index_of_each_kind(rt: HostRuntime) {
    for &(of, pins, expected) in INDEXES {
        assert!(rt; states(rt.alloc(), of, pins, expected));
    }
}

// ---- an index iterator that was sought or advanced

// Calls of an index iterator of a@9, a@7, a@5 and b@1, in a block each. Then whether it is unsought
// after them, over a pinned index of one block and over another.
type Before = (&'static [Call], bool, bool);

// The calls before; bounds, and the calls of the entries within them. Then the loaded blocks: data
// blocks over a pinned index of one block and over another, and index blocks of two levels.
type Resumed = (Before, Bounds<'static>, &'static [Call], (u64, u64, u64));

// Whether the calls of an index iterator have their results, and it is then unsought or not as it
// should be.
fn is_before(
    handles: &mut BlockIndexIterImpl,
    before: &Before,
    loaded: bool,
) -> Result<bool, Error> {
    let mut is_so = handles.is_unsought();
    for call in before.0 {
        is_so &= handles.comes(call, loaded)?;
    }
    let is_unsought = if loaded { before.1 } else { before.2 };
    Ok(is_so && handles.is_unsought() == is_unsought)
}

// The handles of a table after some calls. `Source(9)` where these return something else.
fn handles_after(
    table: &Table,
    before: &Before,
    loaded: bool,
) -> Result<BlockIndexIterImpl, Error> {
    let index = table.block_index()?;
    let handles = index.iter();
    drop(index);
    let mut handles = handles?;
    if is_before(&mut handles, before, loaded)? {
        Ok(handles)
    } else {
        Err(Error::Source(9))
    }
}

// Sets a lower bound, if there is one.
fn set_lower(iter: &mut Iter, lower: Bound<UserKey>) {
    match lower {
        Bound::Included(key) => iter.set_lower_bound(Edge::Included(key)),
        Bound::Excluded(key) => iter.set_lower_bound(Edge::Excluded(key)),
        Bound::Unbounded => {}
    }
}

// Sets an upper bound, if there is one.
fn set_upper(iter: &mut Iter, upper: Bound<UserKey>) {
    match upper {
        Bound::Included(key) => iter.set_upper_bound(Edge::Included(key)),
        Bound::Excluded(key) => iter.set_upper_bound(Edge::Excluded(key)),
        Bound::Unbounded => {}
    }
}

// The entries of a table within bounds, over its handles after some calls.
fn resumed_in(table: &Table, by: (Global, &Resumed, bool)) -> Result<Iter, Error> {
    let (alloc, resumed, loaded) = by;
    let (lower, upper) = owned_range(alloc, resumed.1)?;
    let handles = handles_after(table, &resumed.0, loaded)?;
    let source = BlockSource::new(alloc, table.bytes()?)?;
    let mut iter = Iter::new(0, &source, handles, CompressionType::None)?;
    set_lower(&mut iter, lower);
    set_upper(&mut iter, upper);
    Ok(iter)
}

// Whether these entries are yielded with the expected loads, over the index of a table.
fn is_resumed(alloc: Global, changed: &Changed<'_>, resumed: &Resumed, index: u64) -> bool {
    let loaded = is_loaded(changed);
    let (whole, rest, _) = resumed.3;
    let data = if loaded { whole } else { rest };
    let iter = asked_with(opened(alloc, changed), (alloc, resumed, loaded), resumed_in);
    walked(iter, loaded, resumed.2) == Ok((data, index))
}

// Whether the same entries are yielded over each kind of index. A pinned one of one block is never
// loaded, and one on demand once.
fn is_resumed_over_each(alloc: Global, resumed: &Resumed) -> bool {
    let (_, _, index) = resumed.3;
    for (kind, loads) in KINDS.iter().zip([0, 1, index, index]) {
        if !is_resumed(alloc, kind, resumed, loads) {
            return false;
        }
    }
    true
}

const A9: Option<Name> = Some((b'a', 9));

const A7: Option<Name> = Some((b'a', 7));

const A5: Option<Name> = Some((b'a', 5));

const B1: Option<Name> = Some((b'b', 1));

const FROM_B: Bounds<'static> = (Bound::Included(b"b"), Bound::Unbounded);

const BEHIND_A: Bounds<'static> = (Bound::Excluded(b"a"), Bound::Unbounded);

const UP_TO_A: Bounds<'static> = (Bound::Unbounded, Bound::Included(b"a"));

const BEFORE_A: Bounds<'static> = (Bound::Unbounded, Bound::Excluded(b"a"));

const B1_ALONE: &[Call] = &[Call::Front(B1), Call::Back(None), Call::Front(None)];

const NOTHING: &[Call] = &[Call::Front(None), Call::Back(None)];

const RESUMED: &[Resumed] = &[
    // The first step seeks the bounds in an iterator that was not sought: no block before them is
    // loaded.
    ((&[], true, true), FROM_B, B1_ALONE, (1, 1, 1)),
    // After a step, or a seek that leaves a handle out, each block that is left is loaded.
    (
        (&[Call::Front(A9)], false, false),
        FROM_B,
        B1_ALONE,
        (3, 3, 4),
    ),
    (
        (&[Call::Back(B1)], false, false),
        BEHIND_A,
        NOTHING,
        (3, 3, 4),
    ),
    (
        (&[Call::Back(B1)], false, false),
        BEFORE_A,
        NOTHING,
        (3, 3, 4),
    ),
    (
        (&[Call::Front(A9), Call::Back(B1)], false, false),
        ALL,
        &[Call::Front(A7), Call::Back(A5), Call::Front(None)],
        (2, 2, 4),
    ),
    (
        (&[Call::Lower(b"a", 7, true)], false, false),
        UP_TO_A,
        &[Call::Back(A5), Call::Back(None), Call::Front(None)],
        (2, 2, 2),
    ),
    (
        (&[Call::Lower(b"a", 7, true)], false, false),
        FROM_B,
        B1_ALONE,
        (2, 2, 2),
    ),
    (
        (&[Call::Upper(b"", 0, true)], false, false),
        ALL,
        &[Call::Back(A9), Call::Front(None)],
        (1, 1, 1),
    ),
    // A seek that leaves none out counts as none, over a pinned index of one block only.
    (
        (&[Call::Upper(b"a", 0, true)], true, false),
        FROM_B,
        B1_ALONE,
        (1, 4, 4),
    ),
    (
        (&[Call::Lower(b"a", SeqNo::MAX, true)], true, false),
        FROM_B,
        B1_ALONE,
        (1, 4, 4),
    ),
    // Nothing is left.
    (
        (
            &[
                Call::Front(A9),
                Call::Front(A7),
                Call::Back(B1),
                Call::Front(A5),
                Call::Back(None),
            ],
            false,
            false,
        ),
        ALL,
        NOTHING,
        (0, 0, 4),
    ),
];

// The index of the first case that differs.
fn wrong_resumed(alloc: Global, cases: &[Resumed]) -> Option<usize> {
    for (place, case) in cases.iter().enumerate() {
        if !is_resumed_over_each(alloc, case) {
            return Some(place);
        }
    }
    None
}

#[test]
fn an_index_iterator_that_was_sought_is_not_sought_again(rt: HostRuntime) {
    assert!(rt; wrong_resumed(rt.alloc(), RESUMED) == None);
}
