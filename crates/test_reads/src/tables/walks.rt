//! Ranges, scans and index iterators, from both ends: their items and loads, and that an error
//! exhausts them. Their callers are generic, so that a proof looks at none of their parts.
use crate::tables::{
    BELITTLED, Changed, KINDS, LOADED, OLDER, ON_DEMAND, Of, Parted, Pins, TWO_LEVELS, UNDERSTATED,
    changed_bytes, opened,
};
use lsm_tables::table::{BlockIndex, BlockIndexIter, BlockIndexIterImpl, Iter, Scanner, Table};
use sst_blocks::{BlockSource, CompressionType, Error, KeyedBlockHandle, SeqNo, TagName};
use std::alloc::{Allocator, Global};
use std::ops::Bound;
use test_support::Refusing;
use test_support::samples::large::{asked, asked_with};
use test_support::samples::runs::{ALL, Bounds, Name, name_of, owned_range};

/// A call and its result. A step at the front or at the back yields a name, if any. A seek before
/// the first step returns whether it leaves anything.
///
/// A seek sets the lower or the upper bound. A seek in an index that is loaded later returns true.
pub(crate) enum Call {
    Front(Option<Name>),
    Back(Option<Name>),
    Lower(&'static [u8], SeqNo, bool),
    Upper(&'static [u8], SeqNo, bool),
    /// No block was loaded so far.
    Unloaded,
}

/// An iterator with both ends.
pub(crate) trait Walk {
    /// Whether a call has its result.
    fn comes(&mut self, call: &Call, is_loaded: bool) -> Result<bool, Error>;

    /// How many blocks were loaded: of data, and of the index.
    fn loads(&self) -> (u64, u64);
}

fn is_name(found: Result<Option<Name>, Error>, name: Option<Name>) -> Result<bool, Error> {
    Ok(found? == name)
}

impl<A: Allocator + Clone> Walk for Iter<A> {
    fn comes(&mut self, call: &Call, _is_loaded: bool) -> Result<bool, Error> {
        match call {
            Call::Front(name) => is_name(name_of(self.next()), *name),
            Call::Back(name) => is_name(name_of(self.next_back()), *name),
            _ => Ok(true),
        }
    }

    fn loads(&self) -> (u64, u64) {
        let opened = self.opened();
        (opened.data_loads, opened.index_loads)
    }
}

// A scan has nothing at the back.
impl<A: Allocator + Clone> Walk for Scanner<A> {
    fn comes(&mut self, call: &Call, _is_loaded: bool) -> Result<bool, Error> {
        match call {
            Call::Front(name) => is_name(name_of(self.next()), *name),
            Call::Back(name) => Ok(name.is_none()),
            _ => Ok(true),
        }
    }

    fn loads(&self) -> (u64, u64) {
        let opened = self.opened();
        (opened.data_loads, opened.index_loads)
    }
}

// The name of a handle: its end key and sequence number.
fn handle_name<A: Allocator>(
    item: Option<Result<KeyedBlockHandle<A>, Error>>,
) -> Result<Option<Name>, Error> {
    match item {
        Some(Ok(handle)) => {
            let first = handle.end_key().as_slice().first().copied();
            Ok(Some((first.unwrap_or(0), handle.seqno())))
        }
        Some(Err(error)) => Err(error),
        None => Ok(None),
    }
}

fn is_sought(found: Result<bool, Error>, left: bool) -> Result<bool, Error> {
    Ok(found? == left)
}

impl<A: Allocator + Clone> Walk for BlockIndexIterImpl<A> {
    fn comes(&mut self, call: &Call, is_loaded: bool) -> Result<bool, Error> {
        match call {
            Call::Front(name) => is_name(handle_name(self.next()), *name),
            Call::Back(name) => is_name(handle_name(self.next_back()), *name),
            Call::Lower(key, seqno, left) => {
                is_sought(self.seek_lower(key, *seqno), *left || !is_loaded)
            }
            Call::Upper(key, seqno, left) => {
                is_sought(self.seek_upper(key, *seqno), *left || !is_loaded)
            }
            Call::Unloaded => Ok(self.loads() == (0, 0)),
        }
    }

    fn loads(&self) -> (u64, u64) {
        let opened = self.opened();
        (opened.data_loads, opened.index_loads)
    }
}

/// The outcome of some calls. If each has its result, the number of loaded blocks. Otherwise the
/// number of those that have it, and the error of the next one, after which nothing was yielded and
/// nothing was loaded.
///
/// `Source(9)` is another result, and `UNMADE` the call that makes the iterator.
pub(crate) type Came = Result<(u64, u64), (usize, Error)>;

pub(crate) const UNMADE: usize = 1_000;

const OTHER: Error = Error::Source(9);

// How many calls have their result before one that does not, and the error of that.
fn answered<W: Walk>(walk: &mut W, is_loaded: bool, calls: &[Call]) -> Result<(), (usize, Error)> {
    for (count, call) in calls.iter().enumerate() {
        match walk.comes(call, is_loaded) {
            Ok(true) => {}
            Ok(false) => return Err((count, OTHER)),
            Err(error) => return Err((count, error)),
        }
    }
    Ok(())
}

// Whether nothing is yielded at either end, and nothing is loaded.
fn is_over<W: Walk>(walk: &mut W) -> bool {
    let before = walk.loads();
    answered(walk, false, ENDS).is_ok() && walk.loads() == before
}

const ENDS: &[Call] = &[Call::Front(None), Call::Back(None), Call::Front(None)];

// Whether nothing is yielded or loaded, also after further seeks.
fn stays_over<W: Walk>(walk: &mut W) -> bool {
    is_over(walk)
        && walk
            .comes(&Call::Lower(b"a", SeqNo::MAX, true), false)
            .is_ok()
        && is_over(walk)
        && walk.comes(&Call::Upper(b"b", 0, true), false).is_ok()
        && is_over(walk)
}

/// The outcome of some calls of an iterator, or of making it.
pub(crate) fn walked<W: Walk + Drop>(
    made: Result<W, Error>,
    is_loaded: bool,
    calls: &[Call],
) -> Came {
    let mut walk = match made {
        Ok(walk) => walk,
        Err(error) => return Err((UNMADE, error)),
    };
    match answered(&mut walk, is_loaded, calls) {
        Ok(()) => Ok(walk.loads()),
        Err((count, error)) => {
            if stays_over(&mut walk) {
                Err((count, error))
            } else {
                Err((count, OTHER))
            }
        }
    }
}

/// The iterator under test: a range, the handles of the index, or a scan, each of a table that is
/// dropped before the first step. Or a scan of some blocks of its bytes.
pub(crate) enum Subject {
    Range(Bounds<'static>),
    Handles,
    Scan,
    Blocks(u64),
}

fn range_of<A: Allocator + Copy>(
    table: &Table<A>,
    within: (A, Bounds<'_>),
) -> Result<Iter<A>, Error> {
    let (lower, upper) = owned_range(within.0, within.1)?;
    table.range(lower, upper)
}

/// A range of a table that is dropped before the first step.
pub(crate) fn range_in<A: Allocator + Copy>(
    alloc: A,
    changed: &Changed<'_>,
    bounds: Bounds<'_>,
) -> Result<Iter<A>, Error> {
    asked_with(opened(alloc, changed), (alloc, bounds), range_of)
}

fn handles_of<A: Allocator + Copy>(table: &Table<A>) -> Result<BlockIndexIterImpl<A>, Error> {
    let index = table.block_index()?;
    let iter = index.iter();
    drop(index);
    iter
}

// The scan of a number of blocks, with a global sequence number.
fn scan_of<A: Allocator + Copy>(
    source: &BlockSource<A>,
    of: (u64, SeqNo),
) -> Result<Scanner<A>, Error> {
    Scanner::new(source, of.0, CompressionType::None, of.1)
}

/// The scan of a number of blocks of a table's bytes.
pub(crate) fn blocks_in<A: Allocator + Copy>(
    alloc: A,
    changed: &Changed<'_>,
    count: u64,
) -> Result<Scanner<A>, Error> {
    let bytes = changed_bytes(alloc, changed)?;
    asked_with(BlockSource::new(alloc, bytes), (count, changed.3), scan_of)
}

/// Whether the index is one pinned block, so that a seek can report whether it leaves anything.
pub(crate) fn is_loaded(changed: &Changed<'_>) -> bool {
    match changed.0 {
        Of::Rows(Parted::Nothing) => changed.2.1,
        _ => false,
    }
}

// The outcome of some calls.
fn outcome<A: Allocator + Copy>(
    alloc: A,
    changed: &Changed<'_>,
    subject: &Subject,
    calls: &[Call],
) -> Came {
    match subject {
        Subject::Range(bounds) => walked(range_in(alloc, changed, *bounds), false, calls),
        Subject::Handles => walked(
            asked(opened(alloc, changed), handles_of),
            is_loaded(changed),
            calls,
        ),
        Subject::Scan => walked(asked(opened(alloc, changed), Table::scan), false, calls),
        Subject::Blocks(count) => walked(blocks_in(alloc, changed, *count), false, calls),
    }
}

// ---- each kind of index

const A9: Option<Name> = Some((b'a', 9));

const A7: Option<Name> = Some((b'a', 7));

const A5: Option<Name> = Some((b'a', 5));

const B1: Option<Name> = Some((b'b', 1));

const A_KEY: &[u8] = b"a";

const B_KEY: &[u8] = b"b";

const FROM_BOTH_ENDS: &[Call] = &[
    Call::Front(A9),
    Call::Back(B1),
    Call::Front(A7),
    Call::Back(A5),
    Call::Front(None),
    Call::Back(None),
];

const NOTHING: &[Call] = &[Call::Front(None), Call::Back(None)];

// An iterator, calls, and how many blocks they load: data blocks, and blocks of a two-level index.
type Case = (Subject, &'static [Call], u64, u64);

const CASES: &[Case] = &[
    (
        Subject::Range((Bound::Excluded(A_KEY), Bound::Unbounded)),
        &[Call::Front(B1), Call::Back(None)],
        4,
        4,
    ),
    (Subject::Range(ALL), FROM_BOTH_ENDS, 4, 4),
    (
        Subject::Range((Bound::Included(B_KEY), Bound::Included(A_KEY))),
        NOTHING,
        1,
        1,
    ),
    (
        Subject::Range((Bound::Included(A_KEY), Bound::Excluded(B_KEY))),
        &[
            Call::Back(A5),
            Call::Front(A9),
            Call::Back(A7),
            Call::Front(None),
        ],
        4,
        4,
    ),
    (
        Subject::Range((Bound::Included(b"aa"), Bound::Included(b"az"))),
        NOTHING,
        1,
        1,
    ),
    (
        Subject::Range((Bound::Excluded(A_KEY), Bound::Excluded(A_KEY))),
        &[Call::Back(None)],
        4,
        4,
    ),
    (
        Subject::Range(ALL),
        &[
            Call::Back(B1),
            Call::Back(A5),
            Call::Back(A7),
            Call::Back(A9),
            Call::Back(None),
            Call::Front(None),
        ],
        4,
        4,
    ),
    (Subject::Handles, FROM_BOTH_ENDS, 0, 4),
    (
        Subject::Handles,
        &[
            Call::Lower(b"a", 7, true),
            Call::Unloaded,
            Call::Front(A5),
            Call::Back(B1),
            Call::Back(None),
        ],
        0,
        2,
    ),
    (
        Subject::Handles,
        &[
            Call::Lower(b"a", 5, true),
            Call::Upper(b"a", 0, true),
            Call::Unloaded,
            Call::Back(B1),
            Call::Front(None),
        ],
        0,
        1,
    ),
    (
        Subject::Handles,
        &[
            Call::Upper(b"a", 0, true),
            Call::Lower(b"a", 9, true),
            Call::Unloaded,
            Call::Front(A7),
            Call::Back(B1),
            Call::Front(A5),
            Call::Back(None),
        ],
        0,
        3,
    ),
    (
        Subject::Handles,
        &[
            Call::Upper(b"", 0, true),
            Call::Unloaded,
            Call::Back(A9),
            Call::Back(None),
            Call::Front(None),
        ],
        0,
        1,
    ),
    (
        Subject::Handles,
        &[
            Call::Lower(b"b", 1, false),
            Call::Unloaded,
            Call::Front(None),
            Call::Back(None),
        ],
        0,
        0,
    ),
    (
        Subject::Handles,
        &[
            Call::Lower(b"b", SeqNo::MAX, true),
            Call::Upper(b"", 0, false),
            Call::Unloaded,
            Call::Back(None),
            Call::Front(None),
        ],
        0,
        0,
    ),
];

// Whether a case has its results under each kind of index. A pinned one of one block is never
// loaded, and one on demand once.
fn is_dealt(alloc: Global, case: &Case) -> bool {
    for (kind, index) in KINDS.iter().zip([0, 1, case.3, case.3]) {
        if outcome(alloc, kind, &case.0, case.1) != Ok((case.2, index)) {
            return false;
        }
    }
    true
}

// The index of the first case that differs.
fn wrong_case(alloc: Global, cases: &[Case]) -> Option<usize> {
    for (place, case) in cases.iter().enumerate() {
        if !is_dealt(alloc, case) {
            return Some(place);
        }
    }
    None
}

#[test]
fn each_kind_of_index_leaves_what_lies_between_edges(rt: HostRuntime) {
    assert!(rt; wrong_case(rt.alloc(), CASES) == None);
}

// ---- sequence numbers, and blocks of other kinds

// A table, an iterator, calls, and their outcome.
type Reported = (Changed<'static>, Subject, &'static [Call], Came);

const A_AT_1: Call = Call::Front(Some((b'a', 1)));

const A_AT_MAX: Call = Call::Front(Some((b'a', SeqNo::MAX)));

const A_BELOW_MAX: Call = Call::Front(Some((b'a', SeqNo::MAX - 1)));

const ALL_OF_IT: Subject = Subject::Range(ALL);

const PINS: Pins = (true, true);

const OVERFLOWS: Came = Err((0, Error::SeqNoOverflow));

const TOLD: &[Reported] = &[
    // a scan of some blocks, or of one at least; the block after them is no data block
    (
        (Of::One, &[], PINS, 0),
        Subject::Blocks(1),
        &[A_AT_1, Call::Front(None)],
        Ok((1, 0)),
    ),
    (
        (Of::One, &[], PINS, 0),
        Subject::Blocks(0),
        &[A_AT_1, Call::Front(None)],
        Ok((1, 0)),
    ),
    (
        (Of::One, &[], PINS, 0),
        Subject::Blocks(9),
        &[A_AT_1, Call::Front(None)],
        Err((1, Error::InvalidTag(TagName::BlockType, 1))),
    ),
    // it adds the global sequence number, up to the largest sum
    (
        (Of::One, &[], PINS, SeqNo::MAX - 1),
        Subject::Blocks(1),
        &[A_AT_MAX, Call::Front(None)],
        Ok((1, 0)),
    ),
    (
        (Of::One, &[], PINS, SeqNo::MAX),
        Subject::Blocks(9),
        &[A_AT_MAX],
        OVERFLOWS,
    ),
    // and loads the first block at once, each block once, and no index
    (
        (Of::One, &[(44, b"?")], PINS, 0),
        Subject::Blocks(1),
        &[],
        Err((UNMADE, Error::ChecksumMismatch)),
    ),
    (
        (Of::Rows(Parted::Nothing), &[], PINS, 10),
        Subject::Scan,
        &[],
        Ok((1, 0)),
    ),
    (
        (Of::Rows(Parted::Nothing), &[], PINS, 10),
        Subject::Scan,
        &[
            Call::Front(Some((b'a', 19))),
            Call::Front(Some((b'a', 17))),
            Call::Front(Some((b'a', 15))),
            Call::Front(Some((b'b', 11))),
            Call::Front(None),
        ],
        Ok((4, 0)),
    ),
    // a stored sequence number and a global one, up to the largest sum
    (
        (Of::Numbered(SeqNo::MAX - 1), &[], PINS, 0),
        ALL_OF_IT,
        &[A_BELOW_MAX, Call::Front(None)],
        Ok((1, 0)),
    ),
    (
        (Of::Numbered(SeqNo::MAX - 1), &[], PINS, 1),
        ALL_OF_IT,
        &[A_AT_MAX, Call::Front(None)],
        Ok((1, 0)),
    ),
    (
        (Of::Numbered(0), &[], PINS, SeqNo::MAX - 1),
        ALL_OF_IT,
        &[A_BELOW_MAX, Call::Front(None)],
        Ok((1, 0)),
    ),
    (
        (Of::Numbered(0), &[], PINS, SeqNo::MAX),
        ALL_OF_IT,
        &[A_AT_MAX, Call::Front(None)],
        Ok((1, 0)),
    ),
    (
        (Of::Numbered(3), &[], PINS, SeqNo::MAX - 3),
        ALL_OF_IT,
        &[A_AT_MAX, Call::Front(None)],
        Ok((1, 0)),
    ),
    (
        (Of::Numbered(3), &[], PINS, 10),
        ALL_OF_IT,
        &[Call::Front(Some((b'a', 13))), Call::Front(None)],
        Ok((1, 0)),
    ),
];

// The index of the first row with another outcome.
fn wrong_told(alloc: Global, rows: &[Reported]) -> Option<usize> {
    for (place, (changed, subject, calls, came)) in rows.iter().enumerate() {
        if outcome(alloc, changed, subject, calls) != *came {
            return Some(place);
        }
    }
    None
}

// A table, and the outcome of a range's first step at either end, and of a scan's.
type FailsAtOnce = (Changed<'static>, Came, Came);

const FAIL_AT_ONCE: &[FailsAtOnce] = &[
    // the sequence numbers of entries are tested where they are read
    (BELITTLED, OVERFLOWS, OVERFLOWS),
    (UNDERSTATED, OVERFLOWS, OVERFLOWS),
    // a damaged data block, which a scan loads as it is made
    (
        (Of::One, &[(44, b"?")], PINS, 0),
        Err((0, Error::ChecksumMismatch)),
        Err((UNMADE, Error::ChecksumMismatch)),
    ),
];

const FRONT: &[Call] = &[Call::Front(None)];

const BACK: &[Call] = &[Call::Back(None)];

// Whether a table has these outcomes.
fn fails_at_once(alloc: Global, row: &FailsAtOnce) -> bool {
    let (changed, came, scanned) = row;
    outcome(alloc, changed, &ALL_OF_IT, FRONT) == *came
        && outcome(alloc, changed, &ALL_OF_IT, BACK) == *came
        && outcome(alloc, changed, &Subject::Scan, FRONT) == *scanned
}

#[test]
fn numbers_are_lifted_and_a_refusal_ends_what_is_walked(rt: HostRuntime) {
    assert!(rt; wrong_told(rt.alloc(), TOLD) == None);
    for row in FAIL_AT_ONCE {
        assert!(rt; fails_at_once(rt.alloc(), row));
    }
}

// ---- out of memory

// An iterator and its calls. Then two sets of calls, as bits: 1 for the first call, 2 for the
// second, 4 for any later one. Calls of the first set run out of memory if a certain allocation
// fails. Calls of the second set never do.
type Refused = (Changed<'static>, Subject, &'static [Call], u8, u8);

const WITHIN: Bounds<'static> = (Bound::Included(A_KEY), Bound::Included(B_KEY));

// A seek at each end, and steps up to the last.
const SOUGHT: &[Call] = &[
    Call::Lower(b"a", 7, true),
    Call::Upper(b"a", 0, true),
    Call::Front(A5),
    Call::Back(B1),
    Call::Front(None),
    Call::Back(None),
];

const SCANNED: &[Call] = &[
    Call::Front(A9),
    Call::Front(A7),
    Call::Front(A5),
    Call::Front(B1),
    Call::Front(None),
];

const PARTED: Changed<'static> = (Of::Rows(Parted::Index), &[], (false, false), 0);

// A seek in a pinned index of one block never allocates. Nor does the first step of a scan: its
// block is loaded when the scan is made.
static REFUSED: [Refused; 12] = [
    (ON_DEMAND, ALL_OF_IT, FROM_BOTH_ENDS, 7, 0),
    (TWO_LEVELS, ALL_OF_IT, FROM_BOTH_ENDS, 7, 0),
    (OLDER, ALL_OF_IT, FROM_BOTH_ENDS, 7, 0),
    (ON_DEMAND, Subject::Range(WITHIN), FROM_BOTH_ENDS, 7, 0),
    (TWO_LEVELS, Subject::Range(WITHIN), FROM_BOTH_ENDS, 7, 0),
    (OLDER, Subject::Range(WITHIN), FROM_BOTH_ENDS, 7, 0),
    (LOADED, Subject::Handles, SOUGHT, 0, 3),
    (ON_DEMAND, Subject::Handles, SOUGHT, 7, 0),
    (TWO_LEVELS, Subject::Handles, SOUGHT, 7, 0),
    (OLDER, Subject::Handles, SOUGHT, 7, 0),
    (ON_DEMAND, Subject::Scan, SCANNED, 6, 1),
    (PARTED, Subject::Scan, SCANNED, 6, 1),
];

// Which call runs out of memory, if any; `None` where they have another outcome.
fn refused_call(came: &Came) -> Option<u8> {
    match came {
        Ok(_) => Some(0),
        Err((0, Error::OutOfMemory)) => Some(1),
        Err((1, Error::OutOfMemory)) => Some(2),
        Err((1_000, Error::OutOfMemory)) => Some(0),
        Err((_, Error::OutOfMemory)) => Some(4),
        Err(_) => None,
    }
}

// Which call runs out of memory if the `nth` allocation fails, and how many allocations there were.
// If `nth` is 0, no allocation fails.
fn outcome_at(alloc: Global, nth: usize, refused: &Refused) -> (Option<u8>, usize) {
    let heap = Refusing::new(alloc, nth);
    let came = outcome(&heap, &refused.0, &refused.1, refused.2);
    (refused_call(&came), heap.requests())
}

// Which calls run out of memory over all runs with each allocation failing in turn. `None` if a run
// has another outcome, or if there is no allocation.
fn refused_calls(alloc: Global, refused: &Refused) -> Option<u8> {
    let (calls, requests) = outcome_at(alloc, 0, refused);
    if calls != Some(0) || requests == 0 {
        return None;
    }
    let mut calls = 0;
    for nth in 1..=requests {
        let (more, _) = outcome_at(alloc, nth, refused);
        calls |= more?;
    }
    Some(calls)
}

// The index of the first row of which other calls run out of memory.
fn wrong_refused(alloc: Global, rows: &[Refused]) -> Option<usize> {
    for (place, row) in rows.iter().enumerate() {
        match refused_calls(alloc, row) {
            Some(calls) if calls & row.3 == row.3 && calls & row.4 == 0 => {}
            _ => return Some(place),
        }
    }
    None
}

#[test]
fn a_refused_request_ends_what_is_walked(rt: HostRuntime) {
    assert!(rt; wrong_refused(rt.alloc(), &REFUSED) == None);
}
