//! Ranges and scans as lending iterators, compared with those by value. They have the same entries
//! and errors in the same order, and as many loads, also over damaged bytes.
use crate::tables::walks::{blocks_in, range_in};
use crate::tables::{Changed, KINDS, Of, Pins, changed_bytes};
use lsm_tables::table::Iter;
use sst_blocks::{Error, IterItem, Lending};
use std::alloc::Global;
use std::ops::Bound;
use test_support::samples::lending::{Walk, walk_both};
use test_support::samples::runs::{ALL, Bounds};

// Whether a lending range yields the same as one by value; or the error of making it.
fn lends(alloc: Global, changed: &Changed<'_>, bounds: Bounds<'_>) -> Result<bool, Error> {
    let giving = range_in(alloc, changed, bounds);
    let lending = range_in(alloc, changed, bounds);
    Ok(walk_both(giving, lending)?.is_some())
}

const EDGES: &[Bound<&[u8]>] = &[
    Bound::Unbounded,
    Bound::Included(b""),
    Bound::Included(b"a"),
    Bound::Excluded(b"a"),
    Bound::Included(b"aa"),
    Bound::Included(b"b"),
    Bound::Excluded(b"b"),
];

// Whether the ranges between each two of the edges yield the same.
fn lends_within(alloc: Global, changed: &Changed<'_>) -> bool {
    for lower in EDGES {
        for upper in EDGES {
            if lends(alloc, changed, (*lower, *upper)) != Ok(true) {
                return false;
            }
        }
    }
    true
}

// The result of two ranges of a table with one byte changed, one of them lending; `None` if they
// differ.
fn walk_changed(
    alloc: Global,
    changed: &Changed<'_>,
    at: usize,
    byte: u8,
) -> Result<Option<Walk>, Error> {
    let byte = [byte];
    let changes: [(usize, &[u8]); 1] = [(at, &byte)];
    let damaged = (changed.0, changes.as_slice(), changed.2, 0);
    let giving = range_in(alloc, &damaged, ALL);
    walk_both(giving, range_in(alloc, &damaged, ALL))
}

// The number of tables that fail to open, the number of ranges that end with an error, and the sum
// of all error codes.
type Counts = (usize, usize, u64);

// The counts with one more table; `None` if its two ranges differ.
fn with_walk(counts: Counts, walk: Result<Option<Walk>, Error>) -> Option<Counts> {
    let (unopened, ended, sum) = counts;
    match walk {
        Ok(Some((_, 0))) => Some(counts),
        Ok(Some((_, number))) => Some((unopened, ended.saturating_add(1), plus(sum, number))),
        Ok(None) => None,
        Err(error) => Some((unopened.saturating_add(1), ended, plus(sum, error.number()))),
    }
}

fn plus(sum: u64, number: u8) -> u64 {
    sum.saturating_add(u64::from(number))
}

// The counts of a table with each of its bytes changed in turn.
fn counts_of(alloc: Global, changed: &Changed<'_>) -> Option<Counts> {
    let bytes = changed_bytes(alloc, changed).ok()?;
    let mut counts = (0, 0, 0);
    for (at, byte) in bytes.as_slice().iter().enumerate() {
        counts = with_walk(counts, walk_changed(alloc, changed, at, *byte ^ 1))?;
    }
    Some(counts)
}

// The counts of each of [`KINDS`], as counted by the reader of tables in `.ci/answers`.
const COUNTS: [Counts; 4] = [
    (1339, 184, 8141),
    (1207, 316, 8141),
    (1335, 396, 9105),
    (1269, 380, 8687),
];

#[test]
fn ranges_lend_what_they_give(rt: HostRuntime) {
    for (kind, counts) in KINDS.iter().zip(COUNTS) {
        assert!(rt; lends_within(rt.alloc(), kind));
        assert!(rt; counts_of(rt.alloc(), kind) == Some(counts));
    }
}

// ---- scans

// A table, the number of its blocks that are scanned, and the result of the scan.
type Case = (Changed<'static>, u64, Walk);

const PINS: Pins = (true, true);

// All three blocks, some of them, a global sequence number up to the largest sum and past it, and a
// damaged second block.
const CASES: &[Case] = &[
    ((Of::Kinds, &[], PINS, 0), 3, (7, 0)),
    ((Of::Kinds, &[], PINS, 0), 2, (5, 0)),
    ((Of::Kinds, &[], PINS, 5), 3, (7, 0)),
    ((Of::Kinds, &[], PINS, 6), 3, (3, 21)),
    ((Of::Kinds, &[(100, b"?")], PINS, 0), 3, (2, 5)),
    ((Of::Kinds, &[(100, b"?")], PINS, 0), 1, (2, 0)),
];

#[test]
fn a_scan_lends_what_it_gives(rt: HostRuntime) {
    for (changed, count, walk) in CASES {
        let giving = blocks_in(rt.alloc(), changed, *count);
        let lending = blocks_in(rt.alloc(), changed, *count);
        assert!(rt; walk_both(giving, lending) == Ok(Some(*walk)));
    }
}

// ---- one range, lending and by value in turn

// Whether a lending step of a range, at the back or at the front, yields the next item of another
// range by value.
fn lends_next(mixed: &mut Iter, plain: &mut Iter, back: bool) -> Result<bool, Error> {
    let (more, wanted) = if back {
        (mixed.advance_back()?, plain.next_back())
    } else {
        (mixed.advance()?, plain.next())
    };
    match wanted {
        Some(item) => Ok(more && mixed.entry() == Some(item?.as_entry_ref())),
        None => Ok(!more && mixed.entry().is_none()),
    }
}

// Whether a range, after a step by value, borrows the entry that this step yielded.
fn lends_given(mixed: &Iter, found: &Option<IterItem>) -> bool {
    match found {
        Some(Ok(item)) => mixed.entry() == Some(item.as_entry_ref()),
        _ => mixed.entry().is_none(),
    }
}

// Whether a range yields the next item of another range, at the back or at the front, and then
// borrows the right entry.
fn gives_next(mixed: &mut Iter, plain: &mut Iter, back: bool) -> Result<bool, Error> {
    let (found, wanted) = if back {
        (mixed.next_back(), plain.next_back())
    } else {
        (mixed.next(), plain.next())
    };
    if !lends_given(mixed, &found) {
        return Ok(false);
    }
    match (found, wanted) {
        (Some(found), Some(wanted)) => Ok(found? == wanted?),
        (None, None) => Ok(true),
        _ => Ok(false),
    }
}

// Whether two ranges yield the same, if one of them takes lending steps and steps by value, at
// either end, in turn.
fn are_same_by_turns(
    mixed: Result<Iter, Error>,
    plain: Result<Iter, Error>,
) -> Result<bool, Error> {
    let mut mixed = mixed?;
    let mut plain = plain?;
    let mut same = true;
    for turn in 0..12 {
        same &= match turn % 4 {
            0 => lends_next(&mut mixed, &mut plain, false)?,
            1 => gives_next(&mut mixed, &mut plain, true)?,
            2 => lends_next(&mut mixed, &mut plain, true)?,
            _ => gives_next(&mut mixed, &mut plain, false)?,
        };
    }
    mixed.unlend();
    Ok(same && mixed.entry().is_none())
}

// Whether lending steps of a range from its back yield the items of another range by value.
fn lends_from_back(
    lending: Result<Iter, Error>,
    plain: Result<Iter, Error>,
) -> Result<bool, Error> {
    let mut lending = lending?;
    let mut plain = plain?;
    let mut same = true;
    for _ in 0..12 {
        same &= lends_next(&mut lending, &mut plain, true)?;
    }
    Ok(same)
}

#[test]
fn a_range_lends_from_its_back(rt: HostRuntime) {
    for kind in KINDS {
        let lending = range_in(rt.alloc(), kind, ALL);
        let plain = range_in(rt.alloc(), kind, ALL);
        assert!(rt; lends_from_back(lending, plain) == Ok(true));
    }
}

#[test]
fn a_range_lends_and_gives_by_turns(rt: HostRuntime) {
    for kind in KINDS {
        let mixed = range_in(rt.alloc(), kind, ALL);
        let plain = range_in(rt.alloc(), kind, ALL);
        assert!(rt; are_same_by_turns(mixed, plain) == Ok(true));
    }
}
