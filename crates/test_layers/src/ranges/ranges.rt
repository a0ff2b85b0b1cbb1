//! Worked examples of key ranges.

use crate::ranges::tables::{
    Example, FakeTable, ends_of, first_wrong, is_like, range_of, tables_of,
};
use lsm_sorted::{Indexed, KeyRange, Ranged};
use std::alloc::{Allocator, Global};
use std::ops::Bound;
use test_support::Refusing;

// Whether a range is well-formed, has the first key of another one, overlaps with that one, and
// contains it.
type Reported = (bool, bool, bool, bool);

// A query of key ranges, and its result.
enum Asked {
    // A range compared with another one.
    Of(&'static str, &'static str, Reported),
    // Whether at most three ranges are disjoint, and their aggregate.
    Together(&'static str, bool, &'static str),
    // Whether the range from "key1" to "key5" overlaps with a lower and an upper bound.
    Within(Bound<&'static [u8]>, Bound<&'static [u8]>, bool),
}

// Compares the range of a table in a run with another one.
fn told_by<A: Allocator>(table: &Indexed<FakeTable<A>>, other: &KeyRange<A>) -> Reported {
    let range = table.key_range();
    (
        range.is_well_formed(),
        range.contains_key(other.min().as_slice()),
        range.overlaps_with_key_range(other),
        range.contains_range(other),
    )
}

// Whether a table in a run has its id and the ends of its range, and the range equals its clone.
fn shows<A: Allocator>(table: &Indexed<FakeTable<A>>, range: &'static str) -> bool {
    let (min, max) = ends_of(range);
    let own = table.key_range();
    table.id == 7 && own.min().equals(min) && own.max().equals(max) && is_like(own.clone(), own)
}

// Compares a range with another one; and whether a table with the range has its ends.
fn told_of(range: &'static str, other: &'static str) -> (Reported, bool) {
    let table: Indexed<FakeTable> = Indexed::new(FakeTable {
        id: 7,
        range: range_of(range),
    });
    let other = range_of(other);
    (told_by(&table, &other), shows(&table, range))
}

// Whether some ranges are disjoint, and whether their aggregate is the wanted one.
fn reach<A: Allocator>(ranges: &[&KeyRange<A>], wanted: &KeyRange<A>) -> (bool, bool) {
    (
        KeyRange::is_disjoint(ranges),
        is_like(KeyRange::aggregate(ranges), wanted),
    )
}

// Whether the ranges of at most three tables are disjoint, and whether their aggregate is the
// wanted one.
fn reach_together<A: Allocator>(tables: &[FakeTable<A>], wanted: &KeyRange<A>) -> (bool, bool) {
    match tables {
        [] => reach(&[], wanted),
        [first, second] => {
            let two = [first.key_range(), second.key_range()];
            reach(&two, wanted)
        }
        [first, second, third] => {
            let three = [first.key_range(), second.key_range(), third.key_range()];
            reach(&three, wanted)
        }
        _ => (false, false),
    }
}

fn overlaps(low: Bound<&[u8]>, high: Bound<&[u8]>) -> bool {
    let range: KeyRange = range_of("key1-key5");
    range.overlaps_with_bounds(&(low, high))
}

impl Example for Asked {
    fn is_so(&self, heap: &Refusing, may_fail: bool) -> bool {
        match self {
            Asked::Of(range, other, returned) => told_of(range, other) == (*returned, true),
            Asked::Together(all, disjoint, wanted) => match tables_of(heap, all) {
                Ok(tables) => reach_together(&tables, &range_of(wanted)) == (*disjoint, true),
                Err(_) => may_fail,
            },
            Asked::Within(low, high, overlap) => overlaps(*low, *high) == *overlap,
        }
    }
}

const ASKED: &[Asked] = &[
    Asked::Of("key1-key5", "key0-key0", (true, false, false, false)),
    Asked::Of("key1-key5", "key01-key01", (true, false, false, false)),
    Asked::Of("key1-key5", "key1-key1", (true, true, true, true)),
    Asked::Of("key1-key5", "key2-key2", (true, true, true, true)),
    Asked::Of("key1-key5", "key3-key3", (true, true, true, true)),
    Asked::Of("key1-key5", "key4-key4", (true, true, true, true)),
    Asked::Of("key1-key5", "key4x-key4x", (true, true, true, true)),
    Asked::Of("key1-key5", "key5-key5", (true, true, true, true)),
    Asked::Of("key1-key5", "key5x-key5x", (true, false, false, false)),
    Asked::Of("key1-key5", "key6-key6", (true, false, false, false)),
    Asked::Of("b-a", "a-a", (false, false, false, false)),
    Asked::Of("a-f", "b-h", (true, true, true, false)),
    Asked::Of("a-f", "f-t", (true, true, true, false)),
    Asked::Of("a-f", "g-t", (true, false, false, false)),
    Asked::Of("a-z", "c-f", (true, true, true, true)),
    Asked::Together("2-4 0-4 7-9", false, "0-9"),
    Asked::Together("6-7 0-2 0-9", false, "0-9"),
    Asked::Together("0-4 0-4", false, "0-4"),
    Asked::Together("a-d g-z", true, "a-z"),
    Asked::Together("a-f b-h", false, "a-h"),
    Asked::Together("a-d d-e f-z", false, "a-z"),
    Asked::Together("a-d e-e f-z", true, "a-z"),
    Asked::Together("", true, "-"),
    Asked::Within(Bound::Included(b"key1"), Bound::Included(b"key5"), true),
    Asked::Within(Bound::Included(b"key1"), Bound::Excluded(b"key5"), true),
    Asked::Within(Bound::Excluded(b"key0"), Bound::Excluded(b"key6"), true),
    Asked::Within(Bound::Excluded(b"key5"), Bound::Excluded(b"key6"), false),
    Asked::Within(Bound::Unbounded, Bound::Unbounded, true),
    Asked::Within(Bound::Unbounded, Bound::Excluded(b"key1"), false),
    Asked::Within(Bound::Excluded(b"key5"), Bound::Unbounded, false),
    Asked::Within(Bound::Unbounded, Bound::Excluded(b"key2"), true),
    Asked::Within(Bound::Unbounded, Bound::Included(b"key1"), true),
    Asked::Within(Bound::Unbounded, Bound::Included(b"key5"), true),
    Asked::Within(Bound::Unbounded, Bound::Included(b"key6"), true),
    Asked::Within(Bound::Included(b"key0"), Bound::Unbounded, true),
    Asked::Within(Bound::Included(b"key5"), Bound::Unbounded, true),
    Asked::Within(Bound::Included(b"key4"), Bound::Included(b"key2"), true),
];

#[test]
fn ranges_tell_of_keys_and_other_ranges_and_bounds(rt: HostRuntime) {
    let wrong = first_wrong(rt.alloc(), ASKED);
    assert!(rt; wrong.is_none(), "{wrong:?}");
    assert!(rt; KeyRange::<Global>::empty().contains_key(b""));
}
