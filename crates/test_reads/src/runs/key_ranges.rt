//! Key ranges of numbers, and reversed bounds.
use lsm_sorted::KeyRange;
use sst_blocks::{Error, Slice};
use std::alloc::Global;
use std::ops::Bound;
use test_support::samples::large::{add, asked_with};
use test_support::samples::runs::Bounds;

fn range_of(alloc: Global, min: &[u8], max: &[u8]) -> Result<KeyRange, Error> {
    let min = Slice::from(alloc, min)?;
    Ok(KeyRange::new((min, Slice::from(alloc, max)?)))
}

// The ranges between numbers, with their eight big-endian bytes as keys.
fn ranges_of(alloc: Global, ends: &[(u64, u64)]) -> Result<Vec<KeyRange>, Error> {
    let mut ranges = Vec::new(alloc);
    for (min, max) in ends {
        add(
            &mut ranges,
            range_of(alloc, &min.to_be_bytes(), &max.to_be_bytes()),
        )?;
    }
    Ok(ranges)
}

// Whether some ranges are disjoint, and whether their aggregate has these ends.
fn together(ranges: &Vec<KeyRange>, by: (Global, (u64, u64))) -> Result<(bool, bool), Error> {
    let (alloc, (min, max)) = by;
    let all: Vec<&KeyRange> = ranges.iter().collect(alloc)?;
    let is_disjoint = KeyRange::is_disjoint(&all);
    let found = KeyRange::aggregate(&all);
    drop(all);
    let found = found?;
    let is_min = found.min().as_slice() == min.to_be_bytes().as_slice();
    let is_max = found.max().as_slice() == max.to_be_bytes().as_slice();
    Ok((is_disjoint, is_min && is_max))
}

// The ends of ranges, whether they are disjoint, and the ends of their aggregate. As decimal digits
// 10 would be below 2, and as little-endian bytes 256 would be below 2.
const AGGREGATES: &[(&[(u64, u64)], bool, (u64, u64))] = &[
    (&[(2, 4), (0, 4), (7, 10)], false, (0, 10)),
    (&[(2, 4), (7, 10)], true, (2, 10)),
    (&[(2, 9), (10, 256)], true, (2, 256)),
    (&[(256, u64::MAX), (2, 256)], false, (2, u64::MAX)),
];

#[test]
fn ranges_of_numbers_reach_from_the_least_to_the_greatest(rt: HostRuntime) {
    let alloc = rt.alloc();
    for &(ends, is_disjoint, reach) in AGGREGATES {
        let found = asked_with(ranges_of(alloc, ends), (alloc, reach), together);
        assert!(rt; found == Ok((is_disjoint, true)), "{ends:?}");
    }
}

// Whether the range from "a" to "z" overlaps with two bounds.
fn overlaps(alloc: Global, bounds: Bounds<'_>) -> Result<bool, Error> {
    let range = range_of(alloc, b"a", b"z")?;
    let overlaps = range.overlaps_with_bounds(&bounds);
    drop(range);
    Ok(overlaps)
}

// Reversed bounds, and whether the range overlaps with them: each bound is compared only with its
// own edge.
const REVERSED: &[(Bounds<'static>, bool)] = &[
    ((Bound::Included(b"m"), Bound::Included(b"a")), true),
    ((Bound::Included(b"z"), Bound::Included(b"a")), true),
    ((Bound::Excluded(b"m"), Bound::Included(b"a")), true),
    ((Bound::Included(b"m"), Bound::Excluded(b"a")), false),
    ((Bound::Excluded(b"z"), Bound::Included(b"a")), false),
];

#[test]
fn reversed_bounds_may_overlap_at_both_edges(rt: HostRuntime) {
    for &(bounds, expected) in REVERSED {
        assert!(rt; overlaps(rt.alloc(), bounds) == Ok(expected));
    }
}
