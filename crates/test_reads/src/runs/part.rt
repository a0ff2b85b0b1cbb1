//! The results of reads before and after a part of several runs is replaced by its compaction.
ghost use Rattle.std.specs.Prelude.{◌∷◌, [], IfOk, map};
ghost use Rattle.test_reads.specs.Words as spec;

use example_calling::compact_part_back;
use lsm_tables::compaction::{Rules, compact_to_run_with};
use lsm_tables::table::OpenOptions;
use lsm_writers::{MultiWriter, TableId, TableIds, Timestamp};
use sst_blocks::{Error, SeqNo, ValueType};
use std::alloc::{Allocator, Global};
use std::ops::Bound;
use std::sync::Arc;
use test_support::samples::large::asked_with;
use test_support::samples::lists::read_names;
use test_support::samples::runs::{ALL, Bounds, Lists, Name, Tables, owned_range, runs_of};

// The names of the entry that a point read finds, and of the entries at both ends of a range.
type Names = [Option<Name>; 3];

// Rules, the first id, if one is left, a key, a snapshot, bounds of keys, and the names that are
// found before and after.
type Around = (
    Rules,
    Option<TableId>,
    &'static [u8],
    SeqNo,
    Bounds<'static>,
    [Names; 2],
);

// A counter from an id on, or one without ids.
fn ids_from(first: Option<TableId>) -> TableIds {
    let mut ids = TableIds::new(first.unwrap_or(TableId::MAX));
    if first.is_none() {
        ids.next();
    }
    ids
}

// The names that a point read and a range within bounds find before and after some runs are
// replaced by their compaction.
fn found_around<A: Allocator + Copy>(
    alloc: A,
    front: &[Tables<A>],
    part: &[Tables<A>],
    behind: &[Tables<A>],
    around: &Around,
) -> Result<[Names; 2], Error>
    requires { spec.AreCompactable (map spec.arc_value part.now) }
{
    let &(rules, first, key, seqno, bounds, _) = around;
    let (ids, moment) = (ids_from(first), Timestamp::from(0));
    let range = owned_range(alloc, bounds)?;
    let (before, after) = compact_part_back(
        alloc, front, part, behind, rules, ids, 0, moment, key, seqno, range,
    )?;
    let (before, after) = (read_names(alloc, before), read_names(alloc, after));
    Ok([before?, after?])
}

const V: ValueType = ValueType::Value;

// The part, and the runs before it and after it.
const PART: &[Lists] = &[&[&[(b"a", 6, ValueType::Tombstone, b"")]]];

const BESIDE: &[Lists] = &[
    &[&[(b"a", 3, V, b"x")]],
    &[&[(b"a", 1, V, b"x"), (b"b", 2, V, b"x")]],
];

const ALL_STAY: Rules = Rules {
    watermark: 0,
    evict: false,
    zeroing: false,
};

// A run that may be compacted, because it is the result of a compaction. Fails with `Source(2)` if
// that is empty.
fn part_of<A: Allocator + Copy>(alloc: A) -> Result<Tables<A>, Error>
    ensures { IfOk result (λ run. spec.AreCompactable (spec.arc_value run ∷ [])) }
{
    let runs = runs_of(alloc, PART)?;
    let writer = MultiWriter::new(alloc, TableIds::new(1), 0, 0, Timestamp::from(0))?;
    let how = OpenOptions::default();
    let (_, run) = compact_to_run_with(alloc, &runs, ALL_STAY, writer, &how)?;
    match run {
        Some(run) => Ok(Arc::new(alloc, run)?),
        None => Err(Error::Source(2)),
    }
}

// Whether reads have their results with the part after the first of two runs and before the second.
// The part uses ample memory.
fn finds_between<A: Allocator + Copy>(
    runs: &Vec<Tables<A>, A>,
    by: (A, A, &Around),
) -> Result<bool, Error> {
    let (alloc, plenty, around) = by;
    let &(_, _, _, _, _, wanted) = around;
    let (front, behind) = (runs.get(..1).unwrap_or(&[]), runs.get(1..).unwrap_or(&[]));
    let part = [part_of(plenty)?];
    let found = found_around(alloc, front, &part, behind, around);
    drop(part);
    Ok(found? == wanted)
}

// Whether reads have their results with the part between both runs, which use ample memory.
fn finds<A: Allocator + Copy>(alloc: A, plenty: A, around: &Around) -> Result<bool, Error> {
    asked_with(
        runs_of(plenty, BESIDE),
        (alloc, plenty, around),
        finds_between,
    )
}

const KEEPING: Rules = Rules {
    watermark: 7,
    evict: false,
    zeroing: false,
};

const EVICTING: Rules = Rules {
    watermark: 7,
    evict: true,
    zeroing: false,
};

const ZEROING: Rules = Rules {
    watermark: 7,
    evict: false,
    zeroing: true,
};

const UP_TO_A: Bounds<'static> = (Bound::Unbounded, Bound::Included(b"a"));

const BEHIND_A: Bounds<'static> = (Bound::Excluded(b"a"), Bound::Unbounded);

const A6: Option<Name> = Some((b'a', 6));

const A3: Option<Name> = Some((b'a', 3));

const A0: Option<Name> = Some((b'a', 0));

const B2: Option<Name> = Some((b'b', 2));

// A range has the newest version of each key, whatever the snapshot of the point read.
const AROUND_A6: &[Around] = &[
    (ZEROING, Some(9), b"a", 8, ALL, [[A6, A6, B2], [A3, A3, B2]]),
    (KEEPING, Some(9), b"a", 8, ALL, [[A6, A6, B2]; 2]),
    (KEEPING, Some(9), b"a", 4, ALL, [[A3, A6, B2]; 2]),
    (KEEPING, Some(9), b"b", 8, ALL, [[B2, A6, B2]; 2]),
    (
        EVICTING,
        Some(9),
        b"a",
        8,
        ALL,
        [[A6, A6, B2], [A3, A3, B2]],
    ),
    (
        ZEROING,
        Some(9),
        b"a",
        1,
        ALL,
        [[None, A6, B2], [A0, A3, B2]],
    ),
    (
        ZEROING,
        Some(9),
        b"a",
        8,
        UP_TO_A,
        [[A6, None, A6], [A3, None, A3]],
    ),
    (KEEPING, Some(9), b"a", 8, BEHIND_A, [[A6, None, B2]; 2]),
];

// No id is left for the run.
const SPENT: &[Around] = &[(KEEPING, None, b"a", 10, ALL, [[None; 3]; 2])];

#[test]
fn a_part_is_compacted_in_its_place(rt: HostRuntime) {
    for around in AROUND_A6 {
        assert!(rt; matches!(finds(rt.alloc(), rt.alloc(), around), Ok(true)));
    }
    for around in SPENT {
        let found = finds(rt.alloc(), rt.alloc(), around);
        assert!(rt; matches!(found, Err(Error::TableIdsSpent)));
    }
}

/// Whether reads have the results of the first of these cases, whose rules zero sequence numbers.
pub(crate) fn zeroed_is_found<A: Allocator + Copy>(alloc: A, plenty: A) -> Result<bool, Error> {
    match AROUND_A6.first() {
        Some(around) => finds(alloc, plenty, around),
        None => Ok(false),
    }
}
