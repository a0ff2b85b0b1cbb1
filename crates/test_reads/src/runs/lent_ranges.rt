//! Lending ranges over runs, compared with those by value.
ghost use Rattle.test_reads.specs.Words as spec;

use lsm_tables::merge::NewestOf;
use lsm_tables::run::{LentNewestOf, lend_runs_at, range_runs_at};
use sst_blocks::{Error, IterItem, Lending, SeqNo, ValueType};
use std::alloc::Global;
use std::ops::Bound;
use test_support::samples::rows::Row;
use test_support::samples::runs::{Bounds, Tables, owned_range, run_of};
use test_support::{agree, random};

const KEYS: &[&[u8]] = &[b"", b"a", b"b", b"bb", b"c", b"d"];

const RUNS: u64 = 3;

// Pseudorandom rows of a run, and a last row, so that there is one. The versions of a key are in
// descending order, and the sequence numbers of different runs differ.
fn rows_of(alloc: Global, seed: &mut u64, run: u64) -> Result<Vec<Row<'static>>, Error> {
    let mut rows = Vec::new(alloc);
    for key in KEYS {
        for version in (0..random(seed) % 4).rev() {
            let kind = match random(seed) % 4 {
                0 => ValueType::Tombstone,
                1 => ValueType::WeakTombstone,
                _ => ValueType::Value,
            };
            let seqno = version.wrapping_mul(RUNS).wrapping_add(run);
            rows.push((*key, seqno, kind, b"".as_slice()))?;
        }
    }
    rows.push((b"e", run, ValueType::Value, b""))?;
    Ok(rows)
}

// A run of one table for each number.
fn random_runs(alloc: Global, mut seed: u64) -> Result<Vec<Tables<Global>>, Error> {
    let mut runs = Vec::new(alloc);
    for run in 0..RUNS {
        let rows = rows_of(alloc, &mut seed, run)?;
        let tables = run_of(alloc, &[rows.as_slice()])?;
        runs.push(tables)?;
    }
    Ok(runs)
}

// The entries of newest versions by value. It is generic in their sources: a proof is slow if a
// concrete stream is passed to a function that is generic in streams.
fn all_given<S: Iterator<Item = IterItem<Global>> + Drop>(
    alloc: Global,
    items: NewestOf<S, Global>,
) -> Result<Vec<IterItem<Global>>, Error>
    requires can { ⟦<NewestOf<S, Global> as Iterator>⟧.can_next items }
    requires finite { spec.IsFinite (⟦<NewestOf<S, Global> as Iterator>⟧.remaining items) }
{
    let mut given = Vec::new(alloc);
    for item in items {
        given.push(item)?;
    }
    Ok(given)
}

// The newest versions below a bound by value, from the front.
fn given_within(
    alloc: Global,
    runs: &[Tables<Global>],
    bounds: Bounds<'_>,
    seqno: SeqNo,
) -> Result<Vec<IterItem<Global>>, Error> {
    let range = owned_range(alloc, bounds)?;
    let given = range_runs_at(alloc, runs, range, seqno)?;
    all_given(alloc, given)
}

// Whether lending newest versions yield these entries, from the front. It is generic like
// `all_given`.
#[tactic(auto, using(sst_entries::proofs::FrontLemmas::can_in_front))]
fn agree_newest<L: Lending + Drop>(
    given: Vec<IterItem<Global>>,
    lent: LentNewestOf<L, Global>,
) -> Result<bool, Error>
    requires lent { spec.CanYield ⟦<LentNewestOf<L, Global> as Lending>⟧.advances spec.nowhere
        ⟦<LentNewestOf<L, Global> as Lending>⟧.can_advance
        ⟦<LentNewestOf<L, Global> as Lending>⟧.can_advance lent }
{
    agree(given.into_iter(), lent, KEYS.len() + 3)
}

// Whether the newest versions below a bound are the same by value and borrowed, from the front.
fn lends_what_it_gives(
    alloc: Global,
    runs: &[Tables<Global>],
    bounds: Bounds<'_>,
    seqno: SeqNo,
) -> Result<bool, Error> {
    let given = given_within(alloc, runs, bounds, seqno)?;
    let range = owned_range(alloc, bounds)?;
    let lent = lend_runs_at(alloc, runs, range, seqno)?;
    agree_newest(given, lent)
}

const WITHIN: &[Bounds<'static>] = &[
    (Bound::Unbounded, Bound::Unbounded),
    (Bound::Included(b"a"), Bound::Excluded(b"c")),
    (Bound::Excluded(b"a"), Bound::Included(b"bb")),
    (Bound::Included(b"f"), Bound::Unbounded),
];

// Whether they are the same within all bounds, and at all snapshots.
fn lends_all(alloc: Global, seed: u64) -> Result<bool, Error> {
    let runs = random_runs(alloc, seed)?;
    for bounds in WITHIN {
        for seqno in [0, 1, 4, 7, SeqNo::MAX] {
            if !lends_what_it_gives(alloc, &runs, *bounds, seqno)? {
                return Ok(false);
            }
        }
    }
    Ok(true)
}

#[test]
fn ranges_over_runs_lend_what_they_give(rt: HostRuntime) {
    for seed in 1..=6u64 {
        assert!(rt; matches!(lends_all(rt.alloc(), seed), Ok(true)), "{seed}");
    }
}
