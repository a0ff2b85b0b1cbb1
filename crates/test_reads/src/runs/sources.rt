//! Ranges of two runs and a memtable, below a sequence number.
ghost use Rattle.test_reads.specs.Words as spec;

use lsm_tables::merge::NewestOf;
use lsm_tables::run::{
    LentNewestOf, lend_entries, lend_entries_within, lend_sources_at, range_sources_at,
};
use sst_blocks::{Error, InternalValue, IterItem, Lending, SeqNo, ValueType};
use std::alloc::{Allocator, Global};
use std::ops::Bound;
use test_support::go_on;
use test_support::samples::rows::{Row, entry};
use test_support::samples::runs::{ALL, Bounds, Lists, owned_range, runs_of};

const V: ValueType = ValueType::Value;

// The newer run and the older one.
const RUNS: &[Lists] = &[
    &[&[
        (b"a", 9, V, b""),
        (b"a", 7, V, b""),
        (b"b", 3, ValueType::Tombstone, b""),
    ]],
    &[&[(b"a", 2, V, b""), (b"c", 5, V, b"")]],
];

// The entries of the memtable.
const MEMORY: &[Row<'static>] = &[(b"a", 11, V, b""), (b"c", 6, V, b"")];

// The index of a key in the alphabet, and a sequence number, as three digits.
fn code_of(key: &[u8], seqno: SeqNo) -> u64 {
    let letter = match key {
        [byte] => u64::from(byte.saturating_sub(96)),
        _ => 0,
    };
    (letter * 100).saturating_add(seqno)
}

// The codes of the entries of a stream, from the front.
fn codes<I: Iterator<Item = IterItem<A>> + Drop, A: Allocator>(items: I) -> Result<u64, Error>
    requires can { I.can_next items }
    requires finite { spec.IsFinite (I.remaining items) }
{
    let mut all = 0u64;
    for item in items {
        let item = item?;
        let code = code_of(item.key.user_key.as_slice(), item.key.seqno);
        all = all.saturating_mul(1000).saturating_add(code);
    }
    Ok(all)
}

// The entries of the memtable, as a source yields them.
fn in_memory(alloc: Global) -> Result<Vec<IterItem<Global>, Global>, Error> {
    let mut items = Vec::new(alloc);
    for row in MEMORY {
        items.push(Ok(entry(alloc, row)?))?;
    }
    Ok(items)
}

// The entries of newest versions, as `codes`. It is generic in their sources: a proof is slow if a
// concrete stream is passed to a function that is generic in streams.
fn codes_of<S: Iterator<Item = IterItem<A>> + Drop, A: Allocator>(
    items: NewestOf<S, A>,
) -> Result<u64, Error>
    requires can { ⟦<NewestOf<S, A> as Iterator>⟧.can_next items }
    requires finite { spec.IsFinite (⟦<NewestOf<S, A> as Iterator>⟧.remaining items) }
{
    codes(items)
}

// The merged entries of both runs and the memtable below a sequence number.
fn together(alloc: Global, seqno: SeqNo) -> Result<u64, Error> {
    let runs = runs_of(alloc, RUNS)?;
    let mut sources = Vec::new(alloc);
    sources.push(in_memory(alloc)?.into_iter())?;
    let range = owned_range(alloc, ALL)?;
    let stream = range_sources_at(alloc, &runs, sources, range, seqno)?;
    codes_of(stream)
}

#[test]
fn a_table_in_memory_is_merged_into_a_range(rt: HostRuntime) {
    for (seqno, wanted) in [(6, 102_203_305), (7, 102_203_306), (12, 111_203_306)] {
        assert!(rt; together(rt.alloc(), seqno) == Ok(wanted));
    }
}

// The entries of the memtable in a slice.
fn memtable(alloc: Global) -> Result<Vec<InternalValue>, Error> {
    let mut items = Vec::new(alloc);
    for row in MEMORY {
        items.push(entry(alloc, row)?)?;
    }
    Ok(items)
}

// The codes of the entries that a stream lends, at most five.
fn codes_lent<L: Lending + Drop>(mut items: L) -> Result<u64, Error>
    requires { spec.CanYield L.advances spec.nowhere L.can_advance L.can_advance items }
{
    let mut all = 0u64;
    for _ in 0..5 {
        let has_more = go_on(&mut items)?;
        if let Some(entry) = items.entry() {
            let code = code_of(entry.user_key, entry.seqno);
            all = all.saturating_mul(1000).saturating_add(code);
        }
        if !has_more {
            return Ok(all);
        }
    }
    Ok(all)
}

// The codes of the newest versions that are lent. It is generic like `codes_of`.
fn codes_lent_of<L: Lending + Drop>(items: LentNewestOf<L, Global>) -> Result<u64, Error>
    requires { spec.CanYield ⟦<LentNewestOf<L, Global> as Lending>⟧.advances spec.nowhere
        ⟦<LentNewestOf<L, Global> as Lending>⟧.can_advance
        ⟦<LentNewestOf<L, Global> as Lending>⟧.can_advance items }
{
    codes_lent(items)
}

// The entries of both runs and the memtable within bounds, below a sequence number, lent.
fn lent_together(alloc: Global, bounds: Bounds<'_>, seqno: SeqNo) -> Result<u64, Error> {
    let runs = runs_of(alloc, RUNS)?;
    let memtable = memtable(alloc)?;
    let range = owned_range(alloc, bounds)?;
    let mut sources = Vec::new(alloc);
    sources.push(lend_entries_within(&memtable, &range))?;
    let stream = lend_sources_at(alloc, &runs, sources, range, seqno)?;
    codes_lent_of(stream)
}

#[test]
fn a_table_in_memory_is_lent_in_a_range(rt: HostRuntime) {
    let from_b = (Bound::Included(b"b".as_slice()), Bound::Unbounded);
    let up_to_b = (Bound::Unbounded, Bound::Excluded(b"b".as_slice()));
    let beyond_a = (
        Bound::Excluded(b"a".as_slice()),
        Bound::Included(b"c".as_slice()),
    );
    for (bounds, seqno, wanted) in [
        (ALL, 6, 102_203_305),
        (ALL, 7, 102_203_306),
        (ALL, 12, 111_203_306),
        (from_b, 12, 203_306),
        (up_to_b, 12, 111),
        (beyond_a, 6, 203_305),
    ] {
        assert!(rt;
            lent_together(rt.alloc(), bounds, seqno) == Ok(wanted),
            "{wanted}"
        );
    }
}

// All entries of the memtable, lent.
fn lent_memtable(alloc: Global) -> Result<u64, Error> {
    let memtable = memtable(alloc)?;
    codes_lent(lend_entries(&memtable))
}

#[test]
fn a_slice_is_lent(rt: HostRuntime) {
    assert!(rt; lent_memtable(rt.alloc()) == Ok(111_306));
}
