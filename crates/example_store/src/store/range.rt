//! Ranges of a store at a snapshot.
ghost use Rattle.std.specs.Prelude.{◌≡◌, [], ◌∷◌, IfErr, IfOk};
ghost use Rattle.example_store.specs.Words as spec;
ghost use Rattle.lsm_tables.specs.Words.{OutOfMemory};

use crate::store::Store;
use lsm_tables::block::{Error, IterItem, Lending, SeqNo, UserKey};
use lsm_tables::run::{
    LentEntries, LentNewestOfSourcesAt, NewestOfSourcesAt, Run, lend_sources_at, range_sources_at,
};
use lsm_tables::table::Table;
use std::alloc::Allocator;
use std::ops::Bound;
use std::sync::Arc;
use std::vec::IntoIter;

/// The stream that [`Store::range`] returns: it lends the newest version of each key visible at a
/// snapshot.
pub type Range<'a, A> = LentNewestOfSourcesAt<LentEntries<'a, A>, A>;

/// The stream that [`Store::double_ended_range`] returns: the newest version of each key visible at
/// a snapshot, from both ends.
pub type DoubleEndedRange<A> = NewestOfSourcesAt<IntoIter<IterItem<A>, A>, A>;

impl<A: Allocator + Clone> Store<A> {
    /// Returns the newest version of each key within two bounds visible at `snapshot`, ascending.
    ///
    /// It lends the entries from the memtable and from the blocks of the tables. For a key that was
    /// deleted last it yields a tombstone, or nothing.
    ///
    /// # Errors
    ///
    /// [`Error::OutOfMemory`] only.
    pub fn range<'a>(
        &'a self,
        bounds: (Bound<UserKey<A>>, Bound<UserKey<A>>),
        snapshot: SeqNo,
    ) -> Result<Range<'a, A>, Error>
        // At a snapshot that is kept, it shows what the history of writes says.
        ensures returned { let advances = ⟦<Range<'a, A> as Lending>⟧.advances in
            spec.OnHistory self.now snapshot (λ ws. spec.ShowsHistory advances spec.nowhere ws
            bounds.0 bounds.1 snapshot result) }
        // At any snapshot, it yields the entries of the memtable and of the tables' lists.
        ensures read { let advances = ⟦<Range<'a, A> as Lending>⟧.advances in
            spec.OnRunLists self.now.runs (λ lists. spec.YieldsNewestAt advances spec.nowhere
            (spec.single self.now.recent ∷ lists) bounds.0 bounds.1 snapshot result) }
        ensures can { IfOk result (spec.CanLend ⟦<Range<'a, A> as Lending>⟧.advances
            ⟦<Range<'a, A> as Lending>⟧.can_advance) }
        ensures memory { IfErr result (λ e. e ≡ OutOfMemory) }
    {
        let recent = self.memtable.lend(&bounds);
        lend_beside(&self.alloc, &self.runs, recent, bounds, snapshot)
    }

    /// Returns the newest version of each key within two bounds visible at `snapshot`, from both
    /// ends, shared. [`Store::range`] is faster.
    ///
    /// For a key that was deleted last it yields a tombstone, or nothing.
    ///
    /// # Errors
    ///
    /// [`Error::OutOfMemory`] only.
    pub fn double_ended_range(
        &self,
        bounds: (Bound<UserKey<A>>, Bound<UserKey<A>>),
        snapshot: SeqNo,
    ) -> Result<DoubleEndedRange<A>, Error>
        // At a snapshot that is kept, it shows what the history of writes says.
        ensures returned { let ends = ⟦<DoubleEndedRange<A> as DoubleEndedIterator>⟧ in
            spec.OnHistory self.now snapshot (λ ws. spec.ShowsHistory ends.next_gives
            ends.next_back_gives ws bounds.0 bounds.1 snapshot result) }
        // At any snapshot, it yields the entries of the memtable and of the tables' lists.
        ensures read { let ends = ⟦<DoubleEndedRange<A> as DoubleEndedIterator>⟧ in
            spec.OnRunLists self.now.runs (λ lists. spec.YieldsNewestAt ends.next_gives
            ends.next_back_gives (spec.single self.now.recent ∷ lists) bounds.0 bounds.1 snapshot
            result) }
        ensures next { IfOk result (λ s. ⟦<DoubleEndedRange<A> as Iterator>⟧.can_next s) }
        ensures next_back { IfOk result (λ s.
            ⟦<DoubleEndedRange<A> as DoubleEndedIterator>⟧.can_next_back s) }
        ensures memory { IfErr result (λ e. e ≡ OutOfMemory) }
    {
        let recent = self.memtable.within(&self.alloc, &bounds);
        range_beside(&self.alloc, &self.runs, recent, bounds, snapshot)
    }
}

// A range at a snapshot over runs and one further lending source within the bounds. Generic in the
// source, so that a proof does not unfold its parts.
fn lend_beside<L: Lending + Drop, A: Allocator + Clone>(
    alloc: &A,
    runs: &[Arc<Run<Table<A>, A>, A>],
    source: L,
    bounds: (Bound<UserKey<A>>, Bound<UserKey<A>>),
    snapshot: SeqNo,
) -> Result<LentNewestOfSourcesAt<L, A>, Error>
    ensures list { let advances = ⟦<LentNewestOfSourcesAt<L, A> as Lending>⟧.advances in
        spec.OnPart runs.now (λ es. spec.YieldsList L.advances spec.nowhere
        (spec.within bounds.0 bounds.1 es) source) (λ all. spec.YieldsNewestAt advances spec.nowhere
        all bounds.0 bounds.1 snapshot result) }
    ensures can { spec.CanLend L.advances L.can_advance source →
        IfOk result (spec.CanLend ⟦<LentNewestOfSourcesAt<L, A> as Lending>⟧.advances
        ⟦<LentNewestOfSourcesAt<L, A> as Lending>⟧.can_advance) }
    ensures memory { IfErr result (λ e. e ≡ OutOfMemory) }
{
    let (alloc, sources) = one_source(alloc, Ok(source))?;
    lend_sources_at(alloc, runs, sources, bounds, snapshot)
}

// A range at a snapshot over runs and one further source within the bounds, which may have failed.
// Generic in the source, so that a proof does not unfold its parts.
fn range_beside<S: DoubleEndedIterator<Item = IterItem<A>> + Drop, A: Allocator + Clone>(
    alloc: &A,
    runs: &[Arc<Run<Table<A>, A>, A>],
    source: Result<S, Error>,
    bounds: (Bound<UserKey<A>>, Bound<UserKey<A>>),
    snapshot: SeqNo,
) -> Result<NewestOfSourcesAt<S, A>, Error>
    ensures list { let ends = ⟦<NewestOfSourcesAt<S, A> as DoubleEndedIterator>⟧ in
        spec.OnPart runs.now (λ es. IfOk source (spec.YieldsList S.next_gives S.next_back_gives
        (spec.within bounds.0 bounds.1 es))) (λ all. spec.YieldsNewestAt ends.next_gives
        ends.next_back_gives all bounds.0 bounds.1 snapshot result) }
    ensures next { IfOk source
        (spec.CanYield S.next_gives S.next_back_gives S.can_next S.can_next_back) →
        IfOk source (λ s. spec.IsFinite (S.remaining s)) →
        IfOk result (λ s. ⟦<NewestOfSourcesAt<S, A> as Iterator>⟧.can_next s) }
    ensures next_back { IfOk source
        (spec.CanYield S.next_gives S.next_back_gives S.can_next S.can_next_back) →
        IfOk source (λ s. spec.IsFinite (S.remaining s)) →
        IfOk result (λ s. ⟦<NewestOfSourcesAt<S, A> as DoubleEndedIterator>⟧.can_next_back s) }
    ensures memory { IfErr source (λ e. e ≡ OutOfMemory) → IfErr result (λ e. e ≡ OutOfMemory) }
{
    let (alloc, sources) = one_source(alloc, source)?;
    range_sources_at(alloc, runs, sources, bounds, snapshot)
}

// A list of one source, and an allocator with it.
fn one_source<S: Drop, A: Allocator + Clone>(
    alloc: &A,
    source: Result<S, Error>,
) -> Result<(A, Vec<S, A>), Error>
    ensures one { IfOk result (λ r. spec.IsOkAnd source (λ s. r.1.items ≡ s ∷ [])) }
    ensures memory { IfErr source (λ e. e ≡ OutOfMemory) → IfErr result (λ e. e ≡ OutOfMemory) }
{
    let source = source?;
    let beside = alloc.clone()?;
    let mut sources = Vec::new(alloc.clone()?);
    sources.push(source)?;
    Ok((beside, sources))
}
