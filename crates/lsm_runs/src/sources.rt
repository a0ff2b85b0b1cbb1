//! Reading several runs and further sources, such as a memtable, as one.
ghost use Rattle.std.specs.Prelude.{◌≡◌, All, IfErr, IfOk};
ghost use Rattle.lsm_runs.specs.Words as spec;

use crate::RunReader;
use crate::runs::{newest_stream, readers_within};
use either::Either;
use lsm_readers::Table;
use lsm_sorted::{Below, Merger, MvccStream, NewestOf, Run, each_below};
use sst_blocks::{Error, IterItem, SeqNo, UserKey};
use std::alloc::Allocator;
use std::ops::Bound;
use std::sync::Arc;

/// The stream that [`range_sources_at`] returns: the newest version below a seqno of each key of
/// several runs and of further sources, from both ends.
pub type NewestOfSourcesAt<S, A> = NewestOf<Below<Either<RunReader<A>, S>>, A>;

// Further sources, then the readers of runs.
fn all_sources<R: Drop, S: Drop, A: Allocator>(
    alloc: A,
    further: Vec<S, A>,
    readers: Vec<R, A>,
) -> Result<Vec<Either<R, S>, A>, Error>
    ensures of { IfOk result (λ v. v.items ≡ spec.with_readers further.items readers.items) }
    ensures err { IfErr result (λ e. e ≡ spec.OutOfMemory) }
{
    let sources = further
        .into_iter()
        .map(|source| Either::Right(source))
        .chain(readers.into_iter().map(|reader| Either::Left(reader)))
        .collect(alloc)?;
    Ok(sources)
}

/// Returns a stream of the newest version visible at `seqno` of each key within both bounds, of
/// several runs and further sources, from both ends.
///
/// Each source must yield only its entries within the bounds, in order: the call does not cut
/// sources. [`source_of`](sst_blocks::source_of) makes one of a vector. A tombstone is yielded as
/// an entry. If a source and a run have an entry of the same key, seqno and kind, the source's
/// entry comes first.
///
/// No table is opened yet. If a table cannot be opened or read, the stream yields that error in
/// place of all remaining entries, also those of other runs. Only an entry that was already read at
/// the other end may still come.
///
/// # Errors
///
/// The call fails with [`Error::OutOfMemory`] only.
pub fn range_sources_at<S: DoubleEndedIterator<Item = IterItem<A>> + Drop, A: Allocator + Clone>(
    alloc: A,
    runs: &[Arc<Run<Table<A>, A>, A>],
    sources: Vec<S, A>,
    range: (Bound<UserKey<A>>, Bound<UserKey<A>>),
    seqno: SeqNo,
) -> Result<MvccStream<Merger<Below<Either<RunReader<A>, S>>, A>>, Error>
    // For tables of lists in runs in order, and sources that each yield the part of a sorted list
    // within the bounds. For every list of ends, it yields the newest versions below `seqno` of all
    // these lists within the bounds.
    ensures list { let ends = ⟦<NewestOfSourcesAt<S, A> as DoubleEndedIterator>⟧ in
        spec.SourcesYieldNewestBelow S.next_gives S.next_back_gives ends.next_gives
        ends.next_back_gives seqno range.0 range.1 runs.now sources.items result }
    // If every seqno is below `seqno`, it yields the newest versions of all entries within the
    // bounds.
    ensures whole { let ends = ⟦<NewestOfSourcesAt<S, A> as DoubleEndedIterator>⟧ in
        spec.SourcesYieldAllBelow S.next_gives S.next_back_gives ends.next_gives
        ends.next_back_gives seqno range.0 range.1 runs.now sources.items result }
    // For any tables in runs in order, it is a stream over the sources, whatever they yield. After
    // the sources come the readers of the spans within the bounds, each below `seqno`. An error of
    // one of them, `OutOfMemory` too, takes the place of all entries that no step has taken yet.
    // After it, only an entry already read at the other end is yielded.
    ensures steps { let below = ⟦<Below<Either<RunReader<A>, S>> as DoubleEndedIterator>⟧ in
        let ends = ⟦<NewestOfSourcesAt<S, A> as DoubleEndedIterator>⟧ in
        spec.AreRunsInOrder runs.now → IfOk result (spec.IsOverSourcesBelow below.next_gives
        below.next_back_gives ends.next_gives ends.next_back_gives range.0 range.1 seqno
        (spec.each_run runs.now) sources.items) }
    // If the sources are finite and may be called at both ends, so may the stream, any number of
    // times. This holds for any bytes of the tables.
    ensures can { let ends = ⟦<NewestOfSourcesAt<S, A> as DoubleEndedIterator>⟧ in
        All (spec.CanYield S.next_gives S.next_back_gives S.can_next S.can_next_back) sources.items
        → All (λ s. spec.IsFinite (S.remaining s)) sources.items → IfOk result (λ s. spec.CanYield
        ends.next_gives ends.next_back_gives ends.can_next ends.can_next_back s) }
    // So a `for` may iterate over it, from the front or from the back.
    ensures next { spec.IfEachEnds S.next_gives S.next_back_gives S.can_next S.can_next_back
        S.remaining sources.items (IfOk result ⟦<NewestOfSourcesAt<S, A> as Iterator>⟧.can_next) }
    ensures next_back { spec.IfEachEnds S.next_gives S.next_back_gives S.can_next S.can_next_back
        S.remaining sources.items
        (IfOk result ⟦<NewestOfSourcesAt<S, A> as DoubleEndedIterator>⟧.can_next_back) }
    ensures err { IfErr result (λ e. e ≡ spec.OutOfMemory) }
{
    let readers = readers_within(alloc.clone()?, runs, range)?;
    let all = all_sources(alloc.clone()?, sources, readers)?;
    let below = each_below(alloc.clone()?, all, seqno)?;
    newest_stream(alloc, below)
}
