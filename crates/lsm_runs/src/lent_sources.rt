//! Several runs and further lending sources, such as a memtable, as one lending stream.
ghost use Rattle.std.specs.Prelude.{◌≡◌, All, IfErr, IfOk, None};
ghost use Rattle.lsm_runs.specs.Words as spec;

use crate::RunReader;
use crate::lent_runs::{LentNewestOf, lent_stream};
use crate::runs::readers_within;
use either::Either;
use lsm_readers::Table;
use lsm_sorted::{Below, Run, each_below};
use sst_blocks::{EntryRef, Error, Lending, SeqNo, UserKey};
use std::alloc::Allocator;
use std::marker::Model;
use std::ops::Bound;
use std::sync::Arc;

/// Either of two lending sources.
#[derive(Drop)]
pub struct EitherLending<L, R> {
    source: Either<L, R>,
}

impl<L, R> Model for EitherLending<L, R> {
    ghost use Rattle.either.specs.declared.Either.{Either};

    ghost Value = { Either L R };

    ghost view = { λ s. s.source };
}

impl<L: Lending, R: Lending> Lending for EitherLending<L, R> {
    ghost can_advance = { λ s. spec.MatchEither s L.can_advance R.can_advance };

    ghost advances = { spec.either_steps L.advances R.advances };

    ghost lent = { spec.either L.lent R.lent };

    ghost left = { spec.either L.left R.left };

    #[inline]
    fn advance(&mut self) -> Result<bool, Error> {
        match &mut self.source {
            Either::Left(source) => source.advance(),
            Either::Right(source) => source.advance(),
        }
    }

    #[inline(always)]
    fn entry(&self) -> Option<EntryRef<'_>> {
        match &self.source {
            Either::Left(source) => source.entry(),
            Either::Right(source) => source.entry(),
        }
    }
}

/// The stream that [`lend_sources_at`] returns: it lends the newest version below a seqno of each
/// key of several runs and of further sources.
pub type LentNewestOfSourcesAt<L, A> = LentNewestOf<Below<EitherLending<RunReader<A>, L>>, A>;

// Further sources, then the readers of runs.
fn lending_sources<R: Drop, L: Drop, A: Allocator>(
    alloc: A,
    further: Vec<L, A>,
    readers: Vec<R, A>,
) -> Result<Vec<EitherLending<R, L>, A>, Error>
    ensures of { IfOk result (λ v. v.items ≡ spec.with_readers further.items readers.items) }
    ensures err { IfErr result (λ e. e ≡ spec.OutOfMemory) }
{
    let readers = readers.into_iter().map(|reader| EitherLending {
        source: Either::Left(reader),
    });
    let further = further.into_iter().map(|source| EitherLending {
        source: Either::Right(source),
    });
    Ok(further.chain(readers).collect(alloc)?)
}

/// Returns a lending stream of the newest version visible at `seqno` of each key within both
/// bounds, of several runs and further lending sources, ascending.
///
/// Each source must lend only its entries within the bounds, in order: the call does not cut
/// sources. [`crate::lend_entries_within`] makes one of a sorted slice. Without an error it lends
/// the entries that [`crate::range_sources_at`] yields from the front. A tombstone is yielded as an
/// entry. If a source and a run have an entry of the same key, seqno and kind, the source's entry
/// comes first.
///
/// No table is opened yet. The error of a source or a run comes right after the entry that precedes
/// it there. The stream then ends.
///
/// # Errors
///
/// The call fails with [`Error::OutOfMemory`] only.
pub fn lend_sources_at<L: Lending + Drop, A: Allocator + Clone>(
    alloc: A,
    runs: &[Arc<Run<Table<A>, A>, A>],
    sources: Vec<L, A>,
    range: (Bound<UserKey<A>>, Bound<UserKey<A>>),
    seqno: SeqNo,
) -> Result<LentNewestOf<Below<EitherLending<RunReader<A>, L>>, A>, Error>
    // Nothing is lent yet.
    ensures none { IfOk result (λ s. ⟦<LentNewestOfSourcesAt<L, A> as Lending>⟧.lent s ≡ None) }
    // For tables of lists in runs in order, and sources that each yield the part of a sorted list
    // within the bounds: the newest versions below `seqno` of all these lists within the bounds.
    ensures list { spec.SourcesYieldNewestBelow L.advances spec.nowhere
        ⟦<LentNewestOfSourcesAt<L, A> as Lending>⟧.advances spec.nowhere seqno range.0 range.1
        runs.now sources.items result }
    // For any tables in runs in order, whatever their bytes, and any results of the sources, whose
    // entries come in order. It lends the newest of these results below `seqno`, merged up to the
    // first error, which comes last.
    ensures places { spec.SourcesLendNewest L.advances
        ⟦<LentNewestOfSourcesAt<L, A> as Lending>⟧.advances seqno range.0 range.1 runs.now
        sources.items result }
    // It may be called any number of times if the sources may, whatever the tables' bytes.
    ensures can { All (spec.CanLend L.advances L.can_advance) sources.items →
        IfOk result (spec.CanLend ⟦<LentNewestOfSourcesAt<L, A> as Lending>⟧.advances
        ⟦<LentNewestOfSourcesAt<L, A> as Lending>⟧.can_advance) }
    ensures advance { All (spec.CanLend L.advances L.can_advance) sources.items →
        IfOk result ⟦<LentNewestOfSourcesAt<L, A> as Lending>⟧.can_advance }
    ensures err { IfErr result (λ e. e ≡ spec.OutOfMemory) }
{
    let readers = readers_within(alloc.clone()?, runs, range)?;
    let all = lending_sources(alloc.clone()?, sources, readers)?;
    let below = each_below(alloc.clone()?, all, seqno)?;
    lent_stream(alloc, below)
}
