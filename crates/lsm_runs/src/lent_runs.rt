//! Several runs as one lending stream.
ghost use Rattle.std.specs.Prelude.{◌≡◌, [], All, IfErr, IfOk, None};
ghost use Rattle.lsm_runs.specs.Words as spec;

use crate::RunReader;
use crate::runs::readers_within;
use lsm_readers::Table;
use lsm_sorted::{Below, LendingMerger, LendingNewest, Run, each_below};
use sst_blocks::{Error, Lending, SeqNo, UserKey};
use std::alloc::Allocator;
use std::ops::Bound;
use std::sync::Arc;

/// A lending stream of the newest version of each key of several lending sources.
pub type LentNewestOf<L, A> = LendingNewest<LendingMerger<L, A>, A>;

/// The stream that [`lend_runs_at`] returns: it lends the newest version below a seqno of each key
/// of several runs.
pub type LentNewestOfRunsAt<A> = LentNewestOf<Below<RunReader<A>>, A>;

// The newest versions of lending sources. Generic, so that a proof does not unfold a reader's
// parts.
pub(crate) fn lent_stream<L: Lending + Drop, A: Allocator + Clone>(
    alloc: A,
    sources: Vec<L, A>,
) -> Result<LentNewestOf<L, A>, Error>
    ensures none { IfOk result (λ s. ⟦<LentNewestOf<L, A> as Lending>⟧.lent s ≡ None) }
    ensures yields { IfOk result (spec.LendsNewest L.advances sources.items
        ⟦<LentNewestOf<L, A> as Lending>⟧.advances) }
    ensures can { All (spec.CanLend L.advances L.can_advance) sources.items → IfOk result
        (spec.CanLend ⟦<LentNewestOf<L, A> as Lending>⟧.advances
        ⟦<LentNewestOf<L, A> as Lending>⟧.can_advance) }
    ensures err { IfErr result (λ e. e ≡ spec.OutOfMemory) }
{
    let merger = LendingMerger::new(alloc.clone()?, sources)?;
    Ok(LendingNewest::new(alloc, merger))
}

/// Returns a lending stream of the newest version visible at `seqno` of each key within both
/// bounds, of several runs, ascending.
///
/// It lends the entries from their blocks: those that [`crate::range_runs_at`] yields from the
/// front. A tombstone is yielded as an entry. No table is opened yet.
///
/// # Errors
///
/// The call fails with [`Error::OutOfMemory`] only.
pub fn lend_runs_at<A: Allocator + Clone>(
    alloc: A,
    runs: &[Arc<Run<Table<A>, A>, A>],
    range: (Bound<UserKey<A>>, Bound<UserKey<A>>),
    seqno: SeqNo,
) -> Result<LentNewestOf<Below<RunReader<A>>, A>, Error>
    // Nothing is lent yet.
    ensures none { IfOk result (λ s. ⟦<LentNewestOfRunsAt<A> as Lending>⟧.lent s ≡ None) }
    // For tables of lists in runs in order, it lends the newest versions below `seqno` of all
    // lists' entries within the bounds. Global seqnos are applied.
    ensures list { spec.RunsYieldNewestBelow ⟦<LentNewestOfRunsAt<A> as Lending>⟧.advances
        spec.nowhere seqno range.0 range.1 runs.now result }
    // If every seqno is below `seqno`, it lends the newest versions of all entries within the
    // bounds.
    ensures whole { spec.RunsYieldAllBelow ⟦<LentNewestOfRunsAt<A> as Lending>⟧.advances
        spec.nowhere seqno range.0 range.1 runs.now result }
    // For any tables in runs in order, whatever their bytes, whose entries within the bounds come
    // in order up to each run's first error. It lends the newest of these results below `seqno`,
    // merged up to the first error, which comes last.
    ensures places { spec.RunsLendNewest ⟦<LentNewestOfRunsAt<A> as Lending>⟧.advances seqno range.0
        range.1 runs.now result }
    // It may be called any number of times, whatever the tables' bytes.
    ensures can { IfOk result (spec.CanLend ⟦<LentNewestOfRunsAt<A> as Lending>⟧.advances
        ⟦<LentNewestOfRunsAt<A> as Lending>⟧.can_advance) }
    ensures advance { IfOk result ⟦<LentNewestOfRunsAt<A> as Lending>⟧.can_advance }
    ensures err { IfErr result (λ e. e ≡ spec.OutOfMemory) }
{
    let readers = readers_within(alloc.clone()?, runs, range)?;
    let below = each_below(alloc.clone()?, readers, seqno)?;
    lent_stream(alloc, below)
}
