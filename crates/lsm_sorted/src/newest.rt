//! The newest version of each key of several sources.
ghost use Rattle.std.specs.Prelude.{◌≡◌, IfOk, IfErr, All, List};
ghost use Rattle.lsm_sorted.specs.Words as spec;

use crate::mvcc_stream::MvccStream;
use crate::{Merger, from_both_ends};
use sst_entries::{Error, IterItem};
use std::alloc::Allocator;

/// The stream of newest versions that [`newest_of`] returns.
pub type NewestOf<I, A> = MvccStream<Merger<I, A>>;

/// Returns a stream of the newest version of each key of several sorted sources.
///
/// Each source must yield its entries in order. The call reserves two slots for each source, so no
/// later step allocates. For calls at both ends, see [`newest_from_both_ends`].
///
/// # Errors
///
/// [`Error::OutOfMemory`] only.
pub fn newest_of<I: Iterator<Item = IterItem<A>>, A: Allocator + Clone>(
    alloc: A,
    iterators: Vec<I, A>,
) -> Result<MvccStream<Merger<I, A>>, Error>
    ensures starts { IfOk result (spec.IsNewestOf iterators.items) }
    // For sorted sources without errors, it yields the newest version of each key of their merged
    // entries.
    ensures yields { IfOk result (spec.YieldsNewest I.next_gives spec.nowhere iterators.items
        ⟦<NewestOf<I, A> as Iterator>⟧.next_gives spec.nowhere) }
    // With errors, it yields the same until a call returns an error.
    ensures until { IfOk result
        (spec.YieldsNewestUntilError I.next_gives spec.nowhere iterators.items
        ⟦<NewestOf<I, A> as Iterator>⟧.next_gives spec.nowhere) }
    // After an error too, the results are those of the stream's steps on the merged entries. There,
    // the first error met replaces a stretch of entries.
    ensures past { IfOk result (spec.AnswersNewest I.next_gives spec.nowhere iterators.items
        ⟦<NewestOf<I, A> as Iterator>⟧.next_gives spec.nowhere) }
    ensures over { IfOk result (spec.IsOverMerged I.next_gives spec.nowhere iterators.items
        ⟦<Merger<I, A> as Iterator>⟧.next_gives spec.nowhere) }
    ensures can { IfOk result (spec.CanAskForward I.next_gives I.can_next I.remaining
        iterators.items ⟦<NewestOf<I, A> as Iterator>⟧.next_gives
        ⟦<NewestOf<I, A> as Iterator>⟧.can_next) }
    // A `for` loop may iterate over it.
    ensures next { All (spec.CanAdvance I.next_gives I.can_next) iterators.items →
        All (λ i. spec.IsFinite (I.remaining i)) iterators.items →
        IfOk result (λ s. ⟦<NewestOf<I, A> as Iterator>⟧.can_next s) }
    ensures err { IfErr result (λ e. e ≡ spec.OutOfMemory) }
{
    let merger = Merger::new(alloc, iterators)?;
    Ok(MvccStream::new(merger))
}

/// States what the stream of double-ended sources yields, for calls at both ends in any order.
///
/// The call does nothing: its contract states the law.
pub fn newest_from_both_ends<I: DoubleEndedIterator<Item = IterItem<A>>, A: Allocator>(
    stream: &MvccStream<Merger<I, A>>,
)
    ensures yields { (its : List I) → spec.IsNewestOf its stream.now →
        spec.YieldsNewest I.next_gives I.next_back_gives its
        ⟦<NewestOf<I, A> as Iterator>⟧.next_gives
        ⟦<NewestOf<I, A> as DoubleEndedIterator>⟧.next_back_gives stream.now }
    ensures until { (its : List I) → spec.IsNewestOf its stream.now →
        spec.YieldsNewestUntilError I.next_gives I.next_back_gives its
        ⟦<NewestOf<I, A> as Iterator>⟧.next_gives
        ⟦<NewestOf<I, A> as DoubleEndedIterator>⟧.next_back_gives stream.now }
    // After an error too, the results are those of the stream's steps on the merged entries. There,
    // the first error met replaces a stretch of entries.
    ensures past { (its : List I) → spec.IsNewestOf its stream.now →
        spec.AnswersNewest I.next_gives I.next_back_gives its
        ⟦<NewestOf<I, A> as Iterator>⟧.next_gives
        ⟦<NewestOf<I, A> as DoubleEndedIterator>⟧.next_back_gives stream.now }
    ensures over { (its : List I) → spec.IsNewestOf its stream.now →
        spec.IsOverMerged I.next_gives I.next_back_gives its ⟦<Merger<I, A> as Iterator>⟧.next_gives
        ⟦<Merger<I, A> as DoubleEndedIterator>⟧.next_back_gives stream.now }
    ensures can { (its : List I) → spec.IsNewestOf its stream.now →
        spec.CanAskNewest I.next_gives I.next_back_gives I.can_next I.can_next_back I.remaining its
        ⟦<NewestOf<I, A> as Iterator>⟧.next_gives
        ⟦<NewestOf<I, A> as DoubleEndedIterator>⟧.next_back_gives
        ⟦<NewestOf<I, A> as Iterator>⟧.can_next
        ⟦<NewestOf<I, A> as DoubleEndedIterator>⟧.can_next_back stream.now }
    // A `for` loop may iterate over it, from the front or from the back.
    ensures next { spec.MayStartNewest I.next_gives I.next_back_gives I.can_next I.can_next_back
        I.remaining ⟦<NewestOf<I, A> as Iterator>⟧.can_next stream.now }
    ensures next_back { spec.MayStartNewest I.next_gives I.next_back_gives I.can_next
        I.can_next_back I.remaining ⟦<NewestOf<I, A> as DoubleEndedIterator>⟧.can_next_back
        stream.now }
{
    from_both_ends(stream.source());
    stream.from_both_ends();
}
