//! Combines the public laws on sources that are read from the front only, whatever errors are among
//! them.
ghost use Rattle.std.specs.Prelude.{IfOk};
ghost use Rattle.lsm_sorted.specs.Words as spec;
ghost use Rattle.lsm_sorted.specs.merge.MergeLaws.{YieldsBeforeErrors};
ghost use Rattle.lsm_sorted.specs.Gap.{GivesUpToGap};
ghost use Rattle.test_layers.specs.Sorted.{CanMergeFront, KeepsSorted};

use lsm_sorted::compaction::stream::{CompactionStream, NoCallback, NoFilter};
use lsm_sorted::{Merger, from_both_ends, up_to_gap};
use sst_entries::{Error, IterItem, SeqNo, from_the_front};
use std::alloc::{Allocator, Global};
use std::vec::IntoIter;

// The compaction of several sources for readers at a threshold. The proof cites only clauses of the
// calls.
fn compaction_of<I: Iterator<Item = IterItem<A>>, A: Allocator + Clone>(
    alloc: A,
    iterators: Vec<I, A>,
    threshold: SeqNo,
) -> Result<CompactionStream<Merger<I, A>, NoFilter, NoCallback>, Error>
    ensures kept { IfOk result (λ s. KeepsSorted I.next_gives iterators.items (spec.rules_of s)
        ⟦<CompactionStream<Merger<I, A>, NoFilter, NoCallback> as Iterator>⟧.next_gives s) }
    // With errors among the items: the entries up to the first error that is met, and this error.
    ensures past { IfOk result (λ s.
        GivesUpToGap I.next_gives spec.nowhere iterators.items (spec.rules_of s)
        ⟦<CompactionStream<Merger<I, A>, NoFilter, NoCallback> as Iterator>⟧.next_gives s) }
{
    let merger = Merger::new(alloc, iterators)?;
    up_to_gap(&merger);
    let stream = CompactionStream::new(merger, threshold);
    stream.unfiltered_run();
    Ok(stream)
}

// A merger of double-ended sources that is read from the front only. It yields their merged items
// as long as no item is an error. The proof cites only clauses of the calls.
fn merged_from_the_front<I: DoubleEndedIterator<Item = IterItem<A>>, A: Allocator + Clone>(
    alloc: A,
    iterators: Vec<I, A>,
) -> Result<Merger<I, A>, Error>
    ensures yields { IfOk result (YieldsBeforeErrors I.next_gives I.next_back_gives iterators.items
        ⟦<Merger<I, A> as Iterator>⟧.next_gives spec.nowhere) }
    ensures can { IfOk result (CanMergeFront I.next_gives I.can_next I.remaining iterators.items
        ⟦<Merger<I, A> as Iterator>⟧.next_gives ⟦<Merger<I, A> as Iterator>⟧.can_next) }
{
    let merger = Merger::new(alloc, iterators)?;
    from_both_ends(&merger);
    from_the_front(&merger);
    Ok(merger)
}

// Whether a value is made. It is not used further.
fn is_made<T: Drop>(made: Result<T, Error>) -> bool {
    made.is_ok()
}

// Whether no sources can be merged from the front, and compacted.
fn compose(alloc: Global) -> bool {
    is_made(compaction_of(alloc, Vec::<IntoIter<IterItem>>::new(alloc), 5))
        && is_made(merged_from_the_front(alloc, Vec::<IntoIter<IterItem>>::new(alloc)))
}

#[test]
fn no_sources_may_be_merged_and_compacted_from_the_front(rt: HostRuntime) {
    assert!(rt; compose(rt.alloc()));
}
