//! Mergers whose sources have errors.
ghost use Rattle.std.specs.Prelude.{List};
ghost use Rattle.lsm_sorted.specs.Words as spec;

use crate::Merger;
use sst_entries::IterItem;
use std::alloc::Allocator;

/// States what a merger yields from the front if its sources have errors.
///
/// It yields the merged list of all entries, or that list up to the first error met, and then the
/// error. This follows from the contract of [`Merger::new`]. The call does nothing: its contract
/// states the law.
pub fn up_to_gap<I: Iterator<Item = IterItem<A>>, A: Allocator>(merger: &Merger<I, A>)
    ensures { (its : List I) → spec.ErrorsLeaveGap I.next_gives its
        ⟦<Merger<I, A> as Iterator>⟧.next_gives merger.now }
{
    let _ = merger;
}
