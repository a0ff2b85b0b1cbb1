//! Range reads of a table, from both ends.
ghost use Rattle.std.specs.Prelude.{◌≡◌, List, ℕ, IfOk, IfErr};
ghost use Rattle.lsm_readers.specs.Words as spec;
ghost use Rattle.sst_entries.specs.declared.error.Error.TheVariants.{OutOfMemory};

use crate::{Inner, Table};
use lsm_iters::{BlockIndex, BlockIndexImpl, Bound as Edge, Iter, beside};
use sst_blocks::{Error, Lending, UserKey};
use std::alloc::Allocator;
use std::ops::Bound;

impl<A: Allocator + Clone> Table<A> {
    /// Opens an iterator over all entries in order, from both ends, global seqno applied.
    ///
    /// The call loads nothing. Tombstones are yielded as entries.
    ///
    /// # Errors
    ///
    /// [`Error::OutOfMemory`] only.
    ///
    /// # Examples
    ///
    /// ```
    /// let range = table.range(lower, upper)?;
    /// let all = table.iter();
    /// ```
    pub fn iter(&self) -> Result<Iter<A>, Error>
        ensures is { IfOk result (spec.IsRangeOf self.now spec.Unbounded spec.Unbounded) }
        ensures yields { spec.RangeYields ⟦<Iter<A> as Iterator>⟧.next_gives
            ⟦<Iter<A> as DoubleEndedIterator>⟧.next_back_gives self.now spec.Unbounded
            spec.Unbounded result }
        // On bytes that store a list it yields the list, global seqno applied.
        ensures list { spec.RangeYieldsAll ⟦<Iter<A> as Iterator>⟧.next_gives
            ⟦<Iter<A> as DoubleEndedIterator>⟧.next_back_gives self.now result }
        // As a lending iterator it yields the same at the front, also with calls at the back in
        // between.
        ensures lends { spec.RangeYields ⟦<Iter<A> as Lending>⟧.advances
            ⟦<Iter<A> as DoubleEndedIterator>⟧.next_back_gives self.now spec.Unbounded
            spec.Unbounded result }
        ensures lends_list { spec.RangeYieldsAll ⟦<Iter<A> as Lending>⟧.advances
            ⟦<Iter<A> as DoubleEndedIterator>⟧.next_back_gives self.now result }
        // It loads at most all data blocks, and the index blocks that lead to them. As a lending
        // iterator it loads no more.
        ensures few { spec.RangeLoadsFew ⟦<Iter<A> as Iterator>⟧.next_gives
            ⟦<Iter<A> as DoubleEndedIterator>⟧.next_back_gives self.now spec.Unbounded
            spec.Unbounded result }
        ensures lends_few { spec.RangeLoadsFew ⟦<Iter<A> as Lending>⟧.advances
            ⟦<Iter<A> as DoubleEndedIterator>⟧.next_back_gives self.now spec.Unbounded
            spec.Unbounded result }
        ensures err { IfErr result (λ e. e ≡ OutOfMemory) }
    {
        self.range(Bound::Unbounded, Bound::Unbounded)
    }

    /// Opens an iterator over the entries within both bounds, from both ends, global seqno applied.
    ///
    /// The entries are in order. If the lower bound is above the upper one, there are none. The
    /// call loads nothing. The first step seeks the bounds in the index. Each data block is loaded
    /// by the first step that needs it. Tombstones are yielded as entries.
    ///
    /// # Errors
    ///
    /// [`Error::OutOfMemory`] only.
    ///
    /// # Examples
    ///
    /// ```
    /// let items = table.range(bounds.0, bounds.1)?;
    /// dump_items(alloc, output, items, options, left)
    /// // ..
    /// let lower = match options.from {
    ///     None => Bound::Unbounded,
    ///     Some(key) => Bound::Included(Slice::from(alloc, key)?),
    /// };
    /// ```
    pub fn range(
        &self,
        lower: Bound<UserKey<A>>,
        upper: Bound<UserKey<A>>,
    ) -> Result<Iter<A>, Error>
        // It reads the table's bytes through the table's index with these bounds, and has made no
        // step.
        ensures is { IfOk result (spec.IsRangeOf self.now lower upper) }
        // For any sequence of calls at the two ends, it yields the entries of the blocks between
        // the bounds, up to the first error.
        ensures yields { spec.RangeYields ⟦<Iter<A> as Iterator>⟧.next_gives
            ⟦<Iter<A> as DoubleEndedIterator>⟧.next_back_gives self.now lower upper result }
        // On bytes that store a list it yields the list's entries within the bounds, global seqno
        // applied.
        ensures list { spec.RangeYieldsList ⟦<Iter<A> as Iterator>⟧.next_gives
            ⟦<Iter<A> as DoubleEndedIterator>⟧.next_back_gives self.now lower upper result }
        // As a lending iterator it yields the same at the front, also with calls at the back in
        // between.
        ensures lends { spec.RangeYields ⟦<Iter<A> as Lending>⟧.advances
            ⟦<Iter<A> as DoubleEndedIterator>⟧.next_back_gives self.now lower upper result }
        ensures lends_list { spec.RangeYieldsList ⟦<Iter<A> as Lending>⟧.advances
            ⟦<Iter<A> as DoubleEndedIterator>⟧.next_back_gives self.now lower upper result }
        // It loads at most the data blocks between the bounds, and the index blocks that lead to
        // them. As a lending iterator it loads no more.
        ensures few { spec.RangeLoadsFew ⟦<Iter<A> as Iterator>⟧.next_gives
            ⟦<Iter<A> as DoubleEndedIterator>⟧.next_back_gives self.now lower upper result }
        ensures lends_few { spec.RangeLoadsFew ⟦<Iter<A> as Lending>⟧.advances
            ⟦<Iter<A> as DoubleEndedIterator>⟧.next_back_gives self.now lower upper result }
        ensures err { IfErr result (λ e. e ≡ OutOfMemory) }
    {
        let ((lower, upper), mut iter) = beside((lower, upper), self.unbounded())?;
        set_lower(&mut iter, lower);
        set_upper(&mut iter, upper);
        Ok(iter)
    }

    /// The entries of all blocks, before bounds are set.
    fn unbounded(&self) -> Result<Iter<A>, Error>
        ensures is { IfOk result (spec.IsRangeOf self.now spec.Unbounded spec.Unbounded) }
        ensures open { IfOk result (λ _. spec.IsOpen self.now) }
        ensures err { IfErr result (λ e. e ≡ OutOfMemory) }
    {
        let index = self.block_index()?;
        let iter = self.unbounded_by(&index);
        drop(index);
        iter
    }

    /// The entries of all blocks in the table's index, before bounds are set.
    fn unbounded_by(&self, index: &BlockIndexImpl<A>) -> Result<Iter<A>, Error>
        requires { spec.index_read index.now ≡ spec.table_index self.now }
        ensures is { IfOk result (spec.IsRangeOf self.now spec.Unbounded spec.Unbounded) }
        ensures open { spec.IsOpen self.now }
        ensures err { IfErr result (λ e. e ≡ OutOfMemory) }
    {
        let inner: &Inner<A> = &self.inner;
        let handles = index.iter()?;
        let compression = inner.metadata.data_block_compression;
        Iter::new(inner.global_seqno, &self.source, handles, compression)
    }
}

/// Sets a lower bound, if there is one.
fn set_lower<A: Allocator + Clone>(iter: &mut Iter<A>, lower: Bound<UserKey<A>>)
    ensures { (t : spec.OpenTable) (high : spec.Bound (List ℕ)) →
        spec.IsRangeOf t spec.Unbounded high iter.old → spec.IsRangeOf t lower high iter.new }
{
    match lower {
        Bound::Included(key) => iter.set_lower_bound(Edge::Included(key)),
        Bound::Excluded(key) => iter.set_lower_bound(Edge::Excluded(key)),
        Bound::Unbounded => {}
    }
}

/// Sets an upper bound, if there is one.
fn set_upper<A: Allocator + Clone>(iter: &mut Iter<A>, upper: Bound<UserKey<A>>)
    ensures { (t : spec.OpenTable) (low : spec.Bound (List ℕ)) →
        spec.IsRangeOf t low spec.Unbounded iter.old → spec.IsRangeOf t low upper iter.new }
{
    match upper {
        Bound::Included(key) => iter.set_upper_bound(Edge::Included(key)),
        Bound::Excluded(key) => iter.set_upper_bound(Edge::Excluded(key)),
        Bound::Unbounded => {}
    }
}
