//! The entries of a table within bounds, from both ends.
ghost use Rattle.std.specs.Prelude.{◌≡◌, ◌↔◌, None, Some, IfOk, IfErr, false, is_some, true};
ghost use Rattle.lsm_iters.specs.Words as spec;

use crate::blocks::Blocks;
use crate::handles::Handles;
use crate::lending::{RangeWalk, end, entry_in, near, next_entry, share_in, unlend_in};
use crate::pairs::beside;
use crate::{BlockIndexIterImpl, Bound, Ends, Walk};
use sst_blocks::{
    BlockSource, CompressionType, EntryRef, Error, InternalValue, IterItem, Lending, Opened, SeqNo,
};
use sst_entries::Direction;
use std::alloc::{Allocator, Global};
use std::marker::Model;

/// A double-ended iterator over the entries of a table within two bounds.
///
/// It yields sequence numbers with the global sequence number added. It owns a share of the table's
/// bytes.
///
/// As an iterator it yields entries that share the table's bytes. It also lends them, from the
/// front ([`Lending::advance`]) and from the back ([`Iter::advance_back`]). Lending allocates only
/// to seek and to load a block: within a loaded block the next entry never fails with
/// [`Error::OutOfMemory`]. All methods continue from the same position. A lent entry is valid until
/// the next call at either end. It is always the entry that the last call returned.
///
/// The first step seeks the bounds in the index. Each data block is loaded once, when a step first
/// needs it. If a block cannot be loaded, it yields the error instead of the block's entries. If an
/// entry's sequence number plus the global one exceeds `u64::MAX`, it yields
/// [`Error::SeqNoOverflow`] instead. After an error, [`Error::OutOfMemory`] included, it is
/// exhausted at both ends.
#[derive(Drop)]
pub struct Iter<A: Allocator = Global> {
    walk: RangeWalk<A>,
    // The end of the current entry.
    end: Direction,
}

impl<A: Allocator> Model for Iter<A> {
    ghost use Rattle.std.specs.Prelude.{◌+◌, ◌<◌, ◌^◌, MatchOption};
    ghost use Rattle.lsm_iters.specs.Range.{Range};
    ghost use Rattle.lsm_iters.specs.Blocks.{range_at};
    ghost use Rattle.lsm_iters.specs.Lending.{lent_in};
    ghost use Rattle.lsm_iters.specs.walk.Walks.{near};

    ghost Value = { Range A };

    ghost view = { λ i. range_at i.end i.walk };

    // The current entry's sequence number does not overflow with the global one added.
    ghost invariant = { λ i. MatchOption (lent_in (near i.end i.walk)) (Unit {0})
        (λ e. e.seqno + i.walk.parts.of.global_seqno < 2 ^ 64) };
}

impl<A: Allocator + Clone> Iter<A> {
    /// Returns an unbounded iterator over the entries of the blocks that an index iterator yields.
    ///
    /// The first step seeks the bounds in the index. An index iterator that was already sought or
    /// advanced is not sought again. Then each block that it still yields is loaded, and entries
    /// outside of the bounds are left out. With a pinned full index, a seek that dropped no handle
    /// does not count. Nothing is loaded yet.
    ///
    /// # Errors
    ///
    /// [`Error::OutOfMemory`] only.
    pub fn new(
        global_seqno: SeqNo,
        source: &BlockSource<A>,
        index_iter: BlockIndexIterImpl<A>,
        compression: CompressionType,
    ) -> Result<Iter<A>, Error>
        // Nothing is loaded and no bound is set, in any state of the index iterator.
        ensures is { let range = spec.new_range (spec.body_of source.now) global_seqno index_iter in
            IfOk result (λ i. i ≡ spec.with_sought i.handles.sought range) }
        // The bounds are still to be sought exactly if no bound was sought and no step was made.
        ensures unsought { IfOk result
            (λ i. (i.handles.sought ≡ false) ↔ spec.IsSought index_iter None None) }
        ensures whole { let range = spec.new_range (spec.body_of source.now) global_seqno
            index_iter in spec.IsSought index_iter None None → IfOk result (λ i. i ≡ range) }
        // Otherwise its handles are those that the index iterator still yields.
        ensures rest { let range = spec.new_range (spec.body_of source.now) global_seqno
            index_iter in
            (spec.IsSought index_iter None None → ⊥) →
            IfOk result (λ i. i ≡ spec.with_sought true range) }
        ensures yields { IfOk result (λ i. spec.YieldsFreely ⟦<Iter<A> as Iterator>⟧.next_gives
            ⟦<Iter<A> as DoubleEndedIterator>⟧.next_back_gives i (spec.range_left i)) }
        ensures err { IfErr result (λ e. e ≡ spec.OutOfMemory) }
    {
        match compression {
            CompressionType::None => {}
        }
        let (index, source) = beside(Handles::new(index_iter), source.clone())?;
        let blocks = Blocks {
            source,
            global_seqno,
            index,
            range: (None, None),
            opened: Opened::none(),
        };
        Ok(Iter {
            walk: Walk::new(blocks),
            end: Direction::Front,
        })
    }

    /// Leaves out the entries before a bound.
    ///
    /// It replaces an earlier lower bound. Call it before the first step.
    pub fn set_lower_bound(&mut self, bound: Bound<A>)
        ensures set { let of = record self.old.of { low = spec.edge_of bound } in
            self.new ≡ record self.old { of = of } }
        ensures yields { spec.YieldsFreely ⟦<Iter<A> as Iterator>⟧.next_gives
            ⟦<Iter<A> as DoubleEndedIterator>⟧.next_back_gives self.new (spec.range_left self.new) }
    {
        drop(self.walk.parts.range.0.replace(bound));
    }

    /// Leaves out the entries after a bound.
    ///
    /// It replaces an earlier upper bound. Call it before the first step.
    pub fn set_upper_bound(&mut self, bound: Bound<A>)
        ensures set { let of = record self.old.of { high = spec.edge_of bound } in
            self.new ≡ record self.old { of = of } }
        ensures yields { spec.YieldsFreely ⟦<Iter<A> as Iterator>⟧.next_gives
            ⟦<Iter<A> as DoubleEndedIterator>⟧.next_back_gives self.new (spec.range_left self.new) }
    {
        drop(self.walk.parts.range.1.replace(bound));
    }

    /// Returns how many blocks of each kind were loaded.
    pub fn opened(&self) -> Opened
        ensures { result ≡ spec.opened_in self.now }
    {
        self.walk.parts.all_opened()
    }

    /// Advances to the next entry at the back, lends it, and returns whether there is one.
    ///
    /// It is the counterpart of [`Lending::advance`] at the back.
    ///
    /// # Errors
    ///
    /// Those of [`Lending::advance`].
    #[inline]
    pub fn advance_back(&mut self) -> Result<bool, Error>
        ensures goes { spec.RangeLendsAt spec.Back self.old (spec.came result self.new.lent)
            self.new }
        ensures more { IfOk result (λ more. more ≡ is_some self.new.lent) }
        ensures none { IfErr result (λ _. self.new.lent ≡ None) }
    {
        self.go_on(Direction::Back)
    }

    /// Clears the lent entry until the next call.
    pub fn unlend(&mut self)
        ensures { self.new ≡ spec.without_lent self.old }
    {
        match self.end {
            Direction::Front => unlend_in(&mut self.walk.front),
            Direction::Back => unlend_in(&mut self.walk.back),
        }
    }

    /// Advances to the next entry at an end and returns whether there is one.
    #[inline(always)]
    fn go_on(&mut self, at: Direction) -> Result<bool, Error>
        ensures goes { spec.RangeLendsAt at self.old (spec.came result self.new.lent) self.new }
        ensures more { IfOk result (λ more. more ≡ is_some self.new.lent) }
        ensures none { IfErr result (λ _. self.new.lent ≡ None) }
    {
        self.end = at;
        match next_entry(&mut self.walk, at) {
            Ok(more) => Ok(more),
            Err(error) => {
                end(&mut self.walk);
                Err(error)
            }
        }
    }

    /// Returns the lent entry; its key and value share the table's bytes. Fails with
    /// [`Error::OutOfMemory`] only.
    #[inline(always)]
    fn share(&self) -> IterItem<A>
        requires { is_some self.now.lent ≡ true }
        ensures found { IfOk result (λ e. self.now.lent ≡ Some e) }
        ensures err { IfErr result (λ e. e ≡ spec.OutOfMemory) }
    {
        let mut item = share_in(near(&self.walk, self.end))?;
        item.key.seqno += self.walk.parts.global_seqno;
        Ok(item)
    }

    /// Returns the next item at an end.
    #[inline(always)]
    fn answer(&mut self, at: Direction) -> Option<IterItem<A>>
        ensures { spec.RangeGives (spec.taken_at at) (spec.next_at at) self.old result self.new }
    {
        match self.go_on(at) {
            Ok(true) => match self.share() {
                Ok(item) => Some(Ok(item)),
                Err(refusal) => {
                    end(&mut self.walk);
                    Some(Err(refusal))
                }
            },
            Ok(false) => None,
            Err(error) => Some(Err(error)),
        }
    }
}

impl<A: Allocator + Clone> Iterator for Iter<A> {
    type Item = IterItem<A>;

    ghost can_next = { λ _. Unit {0} };

    ghost next_gives = { spec.RangeGives spec.front_of spec.front_next };

    ghost remaining = { λ s. spec.at_most (spec.range_size s) };

    // Always inlined: a call that returns an entry by value costs more than the step.
    #[inline(always)]
    fn next(&mut self) -> Option<IterItem<A>> {
        self.answer(Direction::Front)
    }
}

impl<A: Allocator + Clone> DoubleEndedIterator for Iter<A> {
    ghost can_next_back = { λ _. Unit {0} };

    ghost next_back_gives = { spec.RangeGives spec.back_of spec.back_next };

    #[inline(always)]
    fn next_back(&mut self) -> Option<IterItem<A>> {
        self.answer(Direction::Back)
    }
}

impl<A: Allocator + Clone> Lending for Iter<A> {
    ghost can_advance = { λ _. Unit {0} };

    ghost advances = { spec.RangeLends };

    ghost lent = { λ s. s.lent };

    ghost left = { spec.range_size };

    #[inline]
    fn advance(&mut self) -> Result<bool, Error> {
        self.go_on(Direction::Front)
    }

    // Always inlined, with all that it calls: a merger calls it at each comparison.
    #[inline(always)]
    fn entry(&self) -> Option<EntryRef<'_>> {
        match entry_in(near(&self.walk, self.end)) {
            None => None,
            Some(entry) => Some(EntryRef {
                seqno: entry.seqno + self.walk.parts.global_seqno,
                ..entry
            }),
        }
    }
}

impl<A: Allocator + Clone> Ends for Iter<A> {
    type Item = InternalValue<A>;

    ghost left = { spec.range_remains };

    #[inline(always)]
    fn step(&mut self, at: Direction) -> Option<IterItem<A>> {
        self.answer(at)
    }
}
