//! The entries of a loaded block within bounds.
ghost use Rattle.std.specs.Prelude.{◌≡◌, ◌≤◌, IfErr, IfOk, Some, is_some, length};
ghost use Rattle.std.specs.Prelude.{slice_range, true};
ghost use Rattle.lsm_iters.specs.Words as spec;

use crate::Ends;
use sst_blocks::{DataBlock, DataBlockCursor, EntryRef, Error, InternalValue, IterItem};
use sst_entries::Direction;
use std::alloc::Allocator;
use std::marker::Model;

/// A double-ended cursor over the entries of a loaded block within bounds; a part of a
/// [`crate::Walk`].
#[derive(Drop)]
pub struct BlockCursor<A: Allocator> {
    cursor: DataBlockCursor<A>,
}

impl<A: Allocator> Model for BlockCursor<A> {
    ghost use Rattle.sst_blocks.specs.Cursor.{Cursor};

    ghost Value = { Cursor };

    ghost view = { λ c. c.cursor };
}

impl<A: Allocator> BlockCursor<A> {
    /// Returns a cursor over the entries from index `from` to before index `to`.
    ///
    /// `to` must not exceed the number of entries.
    pub fn new(block: DataBlock<A>, from: usize, to: usize) -> BlockCursor<A>
        requires { to ≤ length block }
        ensures { result ≡ spec.cursor_of (slice_range block from to) }
    {
        BlockCursor {
            cursor: block.into_cursor_of(from, to),
        }
    }

    /// Moves to the next entry at an end and returns whether there is one.
    #[inline(always)]
    pub fn move_to(&mut self, at: Direction) -> bool
        ensures taken { (self.new.lent, self.new.behind) ≡ spec.taken_at at self.old.behind }
        ensures more { result ≡ is_some self.new.lent }
    {
        match at {
            Direction::Front => self.cursor.advance(),
            Direction::Back => self.cursor.advance_back(),
        }
    }

    /// Returns the current entry, borrowed from the block.
    #[inline(always)]
    pub fn entry(&self) -> Option<EntryRef<'_>>
        ensures { spec.option_map spec.entry_of_ref result ≡ self.now.lent }
    {
        self.cursor.entry()
    }

    /// Returns the current entry; its key and value share the block's memory.
    ///
    /// There must be a current entry.
    ///
    /// # Errors
    ///
    /// [`Error::OutOfMemory`] only.
    #[inline(always)]
    pub fn share(&self) -> Result<InternalValue<A>, Error>
        requires { is_some self.now.lent ≡ true }
        ensures found { IfOk result (λ e. self.now.lent ≡ Some e) }
        ensures err { IfErr result (λ e. e ≡ spec.OutOfMemory) }
    {
        self.cursor.share()
    }

    /// Clears the current entry until the next move.
    #[inline(always)]
    pub fn unlend(&mut self)
        ensures { self.new ≡ spec.unlent self.old }
    {
        self.cursor.unlend();
    }
}

impl<A: Allocator> Ends for BlockCursor<A> {
    type Item = InternalValue<A>;

    ghost left = { spec.cursor_remains };

    #[inline(always)]
    fn step(&mut self, at: Direction) -> Option<IterItem<A>> {
        if self.move_to(at) {
            return Some(self.share());
        }
        None
    }
}
