//! The handles of the blocks that are not loaded yet.
ghost use Rattle.std.specs.Prelude.{◌≡◌, ◌↔◌, None, true, false, OnOk, OnErr, IfErr};
ghost use Rattle.lsm_iters.specs.Words as spec;

use crate::{BlockIndexIter, BlockIndexIterImpl, Bound};
use sst_blocks::{BlockHandle, Error, Opened};
use sst_entries::Direction;
use std::alloc::Allocator;
use std::marker::Model;

/// The handles that an index iterator still yields.
///
/// Its bounds are sought once, before the first step. An iterator that was already sought or
/// advanced is used as it is.
#[derive(Drop)]
pub struct Handles<A: Allocator> {
    iter: BlockIndexIterImpl<A>,
    sought: bool,
    ended: bool,
}

impl<A: Allocator> Model for Handles<A> {
    ghost use Rattle.std.specs.Prelude.{◌≡◌, false, None};
    ghost use Rattle.lsm_iters.specs.block_index.Kinds.{IsSought};
    ghost use Rattle.lsm_iters.specs.Range.{Handles};

    ghost Value = { Handles A };

    ghost view = { λ h. record { iter = h.iter; sought = h.sought; ended = h.ended } };

    ghost invariant = { λ h. h.sought ≡ false → IsSought h.iter None None × (h.ended ≡ false) };
}

impl<A: Allocator + Clone> Handles<A> {
    /// Takes over an index iterator in any state.
    ///
    /// Its bounds are still to be sought exactly if no bound was sought and no step was made.
    pub fn new(iter: BlockIndexIterImpl<A>) -> Handles<A>
        ensures is { result ≡ record { iter = iter; sought = result.sought; ended = false } }
        ensures unsought { (result.sought ≡ false) ↔ spec.IsSought iter None None }
    {
        let sought = !iter.is_unsought();
        Handles {
            iter,
            sought,
            ended: false,
        }
    }

    /// Seeks two bounds in the index, unless they were sought before.
    ///
    /// Each step calls it; only the first call seeks.
    ///
    /// # Errors
    ///
    /// [`Error::OutOfMemory`] only, and never with a pinned full index.
    #[inline(always)]
    pub fn seek(&mut self, lower: &Option<Bound<A>>, upper: &Option<Bound<A>>) -> Result<(), Error>
        ensures ok { let low = spec.lower_edge (spec.edge_in lower.now) in
            let high = spec.upper_edge (spec.edge_in upper.now) in
            OnOk result (spec.SeeksOnce self.old self.new low high) }
        ensures none { spec.LoadsNone (spec.left_in self.old) (spec.left_in self.new) }
        ensures sought { self.new.sought ≡ true }
        ensures once { OnErr result (self.old.sought ≡ false) }
        // A pinned full index never fails.
        ensures refused { OnErr result (spec.TakesMemory self.old.iter) }
        ensures err { IfErr result (λ e. e ≡ spec.OutOfMemory) }
    {
        if self.sought {
            return Ok(());
        }
        self.seek_edges(lower, upper)
    }

    // Out of line, since only the first step of a range seeks.
    #[inline(never)]
    fn seek_edges(
        &mut self,
        lower: &Option<Bound<A>>,
        upper: &Option<Bound<A>>,
    ) -> Result<(), Error>
        requires { self.old.sought ≡ false }
        ensures ok { let low = spec.lower_edge (spec.edge_in lower.now) in
            let high = spec.upper_edge (spec.edge_in upper.now) in
            OnOk result (spec.SeeksOnce self.old self.new low high) }
        ensures none { spec.LoadsNone (spec.left_in self.old) (spec.left_in self.new) }
        ensures sought { self.new.sought ≡ true }
        ensures refused { OnErr result (spec.TakesMemory self.old.iter) }
        ensures err { IfErr result (λ e. e ≡ spec.OutOfMemory) }
    {
        self.sought = true;
        if let Some(bound) = lower {
            self.iter.keep_lower(bound.key())?;
        }
        if let Some(bound) = upper {
            self.iter.keep_upper(bound.key())?;
        }
        Ok(())
    }

    /// Takes the next handle at an end and returns its block's offset and size.
    pub fn take(&mut self, at: Direction) -> Option<Result<BlockHandle, Error>>
        ensures gives { spec.TakesPlace (spec.LeftGives (spec.taken_at at)) (spec.left_in self.old)
            result (spec.left_in self.new) }
        ensures sought { self.new.sought ≡ true }
    {
        self.sought = true;
        if self.ended {
            return None;
        }
        self.iter.take_place(at)
    }

    /// Drops the handles that are left.
    pub fn end(&mut self)
        ensures { self.new ≡ spec.all_over self.old }
    {
        self.sought = true;
        self.ended = true;
    }

    /// Returns how many blocks of each kind the index iterator loaded.
    pub fn opened(&self) -> Opened
        ensures { result ≡ (spec.left_in self.now).opened }
    {
        self.iter.opened()
    }
}
