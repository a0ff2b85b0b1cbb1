//! The data blocks of a table that are not loaded yet.
ghost use Rattle.std.specs.Prelude.{◌≡◌, ◌∷◌, [], Err, IfErr, IfOk, OnErr, OnOk, false, true};
ghost use Rattle.lsm_iters.specs.Words as spec;

use crate::block_cursor::BlockCursor;
use crate::cut::cut;
use crate::handles::Handles;
use crate::{Bound, Parts};
use sst_blocks::{BlockHandle, BlockSource, BlockType, DataBlock, Error, Opened, SeqNo};
use sst_entries::Direction;
use std::alloc::Allocator;
use std::marker::Model;

/// The data blocks whose handles an index still yields; each is cut to two bounds when loaded.
#[derive(Drop)]
pub struct Blocks<A: Allocator> {
    pub source: BlockSource<A>,
    pub global_seqno: SeqNo,
    pub index: Handles<A>,
    pub range: (Option<Bound<A>>, Option<Bound<A>>),
    pub opened: Opened,
}

impl<A: Allocator> Model for Blocks<A> {
    ghost use Rattle.sst_blocks.specs.Sections.{body_of};
    ghost use Rattle.lsm_iters.specs.Bounds.{edge_in};
    ghost use Rattle.lsm_iters.specs.Blocks.{Blocks};

    ghost Value = { Blocks A };

    ghost view = { λ b. record {
      of = record {
        body = body_of b.source;
        global_seqno = b.global_seqno;
        low = edge_in b.range.0;
        high = edge_in b.range.1;
      };
      handles = b.index;
      opened = b.opened;
    } };
}

impl<A: Allocator + Clone> Blocks<A> {
    /// Seeks the bounds in the index, unless they were sought before.
    ///
    /// # Errors
    ///
    /// [`Error::OutOfMemory`] only.
    #[inline(always)]
    pub fn initialize(&mut self) -> Result<(), Error>
        ensures ok { let low = spec.lower_edge self.old.of.low in
            let high = spec.upper_edge self.old.of.high in
            OnOk result (spec.SeeksOnce self.old.handles self.new.handles low high) }
        ensures none { spec.LoadsNone (spec.left_in self.old.handles)
            (spec.left_in self.new.handles) }
        ensures sought { self.new.handles.sought ≡ true }
        ensures is { self.new ≡ record self.old { handles = self.new.handles } }
        ensures once { OnErr result (self.old.handles.sought ≡ false) }
        ensures err { IfErr result (λ e. e ≡ spec.OutOfMemory) }
    {
        self.index.seek(&self.range.0, &self.range.1)
    }

    /// Returns how many blocks of each kind were loaded, index blocks included.
    pub fn all_opened(&self) -> Opened
        ensures { let index = (spec.left_in self.now.handles).opened in
            result ≡ record index { data_loads = self.now.opened.data_loads } }
    {
        let mut opened = self.index.opened();
        opened.data_loads = self.opened.data_loads;
        opened
    }

    /// Loads the block of a handle and returns its entries within the bounds.
    fn read(&mut self, handle: &BlockHandle) -> Result<BlockCursor<A>, Error>
        ensures ok { let rows = spec.stored_at self.old.of handle.now in
            IfOk result (λ c. spec.ok_results c.behind ≡ rows) }
        ensures err { let rows = spec.stored_at self.old.of handle.now in
            IfErr result (λ e. spec.is_memory e ≡ false → Err e ∷ [] ≡ rows) }
        ensures first { let body = self.old.of.body in let place = handle.now in
            spec.FaultsFirst result (spec.place_fault body place.offset place.size spec.Data) }
        ensures counted { self.new
            ≡ record self.old { opened = spec.data_loaded 1 self.old.opened } }
    {
        let block = self.source.load(handle, BlockType::Data, &mut self.opened)?;
        let cut = cut(DataBlock::new(block), &self.range.0, &self.range.1);
        Ok(cut.into_cursor())
    }

    /// Compares the checksums of a front block and of the block after it together. This costs
    /// little more than one comparison. From the fifth block on it compares three blocks ahead,
    /// since a long scan is likely to continue. No result depends on it.
    fn look_ahead(&self, handle: &BlockHandle, at: Direction) {
        if at == Direction::Front {
            let most = if self.opened.data_loads < 4 { 2 } else { 4 };
            self.source.compare_ahead(handle.offset().0, most);
        }
    }
}

impl<A: Allocator + Clone> Parts for Blocks<A> {
    type Part = BlockCursor<A>;

    ghost coming = { spec.coming_blocks };

    ghost keeps = { spec.KeepsBlocks };

    ghost ends = { spec.EndsBlocks };

    #[inline(never)]
    fn load(&mut self, at: Direction) -> Option<Result<BlockCursor<A>, Error>> {
        match self.index.take(at) {
            Some(Ok(handle)) => {
                self.look_ahead(&handle, at);
                Some(self.read(&handle))
            }
            Some(Err(error)) => Some(Err(error)),
            None => None,
        }
    }

    fn end(&mut self) {
        self.index.end();
    }
}
