//! The partitions of a two-level index that are not loaded yet.
ghost use Rattle.lsm_iters.specs.Words as spec;

use crate::Parts;
use crate::block_index::edges::Edges;
use crate::block_index::iter::OwnedIndexBlockIter;
use crate::block_index::part::load_handles;
use sst_blocks::{BlockSource, Error, Opened};
use sst_entries::Direction;
use std::alloc::Allocator;

/// The partitions whose handles a top level still yields; each is cut to two edges when loaded.
#[derive(Drop)]
pub struct Partitions<A: Allocator> {
    pub source: BlockSource<A>,
    pub tops: OwnedIndexBlockIter<A>,
    pub edges: Edges<A>,
    pub opened: Opened,
}

impl<A: Allocator + Clone> Parts for Partitions<A> {
    type Part = OwnedIndexBlockIter<A>;

    ghost coming = { spec.coming_partitions };

    ghost keeps = { spec.KeepsPartitions };

    ghost ends = { spec.EndsPartitions };

    #[inline(never)]
    fn load(&mut self, at: Direction) -> Option<Result<OwnedIndexBlockIter<A>, Error>> {
        match self.tops.take_place(at) {
            Some(top) => Some(load_handles(&self.source, &top, &self.edges, &mut self.opened)),
            None => None,
        }
    }

    fn end(&mut self) {
        self.tops.end();
    }
}
