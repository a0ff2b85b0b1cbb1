//! Cutting a loaded block to bounds.
ghost use Rattle.std.specs.Prelude.{◌≡◌};
ghost use Rattle.lsm_iters.specs.Words as spec;

use crate::{Bound, OwnedDataBlockIter};
use sst_blocks::{DataBlock, SeqNo};
use std::alloc::Allocator;

/// Returns the entries of a block from a lower bound on.
fn from_lower<A: Allocator>(block: DataBlock<A>, lower: &Option<Bound<A>>) -> OwnedDataBlockIter<A>
    ensures { spec.rest_in result ≡ spec.within (spec.edge_in lower.now) spec.Unbounded block }
{
    let mut iter = OwnedDataBlockIter::new(block);
    match lower {
        Some(bound) => {
            iter.seek_lower_bound(bound, SeqNo::MAX);
            iter
        }
        None => iter,
    }
}

/// Returns the entries of a block within two bounds.
pub fn cut<A: Allocator>(
    block: DataBlock<A>,
    lower: &Option<Bound<A>>,
    upper: &Option<Bound<A>>,
) -> OwnedDataBlockIter<A>
    ensures { spec.rest_in result ≡ spec.within (spec.edge_in lower.now) (spec.edge_in upper.now)
        block }
{
    let mut iter = from_lower(block, lower);
    match upper {
        Some(bound) => {
            iter.seek_upper_bound(bound, SeqNo::MAX);
            iter
        }
        None => iter,
    }
}
