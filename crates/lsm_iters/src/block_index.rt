//! Block indexes of sorted tables: from keys to the handles of data blocks, for any bytes.
mod edges;
mod full;
mod iter;
mod kinds;
mod part;
mod partitions;
mod two_level;
mod volatile;

pub use full::{FullBlockIndex, Iter as FullBlockIndexIter};
pub use iter::OwnedIndexBlockIter;
pub use kinds::{BlockIndex, BlockIndexImpl, BlockIndexIter, BlockIndexIterImpl};
pub use two_level::{Iter as TwoLevelBlockIndexIter, TwoLevelBlockIndex};
pub use volatile::{Iter as VolatileBlockIndexIter, VolatileBlockIndex};
