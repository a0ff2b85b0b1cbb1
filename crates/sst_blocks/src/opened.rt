//! Counts of block loads.
ghost use Rattle.std.specs.Prelude.{◌≡◌};

use crate::BlockType;

/// The number of block loads of each kind.
///
/// Each count saturates at `u64::MAX`.
#[derive(Clone, Copy, Debug, Default, PartialEq, Eq)]
pub struct Opened {
    /// Loads of data blocks.
    pub data_loads: u64,
    /// Loads of index blocks.
    pub index_loads: u64,
    /// Loads of filter blocks.
    pub filter_loads: u64,
    /// Loads of meta blocks.
    pub meta_loads: u64,
}

impl Opened {
    ghost use Rattle.sst_blocks.specs.Opened.{with_load, none_opened};

    /// Returns zero counts.
    pub fn none() -> Opened
        ensures { result ≡ none_opened }
    {
        Opened {
            data_loads: 0,
            index_loads: 0,
            filter_loads: 0,
            meta_loads: 0,
        }
    }

    /// Counts one load of a kind.
    pub fn count(&mut self, kind: BlockType)
        ensures { self.new ≡ with_load kind self.old }
    {
        match kind {
            BlockType::Data => self.data_loads = self.data_loads.saturating_add(1),
            BlockType::Index => self.index_loads = self.index_loads.saturating_add(1),
            BlockType::Filter => self.filter_loads = self.filter_loads.saturating_add(1),
            BlockType::Meta => self.meta_loads = self.meta_loads.saturating_add(1),
        }
    }
}
