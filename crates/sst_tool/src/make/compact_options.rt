//! The options of a compaction.
use crate::make::TableOptions;
use lsm_sorted::compaction::Rules;

/// The options of a compaction.
#[derive(Clone, Copy, Debug, PartialEq, Eq)]
pub struct CompactOptions {
    /// Which versions are dropped, and which sequence numbers become 0.
    pub rules: Rules,
    /// The options of the new tables.
    pub tables: TableOptions,
}
