//! Laws: calls that do nothing when they run. The contract of each is a theorem, which a caller
//! that proves something gets by the call.

pub use lsm_runs::{compaction_law, compaction_tables_law, packing_law};
pub use lsm_writers::tables_law;
