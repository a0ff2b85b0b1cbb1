//! Compactions: several runs into fewer tables, by rules and filters, to tables or to a run.

pub use lsm_runs::{
    Compaction, CompactionObserver, CompactionOutcome, CompactionProgress, NoObserver,
    compact_any_runs, compact_each, compact_runs, compact_to_run, compact_to_run_with,
};
pub use lsm_sorted::compaction::Rules;
pub use lsm_sorted::compaction::lending::{LentCallback, LentFilter};
pub use lsm_sorted::compaction::stream::{NoCallback, NoFilter, StreamFilterVerdict};
