//! Making runs of tables: of a list, of several runs that are compacted, and of the tables of
//! several runs that are packed.
mod any_runs;
mod compact;
mod compacted_run;
mod observer;
mod open_options;
mod pack;
mod runs_with;
mod tables;
mod written_run;

pub use any_runs::{CompactionOutcome, compact_any_runs};
pub use compact::{compact_runs, compaction_law};
pub use compacted_run::compact_to_run;
pub use observer::{CompactionObserver, CompactionProgress, NoObserver};
pub use open_options::OpenOptions;
pub use pack::{pack_runs, packing_law};
pub use runs_with::compact_to_run_with;
pub use tables::{Compaction, compact_each, compaction_tables_law};
pub use written_run::write_run;
