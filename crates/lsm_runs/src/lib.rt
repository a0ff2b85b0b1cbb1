//! Reading, writing, compacting and packing of runs of tables.
#![tactic(auto)]

mod compaction;
mod lending_reader;
mod lent_entries;
mod lent_gets;
mod lent_runs;
mod lent_sources;
mod run_reader;
mod run_scanner;
mod runs;
mod sources;

pub use compaction::{
    Compaction, CompactionObserver, CompactionOutcome, CompactionProgress, NoObserver, OpenOptions,
    compact_any_runs, compact_each, compact_runs, compact_to_run, compact_to_run_with,
    compaction_law, compaction_tables_law, pack_runs, packing_law, write_run,
};
pub use lent_entries::{LentEntries, lend_entries, lend_entries_within};
pub use lent_gets::{
    RunPlace, entry_in_runs, get_runs_ref, get_runs_ref_by_age, get_runs_ref_counted,
    place_in_runs, place_in_runs_by_age_counted, place_in_runs_counted,
};
pub use lent_runs::{LentNewestOf, LentNewestOfRunsAt, lend_runs_at};
pub use lent_sources::{EitherLending, LentNewestOfSourcesAt, lend_sources_at};
pub use lsm_run_parts::share;
pub use run_reader::RunReader;
pub use run_scanner::RunScanner;
pub use runs::{
    NewestOfRuns, NewestOfRunsAt, get_runs, get_runs_counted, range_runs, range_runs_at,
};
pub use sources::{NewestOfSourcesAt, range_sources_at};
