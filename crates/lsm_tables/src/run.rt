//! Runs: disjoint tables in the order of their keys. Several runs are read as one, and packed into
//! the fewest.

pub use lsm_runs::{
    LentEntries, LentNewestOf, LentNewestOfRunsAt, LentNewestOfSourcesAt, NewestOfRuns,
    NewestOfRunsAt, NewestOfSourcesAt, RunReader, RunScanner, get_runs, get_runs_counted,
    get_runs_ref, get_runs_ref_by_age, lend_entries, lend_entries_within, lend_runs_at,
    lend_sources_at, pack_runs, range_runs, range_runs_at, range_sources_at, share, write_run,
};
pub use lsm_sorted::{KeyRange, Run};
