//! Workloads over sorted tables, each as one C function: `bench/` at the top of the repository
//! compares their times with those of other stores.
//!
//! No state is kept between calls, so a call that reads opens its tables first. To time the work
//! alone, subtract the time of a call with no passes from one with passes.
//!
//! A call returns 0 or an error code (`Error::number`). It returns 24 for bytes that are shorter
//! than their lengths, and for entries that are out of order. After an error the counts are
//! meaningless.
//!
//! It is proved that these functions are safe, terminate, and meet the conditions of the crates
//! below. The driver tests the results by comparing them with those of the other stores.
#![tactic(auto)]

mod batches;
mod builds;
mod compactions;
mod digest;
mod files;
mod gets;
mod lending;
mod merges;
mod packings;
mod ranges;
mod runs;
mod scans;

pub use batches::tool_bench_get_many;
pub use builds::{Written, tool_bench_build, tool_bench_build_partitioned};
pub use compactions::{tool_bench_compact, tool_bench_compact_and_scan};
pub use digest::Digest;
pub use files::tool_bench_open;
pub use gets::tool_bench_get;
pub use lending::{
    tool_bench_merge_lent, tool_bench_range_lent, tool_bench_range_runs_lent, tool_bench_scan_lent,
};
pub use merges::tool_bench_merge;
pub use packings::{Packed, tool_bench_optimize_runs};
pub use ranges::{tool_bench_range, tool_bench_range_runs};
pub use runs::{tool_bench_compact_each, tool_bench_compact_runs};
pub use scans::{tool_bench_iter, tool_bench_iter_back, tool_bench_scan};
