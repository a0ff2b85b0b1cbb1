//! Operations on sorted entries from any table: key ranges, runs, packing, merging, newest versions
//! and compaction.
#![tactic(auto)]

mod ahead;
mod below;
pub mod compaction;
mod found;
mod gap;
mod give_up;
mod heap;
mod key_range;
mod lending_merger;
mod lending_newest;
mod merge;
mod mvcc_stream;
mod newest;
mod peeked;
mod version;

pub use below::{Below, each_below};
pub use found::leading;
pub use gap::up_to_gap;
pub use heap::{Ends, IntervalHeap, LazyTournament, Tournament, compare_refs};
pub use key_range::KeyRange;
pub use lending_merger::LendingMerger;
pub use lending_newest::LendingNewest;
pub use merge::{Merger, from_both_ends};
pub use mvcc_stream::MvccStream;
pub use newest::{NewestOf, newest_from_both_ends, newest_of};
pub use version::{Indexed, Packed, Placed, Ranged, Run, optimize_runs, overlap_chain, pack_each};
