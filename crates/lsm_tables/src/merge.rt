//! Merging of sorted sources, the newest version of each key, and the entries below a sequence
//! number; by value and borrowed.

pub use lsm_sorted::{Below, LendingMerger, Merger, MvccStream, NewestOf, each_below, newest_of};
