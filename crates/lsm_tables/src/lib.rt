//! Sorted tables for log-structured stores: writing, reading from both ends, merging, compacting
//! and packing.
//!
//! This crate re-exports all calls of the library that a store needs.
//!
//! - [`block`]: entries, keys, errors, and counts of loaded blocks
//! - [`table`]: writing and reading of tables
//! - [`run`]: reading of several runs, and packing
//! - [`merge`]: merging of sorted sources, and the newest version of each key
//! - [`compaction`]: compaction of several runs into new tables
//! - [`laws`]: theorems, as calls that do nothing
#![tactic(auto)]

pub mod block;
pub mod compaction;
pub mod laws;
pub mod merge;
pub mod run;
pub mod table;
mod written;
