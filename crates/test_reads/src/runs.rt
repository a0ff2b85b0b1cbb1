//! Tests of reads of one run and of several as one.
//!
//! Reads are from both ends, by scans, below a sequence number and by age, by value and borrowed.
//! Lists are written as runs. Runs are compacted or packed, all of them or a part, with a filter
//! and without. Some tests have allocation failures, too few ids or a damaged table.
pub mod compactions;
mod key_ranges;
mod lent_ranges;
pub mod lists;
mod packing;
pub mod part;
mod points;
mod several;
mod sources;
mod stored;
pub mod walks;
