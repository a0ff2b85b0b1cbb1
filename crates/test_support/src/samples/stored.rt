//! Stored tables, each made by an independent program.

pub mod filter_parts;
pub mod one_entry;
pub mod one_entry_filtered;
pub mod two_levels;
