//! Tests of sections, block loads and filters.
mod filter_blocks;
mod filters;
mod hashes;
mod loading;
mod memory;
mod sections;
mod stored_table;
pub mod tables;
mod together;
