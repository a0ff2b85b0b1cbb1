//! Tests of key ranges, runs and packing.
mod packing;
mod ranges;
mod runs;
mod tables;
