//! Tests of merging, newest versions and compaction, by value and borrowed.
mod compaction;
mod laws;
mod lending;
mod sources;
mod streams;
mod words;
