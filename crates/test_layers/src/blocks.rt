//! Tests of data blocks and index blocks.
mod data_blocks;
mod entries;
mod index_blocks;
mod large;
mod loads;
mod memory;
mod payloads;
mod walks;
mod written;
