//! Tests of the tool's files over a file system in memory, each step of which can fail.
mod gets;
mod memory;
mod refused;
mod written;
