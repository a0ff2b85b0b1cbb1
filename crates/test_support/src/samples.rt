//! Shared by tests of tables: rows and their tables, stored tables, runs, and reads of these.
pub mod large;
pub mod lending;
pub mod lists;
pub mod rows;
pub mod runs;
pub mod stored;
pub mod tables;
pub mod whole;
