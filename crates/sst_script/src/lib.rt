//! Scripts of the program `sst`: lines that write tables and read from them, and their output.
//!
//! - `entry KEY NUMBER KIND VALUE` adds a pending entry with that seqno.
//! - `table` writes the pending entries as tables, which are a run.
//! - `get KEY BOUND` reads the newest version of a key with a seqno below `BOUND`.
//! - `range LOW HIGH` reads the newest version of each key within two bounds. A bound is `*` for
//!   none, `=` before a key that is included, or `!` before one that is not.
//! - `compact WATERMARK` replaces all runs by one run of what a compaction under that watermark
//!   keeps of them, or by none if it keeps nothing. After the watermark may follow `evict`, which
//!   drops tombstones, then `zero`, which sets seqnos below the watermark to 0. Either may be used
//!   alone.
//! - `pack` puts the tables of all runs in as few runs as possible.
#![tactic(auto)]

mod command;
mod lines;
mod pending;
mod print;
mod runs;
mod script;
mod stop;
mod write;

pub(crate) use command::{Command, parse_command};
pub(crate) use print::{Answer, print_answer, print_refusal, print_stop};
pub use script::run_script;
pub(crate) use stop::{Failure, Stop};
