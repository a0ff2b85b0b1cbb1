//! Output about opened table files: entries, the visible version of a key, metadata, and the faults
//! of a verification.

mod blocks;
mod checks;
mod dumps;
mod facts;
mod gets;
mod loads;
mod members;
mod merged;
mod named;
mod picture;
mod stat_object;
mod stats;
mod verify_line;

pub use blocks::refused_at;
pub use checks::{NoProgress, Progress, verify, verify_unopened};
pub use dumps::{DumpOptions, dump};
pub use gets::{GetOptions, get};
pub(crate) use members::{line_of, write_number};
pub use merged::dump_merged;
pub use named::NamedTable;
pub use stats::stat;
pub use verify_line::{VerifyLine, print_verify_line};
