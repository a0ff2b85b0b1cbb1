//! Makes table files: from lines, by compaction, and packed into runs.

mod compact;
mod compact_options;
mod entries;
mod fill;
mod laws;
mod options;
mod pack;
mod print;
mod scanned;
mod write;

pub use compact::compact_files;
pub use compact_options::CompactOptions;
pub use laws::lines_law;
pub use options::{TableOptions, WriteOptions};
pub use pack::pack_files;
pub use print::{packed_object, print_packed};
pub use write::write_entries;
