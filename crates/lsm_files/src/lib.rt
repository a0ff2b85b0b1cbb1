//! Sorted tables that stay in their files: a read loads the blocks that it needs.
#![tactic(auto)]

mod ahead;
mod blocks;
mod error;
mod keeping;
mod many;
mod read_at;
mod scanner;
mod table;
mod tail;

pub use blocks::FileBlocks;
pub use error::FileError;
pub use read_at::ReadAt;
pub use scanner::FileScanner;
pub use table::FileTable;
