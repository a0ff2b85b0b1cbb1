//! Table files: reads, opens and writes them, each write complete before it gets its name.

mod contents;
mod error;
mod escaped;
mod file_error;
mod file_name;
mod free;
mod left;
mod made;
mod new_folder;
mod numbered;
mod open;
mod place;
mod read;
mod target;
mod write;

pub use contents::Contents;
pub use error::{BlockPlace, KeyWord, LineFault, RefusedAt, ToolError, section_name};
pub use escaped::Escaped;
pub use file_error::{FileError, FileFault};
pub use file_name::FileName;
pub use free::check_free;
pub use made::{Made, print_made};
pub use new_folder::place_folder;
pub use numbered::table_files;
pub use open::{open_bytes, open_file_table, open_table, open_tables};
pub use place::{Disk, Place};
pub use read::{open_file, read_file, read_whole};
pub use target::largest_table;
pub use write::{NewFile, place_files, place_series};
