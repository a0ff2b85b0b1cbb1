//! Entries as lines of text: words, as in scripts, or a JSON object.

mod counts;
mod entry_line;
mod escapes;
mod object_line;
mod word_line;

pub use counts::word_for;
pub use entry_line::{Format, LineError, append_entry, parse_entry};
pub use escapes::{append_bytes, parse_bytes};
pub use object_line::write_bytes;
