//! The ids, info, options and meta items of a table.
mod id;
mod item_name;
mod label;
mod options;
mod timestamp;

pub use id::{GlobalTableId, TableId, TreeId};
pub use item_name::{FILTER_HASH_TYPE, ItemName};
pub use label::Label;
pub use options::{FilterKind, IndexKind, Options};
pub use timestamp::Timestamp;
