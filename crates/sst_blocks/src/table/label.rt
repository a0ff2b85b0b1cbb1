//! The table info that a caller supplies.
use crate::{TableId, Timestamp};

/// The table info that a caller supplies: id, level and creation time.
#[derive(Clone, Copy, Debug, PartialEq, Eq)]
pub struct Label {
    /// The table's id.
    pub table_id: TableId,
    /// The level at which it was written.
    pub initial_level: u8,
    /// When it was written.
    pub created_at: Timestamp,
}
