//! Where a payload is in a table's bytes.
use crate::block::Header;

/// A payload in a table's bytes, with the header before it.
#[derive(Clone, Copy)]
pub(super) struct Payload {
    pub(super) header: Header,
    pub(super) start: usize,
    pub(super) end: usize,
    /// Whether the cache says that the checksum and the grammar are valid.
    pub(super) is_verified: bool,
}
