//! Compaction: dropping older versions and tombstones that no reader needs.
use sst_entries::SeqNo;

pub mod lending;
pub mod stream;

/// The rules of a compaction.
#[derive(Clone, Copy, Debug, PartialEq, Eq)]
pub struct Rules {
    /// The watermark: no reader reads at a smaller seqno.
    pub watermark: SeqNo,
    /// Whether a tombstone is dropped if no older version of its key is kept.
    ///
    /// A weak tombstone stays if it hides a next version that is not a value. Set it only if no
    /// table outside the compaction has an older version of these keys: else a deleted key can come
    /// back.
    pub evict: bool,
    /// Whether seqnos below the watermark become 0.
    pub zeroing: bool,
}
