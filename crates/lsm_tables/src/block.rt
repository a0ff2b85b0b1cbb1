//! Entries, keys, errors, and counts of loaded blocks.

pub use sst_blocks::{
    Checksum, Direction, EntryRef, Error, InternalKey, InternalValue, IterItem, Lending, Opened,
    SeqNo, Slice, UserKey, UserValue, ValueType,
};
