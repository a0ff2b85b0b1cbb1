//! Rows of each kind, with different values, and the comparison of whole entries with their rows.
use crate::samples::rows::Row;
use sst_blocks::{InternalValue, IterItem, ValueType};
use std::alloc::Allocator;

pub const A9: Row<'static> = (b"a", 9, ValueType::Value, b"x");

pub const A7: Row<'static> = (b"a", 7, ValueType::Tombstone, b"");

pub const B8: Row<'static> = (b"b", 8, ValueType::WeakTombstone, b"");

pub const B6: Row<'static> = (b"b", 6, ValueType::Value, b"yy");

pub const C5: Row<'static> = (b"c", 5, ValueType::Indirection, b"far");

/// A tombstone with a value: by custom it has none, but no rule forbids it.
pub const D3: Row<'static> = (b"d", 3, ValueType::Tombstone, b"gone");

pub const D2: Row<'static> = (b"d", 2, ValueType::Indirection, b"");

// Whether an entry has the key, sequence number, kind and value of a row.
fn is_row<A: Allocator>(item: &InternalValue<A>, row: &Row<'_>) -> bool {
    item.key.user_key.as_slice() == row.0
        && item.key.seqno == row.1
        && item.key.value_type == row.2
        && item.value.as_slice() == row.3
}

/// Whether an item is the entry of a row, or nothing where there is no row.
pub fn is_answer<A: Allocator>(answer: &Option<IterItem<A>>, row: Option<&Row<'_>>) -> bool {
    match (answer, row) {
        (Some(Ok(item)), Some(row)) => is_row(item, row),
        (None, None) => true,
        _ => false,
    }
}
