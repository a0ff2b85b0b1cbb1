//! Long keys and large blocks, whose bytes share one buffer.

use crate::blocks::payloads::once_done;
use crate::blocks::{data_blocks, index_blocks};
use sst_blocks::{BlockType, Error, Slice};
use std::alloc::Global;

/// The number of entries or handles, the lengths of their keys and of the last key, and the length
/// of each value.
pub(crate) struct Size {
    count: usize,
    key_len: usize,
    last_len: usize,
    pub(crate) value_len: usize,
}

// 4,097 big-endian numbers, and zeroes after the last.
fn numbers(alloc: Global) -> Result<Slice, Error> {
    let mut bytes = Vec::new(alloc);
    for number in 0..=4096u16 {
        bytes.extend_from_slice(&number.to_be_bytes())?;
    }
    bytes.resize(8192 + 1048577, 0)?;
    Slice::from_vec(bytes)
}

/// A share of some bytes from a start, with a length.
pub(crate) fn part(bytes: &Slice, start: usize, len: usize) -> Result<Slice, Error> {
    let end = start.saturating_add(len);
    if end > bytes.len() {
        return Err(Error::InvalidBlock);
    }
    bytes.slice(start, end)
}

/// An item whose key and value share a part of some bytes.
pub(crate) trait Within: Drop {
    /// The key has `key_len` bytes and begins at `start`. The value, if any, has the length of its
    /// size and begins at the last of the numbers.
    fn within(bytes: &Slice, start: usize, size: &Size, key_len: usize) -> Result<Self, Error>;
}

// Adds the items of a size.
fn put_all<T: Within>(items: &mut Vec<T>, bytes: &Slice, size: &Size) -> Result<(), Error> {
    for place in 0..size.count {
        let is_last = place.saturating_add(1) == size.count;
        let key_len = if is_last { size.last_len } else { size.key_len };
        items.push(T::within(bytes, place.saturating_mul(2), size, key_len)?)?;
    }
    Ok(())
}

// The items of a size: each key begins with its number.
fn items_of<T: Within>(alloc: Global, size: &Size) -> Result<Vec<T>, Error> {
    let bytes = numbers(alloc)?;
    let mut items = Vec::new(alloc);
    let done = put_all(&mut items, &bytes, size);
    drop(bytes);
    once_done(items, done)
}

const MEBIBYTE: usize = 1048576;

// The number of items, the lengths of their keys, of the last key, and of each value.
macro_rules! size {
    ($count:expr, $key_len:expr, $last_len:expr, $value_len:expr) => {
        Size {
            count: $count,
            key_len: $key_len,
            last_len: $last_len,
            value_len: $value_len,
        }
    };
}

// A kind of block, its size, the bound on the block, and its length or the error.
type Row = (BlockType, Size, u64, Result<usize, Error>);

const ROWS: &[Row] = &[
    (
        BlockType::Data,
        size!(1, 0, 65536, 0),
        28 + 17 + 65536,
        Ok(4 + 17 + 65536),
    ),
    (
        BlockType::Data,
        size!(1, 0, MEBIBYTE, 0),
        28 + 17 + 1048576,
        Ok(4 + 17 + MEBIBYTE),
    ),
    (
        BlockType::Data,
        size!(1, 0, MEBIBYTE + 1, 0),
        28 + 17 + 1048577,
        Err(Error::KeyTooLong),
    ),
    (
        BlockType::Index,
        size!(1, 0, MEBIBYTE, 0),
        28 + 24 + 1048576,
        Ok(4 + 24 + MEBIBYTE),
    ),
    (
        BlockType::Index,
        size!(1, 0, MEBIBYTE + 1, 0),
        28 + 24 + 1048577,
        Err(Error::KeyTooLong),
    ),
    // Four gibibytes of values, and of end keys.
    (
        BlockType::Data,
        size!(4096, 2, 2, MEBIBYTE),
        28 + 4096 * (17 + 2 + 1048576),
        Err(Error::BlockTooLarge),
    ),
    (
        BlockType::Index,
        size!(4096, MEBIBYTE, MEBIBYTE, 0),
        28 + 4096 * (24 + 1048576),
        Err(Error::BlockTooLarge),
    ),
    // A key that is too long is reported before the block.
    (
        BlockType::Data,
        size!(4097, 2, MEBIBYTE + 1, MEBIBYTE),
        28 + 4097 * (17 + 1048576) + 4096 * 2 + 1048577,
        Err(Error::KeyTooLong),
    ),
];

// Whether encoding a row returns its length or its error.
fn is_so(alloc: Global, row: &Row) -> bool {
    let (kind, size, bound, length) = row;
    let returned = match kind {
        BlockType::Index => index_blocks::returned(alloc, items_of(alloc, size), &[]),
        _ => data_blocks::returned(alloc, items_of(alloc, size), &[]),
    };
    match returned {
        Ok(returned) => returned.0 == *bound && returned.1 == *length,
        Err(_) => false,
    }
}

#[test]
fn keys_above_a_mebibyte_and_blocks_of_four_gibibytes_are_refused(rt: HostRuntime) {
    for row in ROWS {
        assert!(rt; is_so(rt.alloc(), row));
    }
}
