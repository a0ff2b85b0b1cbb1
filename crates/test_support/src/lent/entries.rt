//! Pseudorandom numbers and small entries.
use sst_entries::{Error, InternalValue, Slice, ValueType};
use std::alloc::Global;

/// The next pseudorandom number.
pub fn random(seed: &mut u64) -> u64 {
    *seed = seed
        .wrapping_mul(6364136223846793005)
        .wrapping_add(1442695040888963407);
    *seed >> 33
}

/// An entry with a key and a value of one byte each.
pub fn entry_of(
    alloc: Global,
    key: u8,
    seqno: u64,
    kind: ValueType,
    value: u8,
) -> Result<InternalValue, Error> {
    let key = Slice::from(alloc, &[key])?;
    let value = Slice::from(alloc, &[value])?;
    Ok(InternalValue::from_components(key, value, seqno, kind))
}
