//! A digest of the entries that a workload received.
ghost use Rattle.std.specs.Prelude.{◌≡◌, IfErr, OnOk};
ghost use Rattle.sst_entries.specs.Error.{number_of};

use sst_blocks::{EntryRef, Error, InternalValue};
use std::alloc::Allocator;

/// The number of entries, the number of bytes of their keys and values, and a sum.
///
/// The sum is over the ends of keys and values, and depends on the order of the entries. All three
/// wrap.
#[repr(C)]
#[derive(Clone, Copy)]
pub struct Digest {
    /// The number of entries.
    pub entries: u64,
    /// The number of bytes of keys and values.
    pub bytes: u64,
    /// The sum.
    pub sum: u64,
}

// The last 8 bytes as a number; 0 of fewer bytes.
#[inline]
fn tail(bytes: &[u8]) -> u64 {
    match bytes.last_chunk::<8>() {
        Some(last) => u64::from_le_bytes(*last),
        None => 0,
    }
}

impl Digest {
    /// Returns the digest of no entries.
    pub fn empty() -> Digest
        ensures { result ≡ record { entries = 0; bytes = 0; sum = 0 } }
    {
        Digest {
            entries: 0,
            bytes: 0,
            sum: 0,
        }
    }

    #[inline]
    pub(crate) fn add<A: Allocator>(&mut self, item: &InternalValue<A>) {
        self.add_parts(item.key.user_key.as_slice(), item.value.as_slice());
    }

    #[inline]
    pub(crate) fn add_lent(&mut self, entry: &EntryRef<'_>) {
        self.add_parts(entry.user_key, entry.value);
    }

    #[inline]
    fn add_parts(&mut self, key: &[u8], value: &[u8]) {
        let ends = tail(key).wrapping_mul(0x9e37_79b9_7f4a_7c15) ^ tail(value);
        self.entries = self.entries.wrapping_add(1);
        self.bytes = self
            .bytes
            .wrapping_add(key.len() as u64)
            .wrapping_add(value.len() as u64);
        self.sum = self
            .sum
            .wrapping_mul(0x0000_0100_0000_01b3)
            .wrapping_add(ends);
    }
}

// 0, or the error code.
pub(crate) fn code(outcome: Result<(), Error>) -> u32
    ensures done { OnOk outcome (result ≡ 0) }
    ensures refused { IfErr outcome (λ e. result ≡ number_of e) }
{
    match outcome {
        Ok(()) => 0,
        Err(error) => u32::from(error.number()),
    }
}
