//! The position of an entry in some bytes.
ghost use Rattle.std.specs.Prelude.{◌≡◌, ◌+◌, ◌<◌, ◌≤◌, ◌^◌, length, slice_range, IfErr, IfOk};
ghost use Rattle.sst_blocks.specs.Words as spec;

use crate::{EntryRef, Error, InternalValue, SeqNo, Slice, ValueType};
use std::alloc::Allocator;

/// The position of an entry's key and value in a table's bytes, with its sequence number and kind.
///
/// It borrows nothing, so the owner of the bytes can store it beside them.
#[derive(Clone, Copy)]
pub struct EntryPlace {
    key_at: usize,
    value_at: usize,
    end: usize,
    /// The sequence number of the entry.
    pub seqno: SeqNo,
    /// The kind of the entry.
    pub value_type: ValueType,
}

impl EntryPlace {
    /// Returns the position of an entry whose key starts at `key_at`, with its value after it.
    #[inline(always)]
    pub(crate) fn of(key_at: usize, entry: &EntryRef<'_>) -> EntryPlace
        requires { key_at + length entry.now.user_key.now + length entry.now.value.now < 2 ^ 64 }
        ensures { let value_at = key_at + length entry.now.user_key.now in
            result ≡ record {
              key_at = key_at;
              value_at = value_at;
              end = value_at + length entry.now.value.now;
              seqno = entry.now.seqno;
              value_type = entry.now.value_type;
            } }
    {
        let value_at = key_at + entry.user_key.len();
        EntryPlace {
            key_at,
            value_at,
            end: value_at + entry.value.len(),
            seqno: entry.seqno,
            value_type: entry.value_type,
        }
    }

    /// Borrows the entry from the bytes that contain it.
    #[inline(always)]
    pub(crate) fn entry<'a>(&self, bytes: &'a [u8]) -> EntryRef<'a>
        requires { spec.IsPlacedIn bytes.now self.now }
        ensures { spec.entry_of_ref result ≡ spec.entry_placed bytes.now self.now }
    {
        EntryRef {
            user_key: &bytes[self.key_at..self.value_at],
            seqno: self.seqno,
            value_type: self.value_type,
            value: &bytes[self.value_at..self.end],
        }
    }

    /// Borrows the entry, or returns `None` if the bytes are too short.
    #[inline]
    pub(crate) fn find<'a>(&self, bytes: &'a [u8]) -> Option<EntryRef<'a>>
        ensures { spec.option_map spec.entry_of_ref result ≡ spec.placed_in bytes.now self.now }
    {
        if self.value_at < self.key_at || self.end < self.value_at || bytes.len() < self.end {
            return None;
        }
        Some(self.entry(bytes))
    }

    /// Returns the entry; its key and value share the memory of the bytes.
    ///
    /// The bytes must contain it.
    ///
    /// # Errors
    ///
    /// Fails only with [`Error::OutOfMemory`].
    #[inline(always)]
    pub fn share<A: Allocator>(&self, bytes: &Slice<A>) -> Result<InternalValue<A>, Error>
        requires { spec.IsPlacedIn bytes.now self.now }
        ensures found { IfOk result (λ e. e ≡ spec.entry_placed bytes.now self.now) }
        ensures err { IfErr result (λ e. e ≡ spec.OutOfMemory) }
    {
        let key = bytes.slice(self.key_at, self.value_at)?;
        let value = bytes.slice(self.value_at, self.end)?;
        Ok(InternalValue::from_components(key, value, self.seqno, self.value_type))
    }
}
