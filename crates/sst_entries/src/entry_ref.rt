//! Borrowed entries.
ghost use Rattle.std.specs.Prelude.{◌≡◌};
ghost use Rattle.sst_entries.specs.Words as spec;

use crate::{InternalValue, SeqNo, ValueType, compare_versions};
use std::alloc::Allocator;
use std::cmp::Ordering;

/// An entry whose key and value are borrowed bytes.
#[derive(Clone, Copy, Debug, PartialEq, Eq)]
pub struct EntryRef<'a> {
    /// The user key.
    pub user_key: &'a [u8],
    /// The sequence number of this version.
    pub seqno: SeqNo,
    /// The kind of the entry.
    pub value_type: ValueType,
    /// The value.
    pub value: &'a [u8],
}

impl<'a> EntryRef<'a> {
    /// Returns whether the entry is a tombstone, weak or not.
    #[inline]
    pub fn is_tombstone(&self) -> bool
        ensures { result ≡ spec.is_tombstone_kind (spec.entry_of_ref self.now).kind }
    {
        self.value_type.is_tombstone()
    }

    /// Compares by key ascending, then by sequence number descending.
    ///
    /// Kind and value are ignored.
    #[inline]
    pub fn compare_version(&self, other: &EntryRef<'_>) -> Ordering
        ensures { result ≡ spec.version_cmp (spec.entry_of_ref self.now)
            (spec.entry_of_ref other.now) }
    {
        compare_versions(self.user_key, self.seqno, other.user_key, other.seqno)
    }

    /// Compares in the order of [`crate::InternalKey`]: key ascending, sequence number descending,
    /// then tag ascending.
    #[inline]
    pub fn compare_key(&self, other: &EntryRef<'_>) -> Ordering
        ensures { result ≡ spec.entry_cmp (spec.entry_of_ref self.now)
            (spec.entry_of_ref other.now) }
    {
        self.compare_version(other)
            .then(self.value_type.cmp(&other.value_type))
    }
}

impl<A: Allocator> InternalValue<A> {
    /// Borrows the entry.
    #[inline]
    pub fn as_entry_ref(&self) -> EntryRef<'_>
        ensures { spec.entry_of_ref result ≡ self.now }
    {
        EntryRef {
            user_key: self.key.user_key.as_slice(),
            seqno: self.key.seqno,
            value_type: self.key.value_type,
            value: self.value.as_slice(),
        }
    }
}
