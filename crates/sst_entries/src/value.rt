//! Entries: a key with its sequence number and kind, and a value.
ghost use Rattle.std.specs.Prelude.{◌≡◌};
ghost use Rattle.sst_entries.specs.Words as spec;

use crate::{InternalKey, SeqNo, UserKey, UserValue, ValueType, compare_versions};
use std::alloc::{AllocError, Allocator, Global};
use std::marker::Model;

/// An entry of a table.
///
/// Entries are ordered by key, as [`InternalKey`] says, then by value. In contracts an entry is a
/// plain record, `Entry`.
#[derive(Drop)]
#[derive_where(Debug, PartialEq, Eq, PartialOrd, Ord)]
pub struct InternalValue<A: Allocator = Global> {
    /// The key, with its sequence number and kind.
    pub key: InternalKey<A>,
    /// The value.
    ///
    /// A tombstone's value is empty by convention; no call requires this.
    pub value: UserValue<A>,
}

impl<A: Allocator> Model for InternalValue<A> {
    ghost use Rattle.sst_entries.specs.Entry.{Entry};

    ghost Value = { Entry };

    ghost view = { λ v. record {
      user_key = v.key.user_key;
      seqno = v.key.seqno;
      kind = v.key.value_type;
      value = v.value;
    } };

    ghost inverse = { λ e. record {
      key = record { user_key = e.user_key; seqno = e.seqno; value_type = e.kind };
      value = e.value;
    } };
}

impl<A: Allocator> Clone for InternalValue<A> {
    ghost use Rattle.std.specs.Prelude.{◌≡◌};

    ghost is_clone = { λ value copy. copy ≡ value };

    /// Returns an entry that shares the same bytes.
    ///
    /// # Errors
    ///
    /// Fails with `AllocError` if a reference count cannot be raised.
    fn clone(&self) -> Result<InternalValue<A>, AllocError> {
        Ok(InternalValue {
            key: self.key.clone()?,
            value: self.value.clone()?,
        })
    }
}

impl<A: Allocator> InternalValue<A> {
    /// Creates an entry from its parts.
    pub fn from_components(
        user_key: UserKey<A>,
        value: UserValue<A>,
        seqno: SeqNo,
        value_type: ValueType,
    ) -> InternalValue<A>
        ensures { result ≡ spec.entry user_key value seqno value_type }
    {
        InternalValue {
            key: InternalKey {
                user_key,
                seqno,
                value_type,
            },
            value,
        }
    }

    /// Returns whether the entry is a tombstone, weak or not.
    pub fn is_tombstone(&self) -> bool
        ensures { result ≡ spec.is_tombstone_kind self.now.kind }
    {
        self.key.value_type.is_tombstone()
    }

    /// Returns whether the entry comes strictly after `last`, by key and sequence number.
    ///
    /// With `None` it returns `true`.
    pub fn may_follow(&self, last: Option<&InternalValue<A>>) -> bool
        ensures { result ≡ spec.may_follow (spec.option_map (λ e. e.now) last.entry) self.now }
    {
        match last {
            None => true,
            Some(last) => compare_versions(
                last.key.user_key.as_slice(),
                last.key.seqno,
                self.key.user_key.as_slice(),
                self.key.seqno,
            )
            .is_lt(),
        }
    }
}
