//! User keys with a sequence number and a kind.
ghost use Rattle.sst_entries.specs.Words as spec;
ghost use Rattle.std.proofs.Common.{rules};

use crate::{SeqNo, UserKey, ValueType};
use std::alloc::{AllocError, Allocator, Global};
use std::cmp::Ordering;

/// A user key with the sequence number and the kind of one of its versions.
///
/// Keys are ordered bytewise ascending, then by sequence number descending, then by tag ascending.
/// This order agrees with equality.
#[derive(Drop)]
#[derive_where(Debug, PartialEq, Eq, Hash)]
pub struct InternalKey<A: Allocator = Global> {
    /// The user key.
    pub user_key: UserKey<A>,
    /// The sequence number of the version.
    pub seqno: SeqNo,
    /// The kind of the version.
    pub value_type: ValueType,
}

impl<A: Allocator> Clone for InternalKey<A> {
    ghost use Rattle.std.specs.Prelude.{◌≡◌};

    ghost is_clone = { λ key copy. copy ≡ key };

    /// Returns a key that shares the same bytes.
    ///
    /// # Errors
    ///
    /// Fails with `AllocError` if the reference count of the bytes cannot be raised.
    fn clone(&self) -> Result<InternalKey<A>, AllocError> {
        Ok(InternalKey {
            user_key: self.user_key.clone()?,
            seqno: self.seqno,
            value_type: self.value_type,
        })
    }
}

impl<A: Allocator> Ord for InternalKey<A> {
    ghost cmp = { spec.key_cmp };

    ghost total = { Prim.search (spec.comparing, rules) };

    ghost matches_partial_cmp = { Prim.search (spec.comparing, rules) };

    ghost matches_eq = { Prim.search (spec.comparing, rules) };

    fn cmp(&self, other: &InternalKey<A>) -> Ordering {
        self.user_key
            .cmp(&other.user_key)
            .then(other.seqno.cmp(&self.seqno))
            .then(self.value_type.cmp(&other.value_type))
    }
}

impl<A: Allocator> PartialOrd for InternalKey<A> {
    ghost partial_cmp = { spec.as_partial_cmp spec.key_cmp };

    ghost laws = { spec.partial_order_from_own_ties (Prim.search (spec.comparing, rules) depth 9)
        (Prim.search (spec.comparing, rules) depth 9) };

    fn partial_cmp(&self, other: &InternalKey<A>) -> Option<Ordering> {
        Some(self.cmp(other))
    }
}
