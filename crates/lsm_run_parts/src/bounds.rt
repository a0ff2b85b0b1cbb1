//! Bounds that own their keys.
ghost use Rattle.std.specs.Prelude.{◌≡◌, IfOk};
ghost use Rattle.lsm_run_parts.specs.Words as spec;

use sst_blocks::UserKey;
use std::alloc::{AllocError, Allocator};
use std::ops::Bound;

/// Borrows the key of a bound as bytes.
pub(crate) fn edge<A: Allocator>(bound: &Bound<UserKey<A>>) -> Bound<&[u8]>
    ensures { spec.key_bound result ≡ bound.now }
{
    match bound {
        Bound::Included(key) => Bound::Included(key.as_slice()),
        Bound::Excluded(key) => Bound::Excluded(key.as_slice()),
        Bound::Unbounded => Bound::Unbounded,
    }
}

/// Copies a bound, sharing its key's memory.
///
/// # Errors
///
/// [`AllocError`] if the key's reference count is full.
pub fn share<A: Allocator>(bound: &Bound<UserKey<A>>) -> Result<Bound<UserKey<A>>, AllocError>
    ensures { IfOk result (λ b. b ≡ bound.now) }
{
    match bound {
        Bound::Included(key) => Ok(Bound::Included(key.clone()?)),
        Bound::Excluded(key) => Ok(Bound::Excluded(key.clone()?)),
        Bound::Unbounded => Ok(Bound::Unbounded),
    }
}
