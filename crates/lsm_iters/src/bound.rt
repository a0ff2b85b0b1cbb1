//! A bound of a range.
ghost use Rattle.std.specs.Prelude.{◌≡◌};
ghost use Rattle.lsm_iters.specs.Words as spec;

use sst_blocks::UserKey;
use std::alloc::{Allocator, Global};

/// A key at which a range begins or ends.
///
/// Unlike `std::ops::Bound` it has no unbounded form: a missing bound is `None`.
#[derive(Drop)]
pub enum Bound<A: Allocator = Global> {
    /// The range includes the key's entries.
    Included(UserKey<A>),
    /// The range excludes the key's entries.
    Excluded(UserKey<A>),
}

impl<A: Allocator> Bound<A> {
    /// Returns the key, for a seek in the index.
    pub(crate) fn key(&self) -> &UserKey<A>
        ensures { result.now ≡ spec.key_of self.now }
    {
        match self {
            Bound::Included(key) => key,
            Bound::Excluded(key) => key,
        }
    }
}
