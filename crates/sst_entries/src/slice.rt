//! Immutable byte slices with shared memory.
ghost use Rattle.std.specs.Prelude.{◌≡◌, ◌<◌, ◌≤◌, ◌^◌, ◌↔◌, [], length, slice_range, IsTrue, IfOk};
ghost use Rattle.std.specs.Prelude.{IfErr};
ghost use Rattle.std.specs.Prelude.{nat_eq, refl, Some};
ghost use Rattle.sst_entries.specs.Words as spec;
ghost use Rattle.std.specs.Hash as fed;
ghost use Rattle.std.proofs.Common.{rules};

use crate::Error;
use bytes::Bytes;
use std::alloc::{AllocError, Allocator, Global};
use std::cmp::Ordering;
use std::hash::{Hash, Hasher};
use std::marker::Model;

/// The bytes of a user key.
pub type UserKey<A = Global> = Slice<A>;

/// The bytes of a value.
pub type UserValue<A = Global> = Slice<A>;

/// An immutable run of bytes whose clones and subslices share its memory.
///
/// Equality, order and hash are those of the bytes. In contracts a slice is the list of its bytes.
#[derive(Drop)]
#[derive_where(Debug)]
pub struct Slice<A: Allocator = Global> {
    bytes: Bytes<A>,
}

impl<A: Allocator> Model for Slice<A> {
    ghost use Rattle.std.specs.Prelude.{ℕ, List};

    ghost Value = { List ℕ };

    ghost view = { λ s. s.bytes };

    ghost inverse = { λ b. record { bytes = b } };
}

impl<A: Allocator> Clone for Slice<A> {
    ghost use Rattle.std.specs.Prelude.{◌≡◌};

    ghost is_clone = { λ s copy. copy ≡ s };

    fn clone(&self) -> Result<Slice<A>, AllocError> {
        Ok(Slice {
            bytes: self.bytes.clone()?,
        })
    }
}

impl<A: Allocator> Slice<A> {
    /// Returns a slice without bytes. It does not allocate.
    pub fn empty() -> Slice<A>
        ensures { result ≡ [] }
    {
        Slice {
            bytes: Bytes::new(),
        }
    }

    /// Returns a slice of static bytes. It neither copies nor allocates.
    pub fn from_static(bytes: &'static [u8]) -> Slice<A>
        ensures { result ≡ bytes.now }
    {
        Slice {
            bytes: Bytes::from_static(bytes),
        }
    }

    /// Returns the bytes.
    #[inline]
    pub fn as_slice(&self) -> &[u8]
        ensures { result.now ≡ self.now }
    {
        self.bytes.as_slice()
    }

    /// Returns whether the slice equals some bytes.
    #[inline]
    pub fn equals(&self, bytes: &[u8]) -> bool
        ensures { IsTrue result ↔ (self.now ≡ bytes.now) }
    {
        self.as_slice() == bytes
    }

    /// Returns the number of bytes.
    #[inline]
    pub fn len(&self) -> usize
        ensures value { result ≡ length self.now }
        ensures bound { result < 2 ^ 63 }
    {
        self.bytes.len()
    }

    /// Returns whether there are no bytes.
    pub fn is_empty(&self) -> bool
        ensures { IsTrue result ↔ (self.now ≡ []) }
    {
        self.as_slice().is_empty()
    }

    /// Returns the bytes from `start` up to `end`, sharing memory.
    ///
    /// The caller ensures `start <= end` and `end <= len`.
    ///
    /// # Errors
    ///
    /// Fails with [`Error::OutOfMemory`] if the reference count cannot be raised; nothing changes
    /// then.
    pub fn slice(&self, start: usize, end: usize) -> Result<Slice<A>, Error>
        requires ordered { start ≤ end }
        requires within { end ≤ length self.now }
        ensures ok { IfOk result (λ s. s ≡ slice_range self.now start end) }
        ensures err { IfErr result (λ e. e ≡ spec.OutOfMemory) }
    {
        Ok(Slice {
            bytes: self.bytes.slice(start..end)?,
        })
    }
}

impl<A: Allocator + Clone> Slice<A> {
    /// Copies some bytes into a new slice.
    ///
    /// # Errors
    ///
    /// Fails only with [`Error::OutOfMemory`].
    pub fn from(alloc: A, bytes: &[u8]) -> Result<Slice<A>, Error>
        ensures ok { IfOk result (λ s. s ≡ bytes.now) }
        ensures err { IfErr result (λ e. e ≡ spec.OutOfMemory) }
    {
        Ok(Slice {
            bytes: Bytes::copy_from_slice(alloc, bytes)?,
        })
    }

    /// Takes the bytes of a vector without copying them.
    ///
    /// # Errors
    ///
    /// Fails only with [`Error::OutOfMemory`].
    pub fn from_vec(vec: Vec<u8, A>) -> Result<Slice<A>, Error>
        ensures ok { IfOk result (λ s. s ≡ vec.items) }
        ensures err { IfErr result (λ e. e ≡ spec.OutOfMemory) }
    {
        Ok(Slice {
            bytes: Bytes::from_vec(vec)?,
        })
    }
}

impl<A: Allocator> PartialEq for Slice<A> {
    ghost eq = { spec.pointwise nat_eq };

    ghost laws = { spec.partial_equiv_from_equiv spec.nat_list_eq_equiv };

    fn eq(&self, other: &Self) -> bool {
        self.as_slice() == other.as_slice()
    }
}

impl<A: Allocator> Eq for Slice<A> {
    ghost laws = { spec.nat_list_eq_equiv };
}

impl<A: Allocator> PartialOrd for Slice<A> {
    ghost partial_cmp = { λ x y. Some (spec.slice_cmp spec.nat_cmp x y) };

    ghost laws = { spec.texts_po };

    fn partial_cmp(&self, other: &Self) -> Option<Ordering> {
        Some(self.cmp(other))
    }
}

impl<A: Allocator> Ord for Slice<A> {
    ghost cmp = { spec.slice_cmp spec.nat_cmp };

    ghost total = { spec.nat_list_cmp_total };

    ghost matches_partial_cmp = { λ x y. refl };

    ghost matches_eq = { spec.texts_ties };

    fn cmp(&self, other: &Self) -> Ordering {
        self.as_slice().cmp(other.as_slice())
    }
}

impl<A: Allocator> Hash for Slice<A> {
    ghost hash_input = { fed.slice fed.u8 };

    ghost respects_eq = { Prim.search (spec.hashing, rules) };

    fn hash<H: Hasher>(&self, state: &mut H) {
        self.as_slice().hash(state);
    }
}
