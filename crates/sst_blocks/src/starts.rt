//! The offsets of a payload's entries or handles.
ghost use Rattle.std.specs.Prelude.{◌≡◌, ◌<◌, ◌^◌, Some, length, IfOk, IfErr};
ghost use Rattle.sst_blocks.specs.Words as spec;

use crate::Error;
use crate::number::u32_at;
use std::alloc::{AllocError, Allocator, Global};
use std::marker::Model;
use std::sync::ArcSlice;

/// Returns whether a payload has a count, then room for that many items of `least` bytes each.
#[inline]
#[tactic(auto, unfolding(crate::specs::Block::has_room_for))]
pub(crate) fn has_room_for(payload: &[u8], least: usize) -> bool
    requires { least < 2 ^ 31 }
    ensures { result ≡ spec.has_room_for least payload.now }
{
    if payload.len() < 4 {
        return false;
    }
    let count = u32_at(payload) as usize;
    least * count <= payload.len() - 4
}

/// The offsets of a payload's entries or handles, shared by all clones of a block.
///
/// In contracts it is the list of offsets.
#[derive(Drop)]
pub(crate) struct Starts<A: Allocator = Global> {
    places: ArcSlice<u32, A>,
}

impl<A: Allocator> Model for Starts<A> {
    ghost use Rattle.std.specs.Arc.{arc_slice_items};
    ghost use Rattle.std.specs.Prelude.{ℕ, List};

    ghost Value = { List ℕ };

    ghost view = { λ s. arc_slice_items s.places };
}

impl<A: Allocator> Clone for Starts<A> {
    ghost use Rattle.std.specs.Prelude.{◌≡◌};

    ghost is_clone = { λ s copy. copy ≡ s };

    fn clone(&self) -> Result<Starts<A>, AllocError> {
        Ok(Starts {
            places: self.places.clone()?,
        })
    }
}

impl<A: Allocator + Clone> Starts<A> {
    /// Takes the offsets without copying them.
    ///
    /// # Errors
    ///
    /// Fails only with [`Error::OutOfMemory`].
    pub(crate) fn new(places: Vec<u32, A>) -> Result<Starts<A>, Error>
        ensures ok { IfOk result (λ s. s ≡ places.items) }
        ensures err { IfErr result (λ e. e ≡ spec.OutOfMemory) }
    {
        Ok(Starts {
            places: ArcSlice::from_vec(places)?,
        })
    }
}

impl<A: Allocator> Starts<A> {
    /// Returns the number of offsets.
    #[inline(always)]
    pub(crate) fn len(&self) -> usize
        ensures { result ≡ length self.now }
    {
        self.places.as_slice().len()
    }

    /// Returns the offset of an entry or a handle.
    #[inline(always)]
    pub(crate) fn at(&self, index: usize) -> usize
        requires { index < length self.now }
        ensures found { spec.slice_get self.now index ≡ Some result }
        ensures short { result < 2 ^ 32 }
    {
        self.places.as_slice()[index] as usize
    }
}
