//! Block handles: the position and size of a block.
ghost use Rattle.std.specs.Prelude.{◌≡◌, ◌+◌, ◌<◌, ◌^◌, ◌↔◌, IsTrue, None, map};
ghost use Rattle.sst_blocks.specs.Words as spec;

use crate::{SeqNo, UserKey, compare_versions};
use std::alloc::{AllocError, Allocator, Global};
use std::marker::Model;

/// A position in a table's bytes.
#[derive(Clone, Copy, Debug, Default, PartialEq, Eq, PartialOrd, Ord)]
pub struct BlockOffset(pub u64);

/// The position and size of a block, both in bytes.
///
/// The size includes the header.
#[derive(Clone, Copy, Debug, Default, PartialEq, Eq)]
pub struct BlockHandle {
    offset: BlockOffset,
    size: u32,
}

impl Model for BlockHandle {
    ghost use Rattle.sst_blocks.specs.Place.{Place};

    ghost Value = { Place };

    ghost view = { λ h. record { offset = h.offset.0; size = h.size } };

    ghost inverse = { λ p. record { offset = record { 0 = p.offset }; size = p.size } };
}

impl BlockHandle {
    /// Creates the handle of a block at `offset` with `size` bytes, header included.
    pub fn new(offset: BlockOffset, size: u32) -> BlockHandle
        ensures offset { result.offset ≡ offset.0 }
        ensures size { result.size ≡ size }
    {
        BlockHandle { offset, size }
    }

    /// Returns the block's position.
    pub fn offset(&self) -> BlockOffset
        ensures { result.0 ≡ self.now.offset }
    {
        self.offset
    }

    /// Returns the block's size in bytes, header included.
    pub fn size(&self) -> u32
        ensures { result ≡ self.now.size }
    {
        self.size
    }
}

/// A block handle with the key and the sequence number of the block's last entry.
#[derive(Drop)]
#[derive_where(Debug, PartialEq, Eq)]
pub struct KeyedBlockHandle<A: Allocator = Global> {
    end_key: UserKey<A>,
    seqno: SeqNo,
    inner: BlockHandle,
}

impl<A: Allocator> Model for KeyedBlockHandle<A> {
    ghost use Rattle.sst_blocks.specs.Handle.{Handle};

    ghost Value = { Handle };

    ghost view = { λ h. record {
      end_key = h.end_key;
      seqno = h.seqno;
      offset = h.inner.offset;
      size = h.inner.size;
    } };

    ghost inverse = { λ h. record {
      end_key = h.end_key;
      seqno = h.seqno;
      inner = record { offset = h.offset; size = h.size };
    } };
}

impl<A: Allocator> Clone for KeyedBlockHandle<A> {
    ghost use Rattle.std.specs.Prelude.{◌≡◌};

    ghost is_clone = { λ h copy. copy ≡ h };

    fn clone(&self) -> Result<KeyedBlockHandle<A>, AllocError> {
        Ok(KeyedBlockHandle {
            end_key: self.end_key.clone()?,
            seqno: self.seqno,
            inner: self.inner,
        })
    }
}

impl<A: Allocator> KeyedBlockHandle<A> {
    /// Creates a handle from its parts.
    pub fn new(end_key: UserKey<A>, seqno: SeqNo, handle: BlockHandle) -> KeyedBlockHandle<A>
        ensures { result ≡ record {
          end_key = end_key;
          seqno = seqno;
          offset = handle.offset;
          size = handle.size;
        } }
    {
        KeyedBlockHandle {
            end_key,
            seqno,
            inner: handle,
        }
    }

    /// Returns the key of the block's last entry.
    pub fn end_key(&self) -> &UserKey<A>
        ensures { result.now ≡ self.now.end_key }
    {
        &self.end_key
    }

    /// Returns the sequence number of the block's last entry.
    pub fn seqno(&self) -> SeqNo
        ensures { result ≡ self.now.seqno }
    {
        self.seqno
    }

    /// Returns the block's position.
    pub fn offset(&self) -> BlockOffset
        ensures { result.0 ≡ self.now.offset }
    {
        self.inner.offset()
    }

    /// Returns the block's size in bytes, header included.
    pub fn size(&self) -> u32
        ensures { result ≡ self.now.size }
    {
        self.inner.size()
    }

    /// Returns whether the handle may come after `last` in an index block.
    ///
    /// Handles are ordered by end key ascending, then by sequence number descending. With `None` it
    /// returns `true`.
    pub fn may_follow(&self, last: Option<&KeyedBlockHandle<A>>) -> bool
        ensures { let before = spec.option_map (λ h. spec.end_of h.now) last.entry in
            result ≡ spec.may_follow before (spec.end_of self.now) }
    {
        match last {
            None => true,
            Some(last) => compare_versions(
                last.end_key.as_slice(),
                last.seqno,
                self.end_key.as_slice(),
                self.seqno,
            )
            .is_lt(),
        }
    }

    /// Moves the handle by `delta` bytes towards the end.
    ///
    /// The new position must be below 2^64.
    pub fn shift(&mut self, delta: BlockOffset)
        requires { self.old.offset + delta.0 < 2 ^ 64 }
        ensures { self.new ≡ record self.old { offset = self.old.offset + delta.0 } }
    {
        let offset = BlockOffset(self.offset().0 + delta.0);
        self.inner = BlockHandle::new(offset, self.size());
    }

    /// Drops the key and the sequence number.
    pub fn into_inner(self) -> BlockHandle
        ensures offset { result.offset ≡ self.offset }
        ensures size { result.size ≡ self.size }
    {
        self.inner
    }
}

/// Returns whether the handles are in strict order, as an index block requires.
///
/// The call is linear in the number of handles.
pub fn are_strict_handles<A: Allocator>(handles: &[KeyedBlockHandle<A>]) -> bool
    ensures test { result ≡ spec.is_strict_after None (map spec.end_of handles.now) }
    ensures means { IsTrue result ↔ spec.AreStrictHandles handles.now }
{
    let mut last: Option<&KeyedBlockHandle<A>> = None;
    for handle in handles {
        if !handle.may_follow(last) {
            return false;
        }
        last = Some(handle);
    }
    true
}
