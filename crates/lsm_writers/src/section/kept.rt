//! Storage of handles until all of them are written.
ghost use Rattle.std.specs.Prelude.{◌≡◌, ◌↔◌, ◌++◌, ◌∷◌, [], true, false, length, unwrap_or, IsTrue};
ghost use Rattle.std.specs.Prelude.{IfOk, IfErr, OnOk, OnErr};
ghost use Rattle.lsm_writers.specs.Words as spec;

use crate::section::key_buffer::KeyBuffer;
use sst_blocks::{BlockHandle, Error, KeyedBlockHandle, SeqNo, Slice};
use std::alloc::{Allocator, Global};
use std::marker::Model;

/// A handle whose end key is a range of a shared buffer. Offsets start at the first key, so they
/// stay valid when the buffer moves.
#[derive(Clone, Copy)]
pub(crate) struct HandlePlace {
    start: usize,
    end: usize,
    seqno: SeqNo,
    block: BlockHandle,
}

/// The registered handles, in order. Their end keys share one buffer, so a handle needs no
/// allocation of its own. Contracts see the handles, and whether a call failed.
#[derive(Drop)]
pub(crate) struct KeptHandles<A: Allocator = Global> {
    // `None` before the first handle
    keys: Option<KeyBuffer<A>>,
    places: Vec<HandlePlace, A>,
    // set while a call runs, so it stays set after an error
    failed: bool,
}

impl<A: Allocator> Model for KeptHandles<A> {
    ghost use Rattle.std.specs.Prelude.{[], unwrap_or};
    ghost use Rattle.lsm_writers.specs.section.Kept.{AreAmong, Kept, handles_among};

    ghost Value = { Kept };

    ghost view = { λ h. record {
      handles = handles_among (unwrap_or h.keys []) h.places.items;
      failed = h.failed;
    } };

    ghost invariant = { λ h. AreAmong (unwrap_or h.keys []) h.places.items };
}

impl<A: Allocator> KeptHandles<A> {
    /// Creates a value without handles.
    pub(crate) fn new(alloc: A) -> KeptHandles<A>
        ensures handles { result.handles ≡ [] }
        ensures failed { result.failed ≡ false }
    {
        KeptHandles {
            keys: None,
            places: Vec::new(alloc),
            failed: false,
        }
    }

    /// Returns whether there are no handles.
    pub(crate) fn is_empty(&self) -> bool
        ensures { IsTrue result ↔ (self.now.handles ≡ []) }
    {
        self.places.is_empty()
    }

    /// Returns whether a call failed.
    pub(crate) fn has_failed(&self) -> bool
        ensures { result ≡ self.now.failed }
    {
        self.failed
    }
}

impl<A: Allocator + Clone> KeptHandles<A> {
    /// Appends a handle of these parts. Fails with [`Error::WriterFailed`] if an earlier call
    /// failed, or with [`Error::OutOfMemory`].
    pub(crate) fn register(
        &mut self,
        end_key: &[u8],
        seqno: SeqNo,
        block: BlockHandle,
    ) -> Result<(), Error>
        ensures ok { OnOk result (
            self.new.handles ≡ self.old.handles ++ spec.handle_with end_key.now seqno block ∷ []) }
        ensures works { OnOk result (self.new.failed ≡ false) }
        ensures unchanged { OnErr result (self.new.handles ≡ self.old.handles) }
        ensures failed { OnErr result (self.new.failed ≡ true) }
        ensures refused { spec.Faults result (spec.failed_fault self.old.failed) }
        ensures first { spec.FaultsFirst result (spec.failed_fault self.old.failed) }
    {
        if self.failed {
            return Err(Error::WriterFailed); // nothing is registered
        }
        self.failed = true;
        let (start, end) = put_key(&mut self.keys, self.places.allocator(), end_key)?;
        self.places.push(HandlePlace {
            start,
            end,
            seqno,
            block,
        })?;
        self.failed = false;
        Ok(())
    }

    /// Returns the handles; their end keys share the buffer. Fails only with
    /// [`Error::OutOfMemory`].
    pub(crate) fn into_handles(self) -> Result<Vec<KeyedBlockHandle<A>, A>, Error>
        ensures ok { IfOk result (λ hs. hs.items ≡ self.handles) }
        ensures err { IfErr result (λ e. e ≡ spec.OutOfMemory) }
    {
        let KeptHandles { keys, places, .. } = self;
        let alloc = places.allocator().clone()?;
        let shared = match keys {
            Some(keys) => keys.into_key()?,
            None => Slice::empty(),
        };
        shared_handles(alloc, &shared, &places)
    }
}

/// Appends an end key to the buffer, and returns its start and end offset. Fails only with
/// [`Error::OutOfMemory`]; nothing changes then.
fn put_key<A: Allocator + Clone>(
    keys: &mut Option<KeyBuffer<A>>,
    alloc: &A,
    key: &[u8],
) -> Result<(usize, usize), Error>
    ensures ok { OnOk result (unwrap_or keys.new [] ≡ unwrap_or keys.old [] ++ key.now) }
    ensures start { IfOk result (λ place. place.0 ≡ length (unwrap_or keys.old [])) }
    ensures end { IfOk result (λ place. place.1 ≡ length (unwrap_or keys.new [])) }
    ensures left { OnErr result (keys.new ≡ keys.old) }
    ensures err { IfErr result (λ e. e ≡ spec.OutOfMemory) }
{
    if let Some(keys) = keys {
        let start = keys.len();
        keys.append(key)?;
        return Ok((start, keys.len()));
    }
    let first = KeyBuffer::from(alloc.clone()?, key)?;
    let end = first.len();
    drop(keys.replace(first));
    Ok((0, end))
}

/// Returns the handles of these ranges; their end keys are slices of `keys`. Fails only with
/// [`Error::OutOfMemory`].
fn shared_handles<A: Allocator>(
    alloc: A,
    keys: &Slice<A>,
    places: &[HandlePlace],
) -> Result<Vec<KeyedBlockHandle<A>, A>, Error>
    requires { spec.AreAmong keys.now places.now }
    ensures ok { IfOk result (λ hs. hs.items ≡ spec.handles_among keys.now places.now) }
    ensures err { IfErr result (λ e. e ≡ spec.OutOfMemory) }
{
    let mut handles = Vec::with_capacity(alloc, places.len())?;
    for place in places {
        let end_key = keys.slice(place.start, place.end)?;
        handles.push(KeyedBlockHandle::new(end_key, place.seqno, place.block))?;
    }
    Ok(handles)
}
