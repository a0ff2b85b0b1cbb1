//! The buffer of the block that is being filled.
ghost use Rattle.std.specs.Prelude.{◌≡◌, ◌↔◌, ◌+◌, ◌++◌, ◌<◌, ◌≤◌, [], ◌∷◌, None, drop, length};
ghost use Rattle.std.specs.Prelude.{take, vec_len};
ghost use Rattle.std.specs.Prelude.{IfErr, IfOk, IsTrue, OnErr, OnOk};
ghost use Rattle.lsm_writers.specs.Words as spec;

use sst_blocks::number::put_u32;
use sst_blocks::{
    Block, BlockHandle, BlockType, CompressionType, ENTRY_HEAD_LEN, Error, SectionWriter, SeqNo,
    ValueType, put_entry,
};
use sst_entries::EntryRef;
use std::alloc::{Allocator, Global};
use std::marker::Model;

/// The length of the count before the entries.
const COUNT_LEN: usize = 4;

/// The offsets of the last entry, whose value runs to the end of the bytes. Offsets start after the
/// count, so they stay valid when the bytes move.
#[derive(Clone, Copy)]
pub(crate) struct Place {
    key: usize,
    value: usize,
    seqno: SeqNo,
    value_type: ValueType,
}

/// A checkpoint of a buffer, from which later entries can be dropped.
#[derive(Clone, Copy)]
pub(crate) struct Mark {
    len: usize,
    end: usize,
    last: Option<Place>,
}

/// The entries of the current block, encoded as in the block, after four bytes for their count. The
/// memory is reused from block to block. Contracts see the entries.
#[derive(Drop)]
pub(crate) struct BlockBuffer<A: Allocator = Global> {
    payload: Vec<u8, A>,
    filled: Mark,
}

impl<A: Allocator> Model for BlockBuffer<A> {
    ghost use Rattle.std.specs.Prelude.{List};
    ghost use Rattle.sst_entries.specs.Entry.{Entry};
    ghost use Rattle.lsm_writers.specs.Buffered.{AreBuffered, entries_behind};

    ghost Value = { List Entry };

    ghost view = { λ b. entries_behind b.filled.len b.payload.items };

    ghost invariant = { λ b.
        AreBuffered b.payload.items b.filled (entries_behind b.filled.len b.payload.items) };
}

impl<A: Allocator> BlockBuffer<A> {
    /// Creates an empty buffer. Fails only with [`Error::OutOfMemory`].
    pub(crate) fn new(alloc: A) -> Result<BlockBuffer<A>, Error>
        ensures ok { IfOk result (λ b. b ≡ []) }
        ensures err { IfErr result (λ e. e ≡ spec.OutOfMemory) }
    {
        let mut payload = Vec::new(alloc);
        put_u32(&mut payload, 0)?;
        Ok(BlockBuffer {
            payload,
            filled: Mark {
                len: 0,
                end: COUNT_LEN,
                last: None,
            },
        })
    }

    pub(crate) fn allocator(&self) -> &A {
        self.payload.allocator()
    }

    /// Returns the number of entries.
    #[inline]
    pub(crate) fn len(&self) -> usize
        ensures { result ≡ length self.now }
    {
        self.filled.len
    }

    /// Returns whether there are no entries.
    #[inline]
    pub(crate) fn is_empty(&self) -> bool
        ensures { IsTrue result ↔ (self.now ≡ []) }
    {
        self.len() == 0
    }

    /// Returns the payload length, in bytes, of a block of these entries.
    pub(crate) fn payload_len(&self) -> usize
        ensures { result ≡ length (spec.payload spec.V4 self.now) }
    {
        self.payload.len()
    }

    /// Returns the last entry.
    #[inline]
    pub(crate) fn last(&self) -> Option<EntryRef<'_>>
        ensures { spec.option_map spec.entry_of_ref result ≡ spec.last_of None self.now }
    {
        let place = self.filled.last?;
        let entries = &self.payload[COUNT_LEN..];
        Some(EntryRef {
            user_key: &entries[place.key..place.value],
            seqno: place.seqno,
            value_type: place.value_type,
            value: &entries[place.value..],
        })
    }

    /// Appends an entry. Fails only with [`Error::OutOfMemory`]; nothing changes then.
    pub(crate) fn push(&mut self, entry: &EntryRef<'_>) -> Result<(), Error>
        requires { spec.IsShortEntry (spec.entry_of_ref entry.now) }
        ensures pushed { OnOk result (self.new ≡ self.old ++ spec.entry_of_ref entry.now ∷ []) }
        ensures left { OnErr result (self.new ≡ self.old) }
        ensures err { IfErr result (λ e. e ≡ spec.OutOfMemory) }
    {
        let end = self.filled.end;
        if let Err(error) = put_entry(&mut self.payload, entry) {
            self.payload.truncate(end);
            return Err(error);
        }
        let key = end - COUNT_LEN + ENTRY_HEAD_LEN as usize;
        self.filled = Mark {
            len: self.filled.len + 1,
            end: self.payload.len(),
            last: Some(Place {
                key,
                value: key + entry.user_key.len(),
                seqno: entry.seqno,
                value_type: entry.value_type,
            }),
        };
        Ok(())
    }

    /// Returns a checkpoint for [`BlockBuffer::rewind`].
    #[inline]
    pub(crate) fn mark(&self) -> Mark
        ensures { spec.IsMark result self.now }
    {
        self.filled
    }

    /// Drops the entries after a checkpoint.
    pub(crate) fn rewind(&mut self, mark: Mark)
        requires { spec.MarksFront mark self.old }
        ensures { self.new ≡ take mark.len self.old }
    {
        self.payload.truncate(mark.end);
        self.filled = mark;
    }

    /// Drops all entries.
    pub(crate) fn clear(&mut self)
        ensures { self.new ≡ [] }
    {
        self.payload.truncate(COUNT_LEN);
        self.filled = Mark {
            len: 0,
            end: COUNT_LEN,
            last: None,
        };
    }

    /// Returns the memory, so that it can be reused for other encodings.
    pub(crate) fn into_memory(self) -> Vec<u8, A> {
        self.payload
    }
}

impl<A: Allocator + Clone> BlockBuffer<A> {
    /// Appends the block of the entries to `file_writer`, and returns its handle. The entries stay.
    /// Fails only with [`Error::OutOfMemory`]; nothing is written then.
    pub(crate) fn write_into(
        &mut self,
        file_writer: &mut SectionWriter<A>,
    ) -> Result<BlockHandle, Error>
        requires strict { spec.IsStrict self.old }
        requires some { 0 < length self.old }
        requires fit { spec.entries_fault self.old ≡ None }
        ensures ok { OnOk result (file_writer.new ≡ record file_writer.old {
          bytes = file_writer.old.bytes ++ spec.data_block spec.V4 self.old;
        }) }
        ensures handle { let at = length file_writer.old.bytes in
            IfOk result (λ h. h ≡ record { offset = at; size = spec.block_size spec.V4 self.old }) }
        ensures readable { spec.IsReadable spec.V4 self.old }
        ensures same { self.new ≡ self.old }
        ensures unchanged { OnErr result (file_writer.new ≡ file_writer.old) }
        ensures err { IfErr result (λ e. e ≡ spec.OutOfMemory) }
    {
        let count = self.filled.len as u32;
        put_count(&mut self.payload, count);
        Block::write_into(
            file_writer,
            &self.payload,
            BlockType::Data,
            CompressionType::None,
        )
    }
}

/// Writes a count into the room before the entries.
fn put_count<A: Allocator>(payload: &mut Vec<u8, A>, count: u32)
    requires { 4 ≤ length payload.old.items }
    ensures { payload.new.items ≡ spec.le4 count ++ drop 4 payload.old.items }
{
    let [first, second, third, fourth] = count.to_le_bytes();
    payload[0] = first;
    payload[1] = second;
    payload[2] = third;
    payload[3] = fourth;
}
