//! Counts of the entries and blocks that a writer has written.
ghost use Rattle.std.specs.Prelude.{◌≡◌, ◌+◌, ◌<◌, ◌^◌, Some, IfErr};
ghost use Rattle.lsm_writers.specs.Words as spec;

use crate::KeyBuffer;
use sst_blocks::{BlockOffset, Error, SeqNo, UserKey, ValueType};
use sst_entries::EntryRef;
use std::alloc::{Allocator, Global};
use std::mem;

/// Counts of the entries and blocks written so far.
///
/// A cut block changes the counts and sizes of blocks, `item_count` and `last_key`. Each entry
/// changes the other fields.
#[derive(Drop)]
#[derive_where(Debug)]
pub struct Metadata<A: Allocator = Global> {
    /// Number of data blocks cut so far.
    pub data_block_count: usize,
    /// Number of entries in the blocks cut so far.
    pub item_count: usize,
    /// Number of tombstones of either kind.
    pub tombstone_count: usize,
    /// Number of weak tombstones.
    pub weak_tombstone_count: usize,
    /// Number of values directly after a weak tombstone of their key. Both can be dropped once no
    /// reader needs them.
    pub weak_tombstone_reclaimable_count: usize,
    /// Number of distinct keys.
    pub key_count: usize,
    /// Offset of the next data block, in bytes.
    pub file_pos: BlockOffset,
    /// Total length of the payloads of the blocks cut so far, in bytes.
    pub uncompressed_size: u64,
    /// The first key.
    pub first_key: Option<UserKey<A>>,
    /// The last key of the blocks cut so far. Cuts reuse its memory.
    pub last_key: Option<KeyBuffer<A>>,
    /// The lowest sequence number, `u64::MAX` without entries.
    pub lowest_seqno: SeqNo,
    /// The highest sequence number, 0 without entries.
    pub highest_seqno: SeqNo,
}

impl<A: Allocator> Default for Metadata<A> {
    ghost use Rattle.std.specs.Prelude.{◌≡◌};
    ghost use Rattle.lsm_writers.specs.Counts.{no_counts};

    fn default() -> Metadata<A>
        ensures { result ≡ no_counts }
    {
        Metadata {
            data_block_count: 0,
            item_count: 0,
            tombstone_count: 0,
            weak_tombstone_count: 0,
            weak_tombstone_reclaimable_count: 0,
            key_count: 0,
            file_pos: BlockOffset(0),
            uncompressed_size: 0,
            first_key: None,
            last_key: None,
            lowest_seqno: SeqNo::MAX,
            highest_seqno: 0,
        }
    }
}

/// Returns whether an entry is the first of its key, if `before` is the entry directly before it.
pub(crate) fn starts_key(before: Option<EntryRef<'_>>, entry: &EntryRef<'_>) -> bool
    ensures { result ≡ spec.starts_key (spec.option_map spec.entry_of_ref before.entry)
        (spec.entry_of_ref entry.now) }
{
    match before {
        None => true,
        Some(before) => !is_same_key(before.user_key, entry.user_key),
    }
}

/// Returns whether two keys are the same. It compares the last bytes first, because adjacent keys
/// mostly differ there.
#[inline]
fn is_same_key(key: &[u8], other: &[u8]) -> bool
    ensures { result ≡ spec.same_key key.now other.now }
{
    key.last() == other.last() && key == other
}

/// Returns whether an entry is a value directly after a weak tombstone of its key.
fn is_reclaimable(before: Option<EntryRef<'_>>, entry: &EntryRef<'_>) -> bool
    ensures { let e = spec.entry_of_ref entry.now in
        result ≡ spec.is_reclaimable (spec.option_map spec.entry_of_ref before.entry) e }
{
    match before {
        None => false,
        Some(before) => {
            is_value(entry.value_type)
                && is_weak(before.value_type)
                && is_same_key(before.user_key, entry.user_key)
        }
    }
}

fn is_weak(kind: ValueType) -> bool
    ensures { result ≡ spec.is_weak_kind kind }
{
    matches!(kind, ValueType::WeakTombstone)
}

fn is_value(kind: ValueType) -> bool
    ensures { result ≡ spec.is_value_kind kind }
{
    matches!(kind, ValueType::Value)
}

/// The changes that an entry makes to the counts.
#[derive(Drop)]
pub(crate) struct Tally<A: Allocator = Global> {
    /// Whether the entry is the first of its key.
    pub(crate) starts_key: bool,
    is_tombstone: bool,
    is_weak: bool,
    is_reclaimable: bool,
    seqno: SeqNo,
    // the key, if the entry is the first of the table
    first_key: Option<UserKey<A>>,
}

impl<A: Allocator + Clone> Metadata<A> {
    ghost use Rattle.std.specs.Prelude.{◌≡◌, IfOk, IfErr};
    ghost use Rattle.std.specs.Option.{option_map};
    ghost use Rattle.sst_entries.specs.Lending.{entry_of_ref};
    ghost use Rattle.sst_entries.specs.declared.error.Error.TheVariants.{OutOfMemory};
    ghost use Rattle.lsm_writers.specs.Counts.{tally_of};

    /// Returns the changes that an entry after `before` makes to the counts. Fails only with
    /// [`Error::OutOfMemory`].
    pub(crate) fn tally(
        &self,
        alloc: &A,
        before: Option<EntryRef<'_>>,
        entry: &EntryRef<'_>,
    ) -> Result<Tally<A>, Error>
        ensures ok { IfOk result (λ t. t ≡
            tally_of (option_map entry_of_ref before.entry) (entry_of_ref entry.now)
            self.now.first_key) }
        ensures err { IfErr result (λ e. e ≡ OutOfMemory) }
    {
        let first_key = match &self.first_key {
            None => Some(UserKey::from(alloc.clone()?, entry.user_key)?),
            Some(_) => None,
        };
        Ok(Tally {
            starts_key: starts_key(before, entry),
            is_tombstone: entry.is_tombstone(),
            is_weak: is_weak(entry.value_type),
            is_reclaimable: is_reclaimable(before, entry),
            seqno: entry.seqno,
            first_key,
        })
    }
}

impl<A: Allocator> Metadata<A> {
    ghost use Rattle.std.specs.Prelude.{◌≡◌, ◌+◌, ◌<◌, ◌^◌, Some};
    ghost use Rattle.lsm_writers.specs.Counts.{added, HasRoom};

    /// Counts one more entry.
    pub(crate) fn count(&mut self, tally: Tally<A>)
        requires { HasRoom self.old }
        ensures { self.new ≡ added tally self.old }
    {
        let Tally {
            starts_key,
            is_tombstone,
            is_weak,
            is_reclaimable,
            seqno,
            first_key,
        } = tally;
        if self.first_key.is_none() {
            self.first_key = first_key;
        }
        self.tombstone_count += usize::from(is_tombstone);
        self.weak_tombstone_count += usize::from(is_weak);
        self.weak_tombstone_reclaimable_count += usize::from(is_reclaimable);
        self.key_count += usize::from(starts_key);
        self.lowest_seqno = self.lowest_seqno.min(seqno);
        self.highest_seqno = self.highest_seqno.max(seqno);
    }

    /// Counts a cut block: its entries, payload length, end offset and last key. The last key is
    /// swapped with that of the previous block.
    pub(crate) fn count_block(
        &mut self,
        items: usize,
        size: usize,
        end: BlockOffset,
        last_key: &mut Option<KeyBuffer<A>>,
    )
        requires { (self.old.data_block_count + 1 < 2 ^ 64) × (self.old.item_count + items < 2 ^ 64)
            × (self.old.uncompressed_size + size < 2 ^ 64) }
        ensures { self.new ≡ record self.old {
          data_block_count = self.old.data_block_count + 1;
          item_count = self.old.item_count + items;
          file_pos = end;
          uncompressed_size = self.old.uncompressed_size + size;
          last_key = last_key.old;
        } }
    {
        self.data_block_count += 1;
        self.item_count += items;
        self.file_pos = end;
        self.uncompressed_size += size as u64;
        mem::swap(&mut self.last_key, last_key);
    }
}
