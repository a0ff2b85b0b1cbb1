//! Reading a whole table once, to check that its bytes store a list.
ghost use Rattle.std.specs.Prelude.{◌≡◌, ◌≢◌, IfErr, IfOk};
ghost use Rattle.lsm_readers.specs.Words as spec;

mod blocks;
mod end;
mod entries;
mod steps;

use crate::Inner;
use sst_blocks::{Checksum, Error, InternalValue, ItemName, SectionName, SeqNo, hash};
use std::alloc::{Allocator, Global};
use std::marker::Model;
pub(crate) use steps::{Stage, step_stage};

/// A fault at a position of a table's bytes.
#[derive(Debug, Drop, PartialEq, Eq)]
pub enum Fault {
    /// The block cannot be loaded.
    Unloaded(Error),
    /// The block has no entry, or no handle.
    Hollow,
    /// The block does not start where the one before it ended.
    Misplaced,
    /// An entry has the sequence number `u64::MAX`.
    TooHigh,
    /// An entry is not in order after the one before it.
    Unordered,
    /// The filter excludes a key of the table: a false negative.
    Denied,
    /// The filter block for a key cannot be loaded.
    Unfiltered(Error),
    /// The block does not end with the key in its handle.
    OtherKey,
    /// The block does not end with the sequence number in its handle.
    OtherNumber,
    /// An item of the meta block does not match the entries.
    Unborne(ItemName),
    /// A data block has no handle.
    Unnamed,
    /// The bytes of the file have another checksum than the given one.
    OtherChecksum,
}

/// A fault and its position: the section and the offset of the block where it is found.
///
/// A wrong handle is reported at the block it names. Another checksum is reported at the first byte
/// of the file.
#[derive(Debug, Drop, PartialEq, Eq)]
pub struct Finding {
    /// The section of the block.
    pub section: SectionName,
    /// The offset at which the block starts.
    pub offset: u64,
    /// The fault at this position.
    pub fault: Fault,
}

/// The reason why a table was not verified.
///
/// It does not implement `std::error::Error`: a finding is not an [`Error`] of the calls.
///
/// [`Error`]: sst_blocks::Error
#[derive(Debug, Drop, PartialEq, Eq)]
pub enum VerifyError {
    /// An allocation failed. Nothing is known about the table.
    OutOfMemory,
    /// A fault was found: the bytes store no list, or have another checksum than the given one.
    Found(Finding),
}

/// The counts of a verified table.
#[derive(Clone, Copy, Debug, PartialEq, Eq)]
pub struct Verified {
    /// The number of data blocks.
    pub data_block_count: u64,
    /// The number of entries.
    pub item_count: u64,
}

/// The counts of a meta block that are left to read, and the lowest and highest seqno read.
#[derive(Clone, Copy)]
pub(crate) struct Counts {
    blocks: u64,
    size: u64,
    items: u64,
    tombstones: u64,
    weak: u64,
    reclaimable: u64,
    lowest: SeqNo,
    highest: SeqNo,
}

/// The counts that are left to read, and the last entry read.
#[derive(Drop)]
pub(crate) struct Unread<A: Allocator = Global> {
    last: Option<InternalValue<A>>,
    counts: Counts,
}

impl<A: Allocator> Model for Unread<A> {
    ghost use Rattle.lsm_readers.specs.Verify.{Unread};

    ghost Value = { Unread };

    ghost view = { λ u. record { last = u.last; counts = u.counts } };
}

fn found(section: SectionName, offset: u64, fault: Fault) -> VerifyError
    ensures { result ≡ spec.Found (spec.finding section offset fault) }
{
    VerifyError::Found(Finding {
        section,
        offset,
        fault,
    })
}

/// Maps a load error: any error except `OutOfMemory` is a block that cannot be loaded.
fn unloaded(section: SectionName, offset: u64, error: Error) -> VerifyError
    ensures { result ≡ spec.load_refusal section offset error }
{
    match error {
        Error::OutOfMemory => VerifyError::OutOfMemory,
        error => found(section, offset, Fault::Unloaded(error)),
    }
}

/// Checks that bytes have a checksum.
pub(crate) fn test_checksum(bytes: &[u8], checksum: Checksum) -> Result<(), VerifyError>
    ensures same { IfOk result (λ _. spec.fnv1a bytes.now ≡ checksum.0) }
    ensures other { IfErr result (λ e. spec.fnv1a bytes.now ≢ checksum.0) }
    ensures returned { IfErr result (λ e. e ≡ spec.Found spec.other_checksum) }
{
    if u128::from(hash(bytes)) == checksum.0 {
        Ok(())
    } else {
        Err(found(SectionName::Data, 0, Fault::OtherChecksum))
    }
}

/// The counts of a table before anything is read.
pub(crate) fn unread_table<A: Allocator>(inner: &Inner<A>) -> Unread<A>
    ensures { result ≡ spec.unread_of (spec.parts_of inner.now).facts }
{
    let said = &inner.metadata;
    Unread {
        last: None,
        counts: Counts {
            blocks: said.data_block_count,
            size: said.file_size,
            items: said.item_count,
            tombstones: said.tombstone_count,
            weak: said.weak_tombstone_count,
            reclaimable: said.weak_tombstone_reclaimable,
            lowest: SeqNo::MAX,
            highest: 0,
        },
    }
}
