//! Writing a list as a table and opening it.
ghost use Rattle.std.specs.Prelude.{◌≡◌, [], IfOk, IfSome, MatchOption};
ghost use Rattle.lsm_tables.specs.Words as spec;

use lsm_readers::Table;
use lsm_writers::{TableId, Timestamp, write_list};
use sst_blocks::{Error, InternalValue, SeqNo};
use std::alloc::Allocator;

/// Writes a list as one table of level 0, as [`write_list`], and opens it; `None` if the list has
/// no entry.
///
/// It drops the list, also if it fails.
///
/// # Errors
///
/// The first fault of writing; [`Error::GlobalSeqNoTooLarge`] if the highest sequence number plus
/// `global_seqno` exceeds `u64::MAX`; [`Error::OutOfMemory`].
///
/// # Examples
///
/// ```
/// match write_and_open(alloc, 1, Timestamp::from(0), items, 0)? {
///     None => Ok(None),
///     Some(table) => Ok(Some(table.get_by_key(key, seqno)?)),
/// }
/// ```
pub fn write_and_open<A: Allocator + Clone>(
    alloc: A,
    id: TableId,
    created_at: Timestamp,
    items: Vec<InternalValue<A>, A>,
    global_seqno: SeqNo,
) -> Result<Option<Table<A>>, Error>
    requires { spec.IsWritable items.items }
    ensures table { IfOk result (λ t. MatchOption t (items.items ≡ [])
        (λ table. spec.IsOpened (spec.label_of id 0 created_at) items.items global_seqno table)) }
    // Its bytes store the list, so that the promises about reads hold of it.
    ensures stored { IfOk result
        (λ t. IfSome t (λ table. spec.StoresList table.bytes items.items)) }
    // It has the global sequence number.
    ensures global { IfOk result (λ t. IfSome t (λ table. table.global_seqno ≡ global_seqno)) }
    ensures refused { spec.Faults result
        (spec.opening_fault (spec.label_of id 0 created_at) items.items global_seqno) }
{
    match write_list(alloc.clone()?, id, 0, created_at, items)? {
        None => Ok(None),
        Some(table) => {
            let (bytes, checksum) = (table.bytes, table.checksum);
            let opened = Table::recover(alloc, bytes, checksum, global_seqno, 0, true, true)?;
            // The bytes that were written of the list store it.
            opened.tells_its_list();
            Ok(Some(opened))
        }
    }
}
