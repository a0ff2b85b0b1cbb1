//! Writing a list as one table.
ghost use Rattle.std.specs.Prelude.{◌≡◌, ◌↔◌, ◌-◌, ◌^◌, [], nat_lt, IfOk, IsTrue, MatchOption};
ghost use Rattle.lsm_writers.specs.Words as spec;

use crate::{FinishedTable, TableId, Timestamp, Writer};
use sst_blocks::{Error, InternalValue, SeqNo};
use sst_entries::are_strict;
use std::alloc::Allocator;

fn are_numbered<A: Allocator>(items: &[InternalValue<A>]) -> bool
    ensures { result ≡ spec.list_all (λ (e : spec.Entry). nat_lt e.seqno (2 ^ 64 - 1)) items.now }
{
    items.iter().all(|item| item.key.seqno < SeqNo::MAX)
}

/// Returns whether a list can be passed to [`write_list`].
///
/// It can if each entry sorts strictly before the next and each sequence number is below
/// `u64::MAX`. Entries are sorted by key, then by descending sequence number.
///
/// # Examples
///
/// ```
/// if is_writable(&items) {
///     Ok(items)
/// } else {
///     Err(Error::Source(0))
/// }
/// ```
pub fn is_writable<A: Allocator>(items: &[InternalValue<A>]) -> bool
    ensures { IsTrue result ↔ spec.IsWritable items.now }
{
    are_strict(items) && are_numbered(items)
}

/// Writes a list as one table with default options, and returns it, or `None` for an empty list.
///
/// The list must be writable; see [`is_writable`]. The table is at level `initial_level` and has
/// the timestamp `created_at`.
///
/// # Errors
///
/// The first error of [`Writer::write`] or [`Writer::finish`], or [`Error::OutOfMemory`].
///
/// # Examples
///
/// ```
/// let (key, value) = (Slice::from(alloc, b"c")?, Slice::from(alloc, b"")?);
/// let mut items = Vec::new(alloc);
/// items.push(InternalValue::from_components(key, value, 2, V))?;
/// match write_list(alloc, 2, 0, Timestamp::from(0), items)? {
///     Some(table) => Ok(table.bytes),
///     None => Err(Error::Source(1)),
/// }
/// ```
pub fn write_list<A: Allocator + Clone>(
    alloc: A,
    id: TableId,
    initial_level: u8,
    created_at: Timestamp,
    items: Vec<InternalValue<A>, A>,
) -> Result<Option<FinishedTable<A>>, Error>
    requires { spec.IsWritable items.items }
    ensures table { IfOk result (λ t. MatchOption t (items.items ≡ [])
        (λ f. spec.IsTableOf (spec.label_of id initial_level created_at) items.items f.id
        f.checksum.0 f.bytes)) }
    ensures refused { spec.Faults result
        (spec.list_fault (spec.label_of id initial_level created_at) items.items) }
{
    let mut writer = Writer::new(alloc, id, initial_level, created_at)?;
    for item in items {
        if let Err(error) = writer.write(item) {
            drop(writer);
            return Err(error);
        }
    }
    writer.finish()
}
