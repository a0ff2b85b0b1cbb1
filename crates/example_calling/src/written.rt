//! Writing a list as a table, opening and reading it.
ghost use Rattle.std.specs.Prelude.{◌≡◌, [], IfOk, MatchOption};
ghost use Rattle.sst_entries.specs.Error.{Faults};
ghost use Rattle.lsm_runs.specs.compaction.Written.{ReadsList, opening_fault};
ghost use Rattle.lsm_tables.specs.Words.{IsWritable, label_of};

use lsm_tables::block::{Error, InternalValue, SeqNo};
use lsm_tables::table::{Scanner, Table, Timestamp, write_and_open};
use std::alloc::Allocator;

/// Writes a list, opens the table, and returns a point read and a scan of it; `None` if the list
/// has no entry.
///
/// By the contracts of writing, opening and reading alone, they read the list.
///
/// # Errors
///
/// Those of [`write_and_open`].
pub fn read_back<A: Allocator + Clone>(
    alloc: A,
    items: Vec<InternalValue<A>, A>,
    global_seqno: SeqNo,
    key: &[u8],
    seqno: SeqNo,
) -> Result<Option<(Option<InternalValue<A>>, Scanner<A>)>, Error>
    requires { IsWritable items.items }
    ensures list { IfOk result (λ r. MatchOption r (items.items ≡ [])
        (λ read. ReadsList items.items global_seqno key.now seqno read.0 read.1)) }
    ensures refused { Faults result (opening_fault (label_of 1 0 0) items.items global_seqno) }
{
    match write_and_open(alloc, 1, Timestamp::from(0), items, global_seqno)? {
        None => Ok(None),
        Some(table) => {
            // Its bytes store the list.
            table.tells_its_list();
            let found = table.get(key, seqno, Table::<A>::key_hash(key))?;
            let scanner = table.scan()?;
            Ok(Some((found, scanner)))
        }
    }
}
