//! Entries as reported to C.
ghost use Rattle.std.specs.Prelude.{◌≡◌};
ghost use Rattle.sst_c.specs.Words as spec;

use sst_blocks::{EntryRef, InternalValue};

/// An entry as reported to C: its kind, sequence number and lengths.
#[repr(C)]
#[derive(Clone, Copy)]
pub struct EntryReport {
    /// The kind: one more than the tag of the value type, or 0 if there is no entry.
    pub kind: u64,
    /// The sequence number.
    pub seqno: u64,
    /// Length of the key in bytes.
    pub key_len: u64,
    /// Length of the value in bytes.
    pub value_len: u64,
}

/// Returns the report of an entry, or zeros if there is none.
pub(crate) fn tell(found: Option<EntryRef<'_>>) -> EntryReport
    ensures { result ≡ spec.entry_facts (spec.option_map spec.entry_of_ref found.entry) }
{
    match found {
        None => EntryReport {
            kind: 0,
            seqno: 0,
            key_len: 0,
            value_len: 0,
        },
        Some(entry) => EntryReport {
            kind: 1 + u64::from(entry.value_type.tag()),
            seqno: entry.seqno,
            key_len: entry.user_key.len() as u64,
            value_len: entry.value.len() as u64,
        },
    }
}

/// Borrows the entry, if there is one.
pub(crate) fn entry_of(found: &Option<InternalValue>) -> Option<EntryRef<'_>>
    ensures { spec.option_map spec.entry_of_ref result ≡ found.now }
{
    match found {
        None => None,
        Some(item) => Some(item.as_entry_ref()),
    }
}
