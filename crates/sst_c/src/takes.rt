//! Bulk reads: entries read one after another and copied back to back.
ghost use Rattle.std.specs.Prelude.{◌≡◌, ℕ, None, Some};
ghost use Rattle.sst_c.specs.Words as spec;

use crate::entries::{EntryReport, tell};
use crate::laying::lay_next;
use sst_blocks::EntryRef;

/// A source of entries, read one by one from the front, or from the back if `back` is set.
pub(crate) trait Reads {
    ghost use Rattle.std.specs.Prelude.{◌≡◌, ℕ, Bool, Option, is_some, true};
    ghost use Rattle.std.specs.Option.{option_map};
    ghost use Rattle.sst_entries.specs.Entry.{Entry};
    ghost use Rattle.sst_entries.specs.Lending.{entry_of_ref};

    // One read: the source before it, the code, the entry found, and the source after it.
    ghost reads: { Bool → Self → ℕ → Option Entry → Self → Type 0 };

    // The entry that the last read found.
    ghost found: { Self → Option Entry };

    /// Reads the next entry.
    ///
    /// Returns 0 or an error code.
    fn read(&mut self, back: bool) -> u32
        ensures reads { reads back self.old result (found self.new) self.new }
        ensures fine { is_some (found self.new) ≡ true → result ≡ 0 };

    /// Borrows the entry that the last read found.
    fn entry(&self) -> Option<EntryRef<'_>>
        ensures { option_map entry_of_ref result ≡ found self.now };
}

/// Reads entries one after another, and copies their keys and values back to back.
///
/// It stops if `entries` is full, a read finds no entry, or an entry does not fit. Returns the code
/// of the read at which it stopped, or `None` if `entries` is full.
pub(crate) fn take_from<R: Reads>(
    source: &mut R,
    back: bool,
    entries: &mut [EntryReport],
    bytes: &mut [u8],
    count: &mut u64,
) -> Option<u32>
    ensures full { result ≡ None → spec.ReadsMany (R.reads back) source.old entries.old entries.new
        bytes.old bytes.new count.new 0 None source.new }
    ensures stopped { (code : ℕ) → result ≡ Some code → spec.ReadsMany (R.reads back) source.old
        entries.old entries.new bytes.old bytes.new count.new code (R.found source.new) source.new }
{
    let mut at = 0;
    for place in 0..entries.len() {
        *count = place as u64;
        let code = source.read(back);
        let Some(entry) = source.entry() else {
            return Some(code);
        };
        if !lay_next(&entry, bytes, &mut at) {
            return Some(code);
        }
        entries[place] = tell(Some(entry));
    }
    *count = entries.len() as u64;
    None
}
