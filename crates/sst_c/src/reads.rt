//! Bulk reads of the object in a handle.
ghost use Rattle.std.specs.Prelude.{◌≡◌, true};
ghost use Rattle.sst_c.specs.Words as spec;

use crate::asked::NewestAt;
use crate::entries::EntryReport;
use crate::held::{Held, What};
use crate::runs_scan::LentAt;
use crate::takes::{Reads, take_from};
use crate::{ranges, scans};
use sst_blocks::{EntryRef, Lending};

impl Held {
    /// Returns whether it is a scan.
    pub(crate) fn is_scan(&self) -> bool
        ensures { result ≡ spec.is_scan self.now.what }
    {
        matches!(&self.what, What::Scan(_) | What::RunsScan(_))
    }

    /// Returns whether it is a range.
    pub(crate) fn is_range(&self) -> bool
        ensures { result ≡ spec.is_range self.now.what }
    {
        matches!(&self.what, What::Range(_) | What::Merged(_))
    }
}

#[tactic(auto, using(crate::proofs::Bulk::one_read))]
impl Reads for Held {
    ghost reads = { λ back h code found k. spec.ReadsOn
        ⟦<NewestAt as Iterator>⟧.next_gives
        ⟦<NewestAt as DoubleEndedIterator>⟧.next_back_gives
        ⟦<LentAt as Lending>⟧.advances
        back h.what code found k.what };

    ghost found = { spec.found_by };

    fn read(&mut self, back: bool) -> u32 {
        if self.is_scan() {
            scans::step(self)
        } else {
            ranges::step(self, back)
        }
    }

    fn entry(&self) -> Option<EntryRef<'_>> {
        self.found_entry()
    }
}

/// Reads a scan or a range in bulk.
///
/// If `entries` is full afterwards, the handle has found nothing.
pub(crate) fn take_held(
    held: &mut Held,
    back: bool,
    entries: &mut [EntryReport],
    bytes: &mut [u8],
    count: &mut u64,
) -> u32
    ensures { let front = ⟦<NewestAt as Iterator>⟧.next_gives in
        let last = ⟦<NewestAt as DoubleEndedIterator>⟧.next_back_gives in
        let advances = ⟦<LentAt as Lending>⟧.advances in
        spec.ReadsMany (spec.ReadsOn front last advances back) held.old.what entries.old entries.new
        bytes.old bytes.new count.new result (spec.found_by held.new) held.new.what }
{
    match take_from(held, back, entries, bytes, count) {
        Some(code) => code,
        None => {
            held.found.clear();
            0
        }
    }
}
