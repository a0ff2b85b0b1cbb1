//! A list as a lending iterator.
ghost use Rattle.sst_entries.specs.Stream.{CanYield, nowhere};

use sst_entries::{EntryRef, Error, InternalValue, IterItem, Lending};
use std::vec::IntoIter;

/// Yields the entries of a list, borrowed, and its errors, in the list's order.
#[derive(Drop)]
pub struct LentList {
    rest: IntoIter<IterItem>,
    lent: Option<InternalValue>,
}

impl Lending for LentList {
    ghost use Rattle.std.specs.Vec.Iter.{into_iter_len};

    ghost can_advance = { λ s. Unit {0} };

    ghost advances = { λ s r t. Unit {0} };

    ghost lent = { λ s. s.lent };

    ghost left = { λ s. into_iter_len s.rest };

    fn advance(&mut self) -> Result<bool, Error> {
        match self.rest.next() {
            Some(Ok(entry)) => {
                self.lent = Some(entry);
                Ok(true)
            }
            Some(Err(error)) => {
                self.lent = None;
                Err(error)
            }
            None => {
                self.lent = None;
                Ok(false)
            }
        }
    }

    fn entry(&self) -> Option<EntryRef<'_>> {
        match &self.lent {
            Some(entry) => Some(entry.as_entry_ref()),
            None => None,
        }
    }
}

/// A lending iterator over a list, from its front.
pub fn lent_list(results: Vec<IterItem>) -> LentList
    ensures can { CanYield ⟦<LentList as Lending>⟧.advances nowhere
        ⟦<LentList as Lending>⟧.can_advance ⟦<LentList as Lending>⟧.can_advance result }
{
    LentList {
        rest: results.into_iter(),
        lent: None,
    }
}
