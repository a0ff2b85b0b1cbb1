//! The lending iterator over entries.
ghost use Rattle.std.specs.Prelude.{◌≡◌, ◌<◌, ◌↔◌};

use crate::{EntryRef, Error};

/// An iterator that lends each item by reference until the next call.
///
/// It reads from the front. Entries are neither shared nor copied.
pub trait Lending {
    ghost use Rattle.std.specs.Prelude.{ℕ, Option, None, Result, IfOk, OnErr, IsTrue, is_some};
    ghost use Rattle.std.specs.Option.{option_map};
    ghost use Rattle.sst_entries.specs.Entry.{Entry};
    ghost use Rattle.sst_entries.specs.Lending.{came, entry_of_ref};
    ghost use Rattle.sst_entries.specs.Stream.{Lowers};
    ghost use Rattle.sst_entries.specs.declared.error.Error.{Error};

    // `advance` may be called in this state.
    ghost can_advance: { Self → Type 0 };

    // One step relates the state before, the item and the state after, as an iterator's `next`.
    ghost advances: { Self → Option (Result Entry Error) → Self → Type 0 };

    // The borrowed entry.
    ghost lent: { Self → Option Entry };

    // An upper bound on the number of items that remain.
    ghost left: { Self → ℕ };

    /// Advances to the next entry and returns whether there is one.
    ///
    /// Afterwards the previous entry is no longer available.
    ///
    /// # Errors
    ///
    /// An error takes the position of an entry; [`Lending::entry`] then returns `None`.
    fn advance(&mut self) -> Result<bool, Error>
        requires { can_advance self.old }
        ensures goes { advances self.old (came result (lent self.new)) self.new }
        ensures more { IfOk result (λ more. more ≡ is_some (lent self.new)) }
        ensures err { OnErr result (lent self.new ≡ None) }
        ensures lowers { Lowers (came result (lent self.new)) (left self.old) (left self.new) };

    /// Returns the current entry.
    ///
    /// It returns `None` before the first [`Lending::advance`], after the last entry and after an
    /// error.
    fn entry(&self) -> Option<EntryRef<'_>>
        ensures { option_map entry_of_ref result ≡ lent self.now };
}
