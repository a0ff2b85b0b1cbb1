//! The newest version of each key of a lending source.
ghost use Rattle.std.specs.Prelude.{◌≡◌, ◌<◌, true, false, IfOk, IfErr, Some};
ghost use Rattle.std.specs.Prelude.{None, OnErr, is_some};
ghost use Rattle.lsm_sorted.specs.Words as spec;

use sst_entries::{EntryRef, Error, Lending};
use std::alloc::{Allocator, Global};

/// A lending iterator over the newest version of each key of a sorted source.
///
/// The newest version is the first entry of its key. [`Lending::advance`] skips the others. The key
/// of the current entry is copied into one buffer, which is reused.
///
/// # Errors
///
/// An error of the source is passed on in order, and the iteration continues after it. If the
/// buffer cannot grow, `advance` fails with [`Error::OutOfMemory`] in place of the entry. The
/// iterator is then exhausted.
#[derive(Drop)]
pub struct LendingNewest<L, A: Allocator = Global> {
    source: L,
    // The key of the last entry, if `has_key`.
    key: Vec<u8, A>,
    has_key: bool,
    is_over: bool,
}

impl<L: Lending, A: Allocator> LendingNewest<L, A> {
    /// Creates an iterator over the newest versions of the source's remaining entries.
    ///
    /// The call does not advance the source and does not allocate.
    pub fn new(alloc: A, source: L) -> Self
        // It has no current entry yet.
        ensures none { ⟦<LendingNewest<L, A> as Lending>⟧.lent result ≡ None }
        // For a sorted list, it yields the newest version of each key.
        ensures newest { spec.YieldsNewestEntries L.advances source
            ⟦<LendingNewest<L, A> as Lending>⟧.advances result }
        // With errors, it yields the same, and each error in order.
        ensures places { spec.YieldsNewestResults L.advances source
            ⟦<LendingNewest<L, A> as Lending>⟧.advances result }
        // For any source, it passes on each error. Its only error of its own is `OutOfMemory`.
        ensures faults { spec.AlwaysReports spec.PassesAll L.advances source spec.newest_lender
            ⟦<LendingNewest<L, A> as Lending>⟧.advances result }
        // After its own `OutOfMemory` it is exhausted. After the end it advances the source again,
        // and yields nothing while the source yields nothing.
        ensures over { spec.AlwaysReports spec.StaysOver L.advances source spec.newest_lender
            ⟦<LendingNewest<L, A> as Lending>⟧.advances result }
        // It can be advanced as often as the source can.
        ensures can { spec.CanAdvance L.advances L.can_advance source →
            spec.CanAdvance ⟦<LendingNewest<L, A> as Lending>⟧.advances
            ⟦<LendingNewest<L, A> as Lending>⟧.can_advance result }
        ensures advance { spec.CanYield L.advances spec.nowhere L.can_advance L.can_advance source →
            ⟦<LendingNewest<L, A> as Lending>⟧.can_advance result }
    {
        LendingNewest {
            source,
            key: Vec::new(alloc),
            has_key: false,
            is_over: false,
        }
    }

    // Whether the source's current entry has another key than the last one.
    #[inline(always)]
    fn is_other(&self) -> bool
        ensures { result ≡ spec.is_other (spec.given_key self.now) (L.lent self.now.source) }
    {
        match self.source.entry() {
            Some(entry) => !self.has_key || entry.user_key != self.key.as_slice(),
            None => true,
        }
    }

    // Copies the key of the source's current entry.
    #[inline(always)]
    fn remember(&mut self) -> Result<(), Error>
        ensures source { self.new.source ≡ self.old.source }
        ensures over { self.new.is_over ≡ self.old.is_over }
        ensures has { IfOk result (λ _. self.new.has_key ≡ true) }
        ensures key { IfOk result (λ _. (x : spec.Entry) → L.lent self.old.source ≡ Some x →
            self.new.key.items ≡ x.user_key) }
        ensures err { IfErr result (λ e. e ≡ spec.OutOfMemory) }
    {
        self.key.clear();
        if let Some(entry) = self.source.entry() {
            self.key.extend_from_slice(entry.user_key)?;
        }
        self.has_key = true;
        Ok(())
    }

    // Advances to the next entry of another key, and copies that key.
    fn go_on(&mut self) -> Result<bool, Error>
        requires may { spec.MayNewest L.advances L.can_advance self.old }
        requires live { self.old.is_over ≡ false }
        ensures goes { spec.AdvancesNewest L.advances L.can_advance self.old
            (spec.came result (spec.lent_newest L.lent self.new)) self.new }
        ensures more { IfOk result (λ more. more ≡ is_some (spec.lent_newest L.lent self.new)) }
        ensures err { OnErr result (spec.lent_newest L.lent self.new ≡ None) }
        ensures lowers { spec.Lowers (spec.came result (spec.lent_newest L.lent self.new))
            (spec.newest_left L.left self.old) (spec.newest_left L.left self.new) }
    {
        while self.source.advance()? {
            if self.is_other() {
                if let Err(error) = self.remember() {
                    self.is_over = true;
                    return Err(error);
                }
                return Ok(true);
            }
        }
        Ok(false)
    }
}

impl<L: Lending, A: Allocator> Lending for LendingNewest<L, A> {
    ghost can_advance = { spec.MayNewest L.advances L.can_advance };

    ghost advances = { spec.AdvancesNewest L.advances L.can_advance };

    ghost lent = { spec.lent_newest L.lent };

    ghost left = { spec.newest_left L.left };

    fn advance(&mut self) -> Result<bool, Error> {
        if self.is_over {
            return Ok(false);
        }
        self.go_on()
    }

    #[inline]
    fn entry(&self) -> Option<EntryRef<'_>> {
        if self.is_over || !self.has_key {
            return None;
        }
        self.source.entry()
    }
}
