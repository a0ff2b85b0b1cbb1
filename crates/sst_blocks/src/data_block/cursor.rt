//! A cursor over the entries of a data block.
ghost use Rattle.std.specs.Prelude.{◌≡◌, ◌<◌, ◌≤◌, List, Some, true, unwrap_or, [], length, is_some};
ghost use Rattle.std.specs.Prelude.{IfErr, IfOk, slice_range};
ghost use Rattle.sst_blocks.specs.Words as spec;

use super::entry_ref::head_len;
use crate::entry_place::EntryPlace;
use crate::reading::item_at;
use crate::starts::Starts;
use crate::{EntryRef, Error, InternalValue, Slice, TableVersion};
use std::alloc::{Allocator, Global};
use std::marker::Model;

/// Returns the position of the entry at an index in the payload.
#[inline(always)]
#[tactic(auto, unfolding(crate::specs::Reading::entries_in))]
fn place_at<A: Allocator>(
    version: TableVersion,
    payload: &Slice<A>,
    starts: &Starts<A>,
    index: usize,
) -> EntryPlace
    requires spelled { spec.EntriesAt version payload.now starts.now }
    requires within { index < length starts.now }
    ensures found { let entries = unwrap_or (spec.entries_in version payload.now) [] in
        spec.slice_get entries index ≡ Some (spec.entry_placed payload.now result) }
    ensures placed { spec.IsPlacedIn payload.now result }
{
    let entry: EntryRef<'_> = item_at(version, payload.as_slice(), starts, index);
    EntryPlace::of(starts.at(index) + head_len(version), &entry)
}

/// A cursor over a range of a data block's entries, from both ends.
///
/// It borrows the current entry from the block's bytes. The head of an entry is decoded once. In
/// contracts it is the current entry and the list of those that remain.
#[derive(Drop)]
pub struct Cursor<A: Allocator = Global> {
    version: TableVersion,
    payload: Slice<A>,
    starts: Starts<A>,
    // The indexes of the first remaining entry and of the one after the last.
    from: usize,
    to: usize,
    lent: Option<EntryPlace>,
}

impl<A: Allocator> Model for Cursor<A> {
    ghost use Rattle.std.specs.Prelude.{◌≤◌, length, slice_range, unwrap_or, [], MatchOption};
    ghost use Rattle.std.specs.Option.{option_map};
    ghost use Rattle.sst_blocks.specs.Cursor.{Cursor};
    ghost use Rattle.sst_blocks.specs.EntryPlace.{IsPlacedIn, entry_placed};
    ghost use Rattle.sst_blocks.specs.Reading.{entries_in};
    ghost use Rattle.sst_blocks.specs.Starts.{EntriesAt};

    ghost Value = { Cursor };

    ghost view = { λ c. record {
      lent = option_map (entry_placed c.payload) c.lent;
      behind = slice_range (unwrap_or (entries_in c.version c.payload) []) c.from c.to;
    } };

    ghost invariant = { λ c. EntriesAt c.version c.payload c.starts × (c.to ≤ length c.starts) ×
        MatchOption c.lent (Unit {0}) (IsPlacedIn c.payload) };
}

impl<A: Allocator> Cursor<A> {
    pub(super) fn new(
        version: TableVersion,
        payload: Slice<A>,
        starts: Starts<A>,
        from: usize,
        to: usize,
    ) -> Cursor<A>
        requires spelled { spec.EntriesAt version payload starts }
        requires within { to ≤ length starts }
        ensures { let entries = unwrap_or (spec.entries_in version payload) [] in
            result ≡ spec.cursor_of (slice_range entries from to) }
    {
        Cursor {
            version,
            payload,
            starts,
            from,
            to,
            lent: None,
        }
    }

    /// Advances to the first remaining entry and returns whether there is one.
    ///
    /// Afterwards the previous entry is no longer available.
    #[inline(always)]
    pub fn advance(&mut self) -> bool
        ensures goes { self.new ≡ spec.advanced self.old }
        ensures more { result ≡ is_some self.new.lent }
    {
        if self.to <= self.from {
            self.lent = None;
            return false;
        }
        self.lent = Some(place_at(self.version, &self.payload, &self.starts, self.from));
        self.from += 1;
        true
    }

    /// Moves to the last remaining entry and returns whether there is one.
    ///
    /// Afterwards the previous entry is no longer available.
    #[inline(always)]
    pub fn advance_back(&mut self) -> bool
        ensures goes { self.new ≡ spec.retreated self.old }
        ensures more { result ≡ is_some self.new.lent }
    {
        if self.to <= self.from {
            self.lent = None;
            return false;
        }
        self.to -= 1;
        self.lent = Some(place_at(self.version, &self.payload, &self.starts, self.to));
        true
    }

    /// Returns the current entry.
    ///
    /// It returns `None` before the first move and after the last entry.
    #[inline(always)]
    pub fn entry(&self) -> Option<EntryRef<'_>>
        ensures { spec.option_map spec.entry_of_ref result ≡ self.now.lent }
    {
        match &self.lent {
            None => None,
            Some(place) => Some(place.entry(self.payload.as_slice())),
        }
    }

    /// Returns the current entry; its key and value share the block's memory.
    ///
    /// There must be a current entry.
    ///
    /// # Errors
    ///
    /// Fails only with [`Error::OutOfMemory`].
    #[inline(always)]
    pub fn share(&self) -> Result<InternalValue<A>, Error>
        requires { is_some self.now.lent ≡ true }
        ensures found { IfOk result (λ e. self.now.lent ≡ Some e) }
        ensures err { IfErr result (λ e. e ≡ spec.OutOfMemory) }
    {
        let Some(place) = &self.lent else {
            unreachable!()
        };
        place.share(&self.payload)
    }

    /// Clears the current entry until the next move.
    #[inline(always)]
    pub fn unlend(&mut self)
        ensures { self.new ≡ spec.unlent self.old }
    {
        self.lent = None;
    }

    /// Drops the current entry and all that remain.
    pub fn end(&mut self)
        ensures { self.new ≡ spec.over_cursor }
    {
        self.to = 0;
        self.lent = None;
    }
}
