//! Runs: tables in key order.
ghost use Rattle.std.specs.Prelude.{◌≡◌, ◌≢◌, ◌<◌, ◌≤◌, ◌∷◌, ◌++◌, IsTrue, List, Ok, Some, map};
ghost use Rattle.std.specs.Prelude.{Contains, IfOk, IfSome, [], length, remove, slice_get};
ghost use Rattle.std.specs.Prelude.{IsPermutation, MatchOption, OnOk, OnErr, IfErr};
ghost use Rattle.lsm_sorted.specs.Words as spec;

use crate::KeyRange;
use crate::key_range::{is_at_most, is_from_lower, is_up_to_upper};
use sst_entries::{Error, UserKey};
use std::alloc::{AllocError, Allocator, Global};
use std::marker::Model;
use std::ops::{Bound, Deref};

/// A type with a key range, such as a table.
pub trait Ranged {
    /// The allocator of the range's keys.
    type Alloc: Allocator;

    // The contents that a value represents: for a table its bytes and its global seqno.
    ghost Meaning: { Type 0 };

    ghost meaning: { Self → Meaning };

    // The key range.
    ghost range: { Self → spec.Interval };

    /// Returns the range from the least to the greatest key.
    fn key_range(&self) -> &KeyRange<Self::Alloc>
        ensures { result.now ≡ range self.now };

    // Values with the same contents have the same range.
    ghost steady: { (x y : Self) → meaning x ≡ meaning y → range x ≡ range y };
}

/// A table of a run.
///
/// In contracts, it is the table itself.
#[derive(Drop)]
pub struct Indexed<T: Ranged> {
    inner: T,
}

impl<T: Ranged> Model for Indexed<T> {
    ghost Value = { T };

    ghost view = { λ t. t.inner };
}

impl<T: Ranged> Indexed<T> {
    /// Wraps a table.
    pub fn new(inner: T) -> Indexed<T>
        ensures { result ≡ inner }
    {
        Indexed { inner }
    }
}

impl<T: Ranged> Ranged for Indexed<T> {
    type Alloc = T::Alloc;

    ghost Meaning = { T.Meaning };

    ghost meaning = { λ t. T.meaning t };

    ghost range = { λ t. T.range t };

    fn key_range(&self) -> &KeyRange<T::Alloc> {
        self.inner.key_range()
    }

    ghost steady = { λ x y same. T.steady x y same };
}

impl<T: Ranged> Deref for Indexed<T> {
    type Target = T;

    ghost deref_gives = { λ t inner. inner ≡ t };

    fn deref(&self) -> &T {
        &self.inner
    }
}

/// A list of tables, in search order.
///
/// A run is in order if its ranges are well-formed, ascend and do not overlap, see
/// [`Run::is_in_order`]. Searches are binary, so they are exact only for such a run. In contracts,
/// a run is the list of its tables.
#[derive(Drop)]
#[derive_where(Debug; T)]
pub struct Run<T, A: Allocator = Global>(Vec<T, A>);

impl<T, A: Allocator> Model for Run<T, A> {
    ghost use Rattle.std.specs.Prelude.{List};

    ghost Value = { List T };

    ghost view = { λ run. run.0.items };
}

impl<T: PartialEq, A: Allocator> PartialEq for Run<T, A> {
    ghost eq = { spec.pointwise T.eq };

    ghost laws = { spec.lists_per T.laws };

    fn eq(&self, other: &Self) -> bool {
        self.0.as_slice() == other.0.as_slice()
    }
}

impl<T: Eq, A: Allocator> Eq for Run<T, A> {
    ghost laws = { spec.lists_equiv T.Eq.laws };
}

impl<T: Ranged, A: Allocator> Run<T, A> {
    ghost use Rattle.std.specs.contracts.vec.Vec as vec;
    ghost use Rattle.lsm_sorted.specs.contracts.version.run.Run.{the_row};

    /// Returns the tables.
    #[inline]
    pub fn as_slice(&self) -> &[T]
        ensures { result.now ≡ self.now }
    {
        self.0.as_slice()
    }

    /// Returns whether the ranges are well-formed, ascend and do not overlap.
    ///
    /// It returns true for no tables.
    pub fn is_in_order(&self) -> bool
        ensures { result ≡ spec.are_in_order (map T.range self.now) }
    {
        let mut last: Option<&UserKey<T::Alloc>> = None;
        for table in &self.0 {
            let range = table.key_range();
            if !goes_on(last, range) {
                return false;
            }
            last = Some(range.max());
        }
        true
    }

    /// Returns the table whose range contains the key, if there is one.
    ///
    /// This holds for a run in order. For any other run, it returns some table or `None`.
    pub fn get_for_key(&self, key: &[u8]) -> Option<&T>
        ensures found { spec.IsInOrder T.range self.now →
            spec.option_copied result ≡ spec.table_of_key T.range key.now self.now }
        ensures within { IfSome result (λ t. Contains self.now t.now) }
    {
        let tables = self.0.as_slice();
        let (_, rest) = tables.split_at(count_ends_before(tables, Bound::Included(key)));
        let table = rest.first()?;
        if is_at_most(table.key_range().min().as_slice(), key) {
            Some(table)
        } else {
            None
        }
    }

    /// Returns the first and the last index of the tables whose ranges reach past both bounds.
    ///
    /// This holds for a run in order. For any other run, it returns some first and last index or
    /// `None`.
    pub fn range_overlap_indexes(
        &self,
        lower: Bound<&[u8]>,
        upper: Bound<&[u8]>,
    ) -> Option<(usize, usize)>
        ensures found { spec.IsInOrder T.range self.now →
            result ≡ spec.overlap_indexes (spec.key_bound lower.entry) (spec.key_bound upper.entry)
            (map T.range self.now) }
        ensures within { IfSome result (λ ends. spec.ArePlacesOf self.now ends) }
    {
        let tables = self.0.as_slice();
        let first = count_ends_before(tables, lower);
        let (_, rest) = tables.split_at(first);
        let count = count_starts_within(rest, upper);
        if count == 0 {
            None
        } else {
            Some((first, first + count - 1))
        }
    }

    /// Returns the tables whose ranges overlap a range.
    ///
    /// This holds for a run in order. For any other run, it returns some adjacent tables.
    pub fn get_overlapping(&self, key_range: &KeyRange<T::Alloc>) -> &[T]
        ensures found { spec.IsInOrder T.range self.now →
            result.now ≡ spec.tables_across T.range key_range.now self.now }
        ensures within { spec.IsPartOf self.now result.now }
    {
        let tables = self.0.as_slice();
        let (_, rest) = tables.split_at(count_ends_before(
            tables,
            Bound::Included(key_range.min().as_slice()),
        ));
        let (found, _) = rest.split_at(count_starts_within(
            rest,
            Bound::Included(key_range.max().as_slice()),
        ));
        found
    }

    /// Returns the tables whose ranges are inside a range.
    ///
    /// This holds for a run in order. For any other run, it returns some adjacent tables.
    pub fn get_contained(&self, key_range: &KeyRange<T::Alloc>) -> &[T]
        ensures found { spec.IsInOrder T.range self.now →
            result.now ≡ spec.tables_inside T.range key_range.now self.now }
        ensures within { spec.IsPartOf self.now result.now }
    {
        let tables = self.0.as_slice();
        let (_, rest) = tables.split_at(count_starts_before(tables, key_range.min().as_slice()));
        let (found, _) = rest.split_at(count_ends_within(rest, key_range.max().as_slice()));
        found
    }

    /// Returns the range from the first table's least key to the last table's greatest key.
    ///
    /// The run must have a table.
    ///
    /// # Errors
    ///
    /// [`Error::OutOfMemory`] if a reference count cannot be incremented.
    pub fn aggregate_key_range(&self) -> Result<KeyRange<T::Alloc>, Error>
        requires { 0 < length self.now }
        ensures ok { IfOk result (λ range. spec.first_to_last (map T.range self.now) ≡ Some range) }
        ensures err { IfErr result (λ e. e ≡ spec.OutOfMemory) }
    {
        let tables = self.0.as_slice();
        let first = tables[0].key_range();
        let last = tables[tables.len() - 1].key_range();
        Ok(KeyRange::new((first.min().clone()?, last.max().clone()?)))
    }

    pub(crate) fn into_vec(self) -> Vec<T, A>
        ensures { result.items ≡ self }
    {
        self.0
    }

    // A run of these tables, which may be none.
    pub(crate) fn of_tables(tables: Vec<T, A>) -> Run<T, A>
        ensures { result ≡ tables.items }
    {
        Run(tables)
    }

    // Inserts a table into a run in order, after those that start no later.
    pub(crate) fn insert_in_order(&mut self, table: T) -> Result<(), Error>
    where
        T: Drop,
        ensures sorted { OnOk result (spec.IsInOrder T.range self.old →
            self.new ≡ spec.with_table T.range table self.old) }
        ensures permutation { OnOk result (IsPermutation (self.old ++ table ∷ []) self.new) }
        ensures err { IfErr result (λ e. e ≡ spec.OutOfMemory) }
    {
        let start = table.key_range().min().as_slice();
        let place = count_starts_within(self.0.as_slice(), Bound::Included(start));
        self.0.insert(place, table)?;
        Ok(())
    }

    /// Removes and returns the table at an index; later tables move up.
    ///
    /// The index must be below the number of tables. The run can be left empty.
    pub fn remove(&mut self, place: usize) -> T
        requires { place < length self.old }
        ensures taken { slice_get self.old place ≡ Some result }
        ensures left { self.new ≡ remove self.old place }
    {
        self.0.remove(place)
    }

    /// Appends tables in their order, without sorting.
    ///
    /// # Errors
    ///
    /// [`Error::OutOfMemory`] only, and never for no tables. The run is then unchanged, and the
    /// tables are dropped.
    pub fn extend(&mut self, items: Vec<T, A>) -> Result<(), Error>
    where
        T: Drop,
        ensures ok { OnOk result (self.new ≡ self.old ++ items.items) }
        // Without tables it does not fail.
        ensures none { items.items ≡ [] → (result ≡ Ok tt) × (self.new ≡ self.old) }
        ensures err { IfErr result (λ e. (e ≡ spec.OutOfMemory) × (self.new ≡ self.old)) }
    {
        let mut items = items;
        if !items.is_empty() {
            self.0.append(&mut items)?;
        }
        Ok(())
    }

    /// Keeps the tables for which `keeps` returns true, in their order.
    ///
    /// The run can be left empty.
    pub fn retain<F: Fn(&T) -> bool>(&mut self, keeps: F)
    where
        T: Drop,
        requires { F.IsAlwaysCallable keeps }
        ensures { spec.IsFiltered (spec.CalledAt F.FnMut) keeps self.old self.new }
    {
        self.0.retain(keeps)
    }

    /// Returns the vector of the tables, to change it freely.
    ///
    /// The run can be left empty or out of order.
    pub fn inner_mut(&mut self) -> &mut Vec<T, A>
        ensures* writes_back { spec.sem 𝓛 (spec.Lends (the_row T.row A.row A.Allocator)
            (vec.the_row T.row A.row A.Allocator) self.entry result (λ v. v.items)) }
        ensures value { result.now.items ≡ self.old }
    {
        &mut self.0
    }
}

impl<T: Ranged + Drop, A: Allocator> Run<T, A> {
    /// Adds a table and sorts the run by the tables' least keys.
    ///
    /// Tables with the same least key keep their order, and the new table comes last among them.
    ///
    /// # Errors
    ///
    /// [`Error::OutOfMemory`] only. The run is then unchanged, and the table is dropped.
    pub fn push(&mut self, item: T) -> Result<(), Error>
        ensures permutation { OnOk result (IsPermutation (self.old ++ item ∷ []) self.new) }
        ensures sorted { OnOk result (spec.IsSortedByMin T.range self.new) }
        ensures stable { OnOk result (spec.IsStableByMin T.range (self.old ++ item ∷ []) self.new) }
        ensures err { IfErr result (λ e. (e ≡ spec.OutOfMemory) × (self.new ≡ self.old)) }
    {
        self.0.push(item)?;
        if starts_ascend(self.0.as_slice()) {
            return Ok(());
        }
        if let Err(refused) = sort_by_min(&mut self.0) {
            self.0.pop();
            return Err(refused.into());
        }
        Ok(())
    }

    /// Creates a run of tables in their order, or returns `None` exactly for no tables.
    ///
    /// The call neither sorts nor tests them; see [`Run::is_in_order`].
    pub fn new(items: Vec<T, A>) -> Option<Run<T, A>>
        ensures { MatchOption result (items.items ≡ [])
            (λ run. (run ≡ items.items) × (items.items ≢ [])) }
    {
        if items.is_empty() {
            None
        } else {
            Some(Run(items))
        }
    }
}

// Whether a range is well-formed and starts above the last key, if there is one.
fn goes_on<B: Allocator>(last: Option<&UserKey<B>>, range: &KeyRange<B>) -> bool
    ensures { result ≡ spec.may_come_next (spec.option_copied last.entry) range.now }
{
    let starts_above = match last {
        Some(last) => last < range.min(),
        None => true,
    };
    range.is_well_formed() && starts_above
}

// Whether no table starts before its predecessor. The last two are compared first, so a new last
// table out of order is found at once.
fn starts_ascend<T: Ranged>(tables: &[T]) -> bool
    ensures { IsTrue result → spec.IsSortedByMin T.range tables.now }
{
    for place in (1..tables.len()).rev() {
        if tables[place].key_range().min() < tables[place - 1].key_range().min() {
            return false;
        }
    }
    true
}

fn sort_by_min<T: Ranged, A: Allocator>(tables: &mut Vec<T, A>) -> Result<(), AllocError>
    ensures permutation { IsPermutation tables.old.items tables.new.items }
    ensures sorted { OnOk result (spec.IsSortedByMin T.range tables.new.items) }
    ensures stable { spec.IsStableByMin T.range tables.old.items tables.new.items }
    ensures err { OnErr result (tables.new.items ≡ tables.old.items) }
{
    tables.sort_by(|a, b| a.key_range().min().cmp(b.key_range().min()))
}

fn count_ends_before<T: Ranged>(tables: &[T], lower: Bound<&[u8]>) -> usize
    ensures exact { spec.IsInOrder T.range tables.now →
        result ≡ spec.how_many (spec.ends_before (spec.key_bound lower.entry))
        (map T.range tables.now) }
    ensures within { result ≤ length tables.now }
{
    tables.partition_point(|table| !is_from_lower(&lower, table.key_range().max().as_slice()))
}

fn count_starts_within<T: Ranged>(tables: &[T], upper: Bound<&[u8]>) -> usize
    ensures exact { spec.IsInOrder T.range tables.now →
        result ≡ spec.how_many (spec.starts_within (spec.key_bound upper.entry))
        (map T.range tables.now) }
    ensures within { result ≤ length tables.now }
{
    tables.partition_point(|table| is_up_to_upper(&upper, table.key_range().min().as_slice()))
}

fn count_starts_before<T: Ranged>(tables: &[T], key: &[u8]) -> usize
    ensures exact { spec.IsInOrder T.range tables.now →
        result ≡ spec.how_many (spec.starts_before key.now) (map T.range tables.now) }
    ensures within { result ≤ length tables.now }
{
    tables.partition_point(|table| table.key_range().min().as_slice().cmp(key).is_lt())
}

fn count_ends_within<T: Ranged>(tables: &[T], key: &[u8]) -> usize
    ensures exact { spec.IsInOrder T.range tables.now →
        result ≡ spec.how_many (spec.ends_within key.now) (map T.range tables.now) }
    ensures within { result ≤ length tables.now }
{
    tables.partition_point(|table| is_at_most(table.key_range().max().as_slice(), key))
}
