//! Closed intervals of keys.
ghost use Rattle.std.specs.Prelude.{◌≡◌, ◌↔◌, if◌then◌else◌, false, IsTrue, IfOk, IfErr, Ok, []};
ghost use Rattle.lsm_sorted.specs.Words as spec;

use sst_entries::{Error, Slice, UserKey};
use std::alloc::{AllocError, Allocator, Global};
use std::marker::Model;
use std::ops::Bound;

/// A closed interval of keys, from a least to a greatest one.
///
/// In contracts, it is the pair of the two keys.
#[derive(Drop)]
#[derive_where(Debug, PartialEq, Eq)]
pub struct KeyRange<A: Allocator = Global>(UserKey<A>, UserKey<A>);

impl<A: Allocator> Model for KeyRange<A> {
    ghost use Rattle.lsm_sorted.specs.version.KeyRange.{Interval, interval};

    ghost Value = { Interval };

    ghost view = { λ r. interval r.0 r.1 };

    ghost inverse = { λ r. record { 0 = r.min; 1 = r.max } };
}

impl<A: Allocator> Clone for KeyRange<A> {
    ghost use Rattle.std.specs.Prelude.{◌≡◌};

    ghost is_clone = { λ range copy. copy ≡ range };

    fn clone(&self) -> Result<KeyRange<A>, AllocError> {
        Ok(KeyRange(self.0.clone()?, self.1.clone()?))
    }
}

impl<A: Allocator> KeyRange<A> {
    /// Creates the range between two keys.
    ///
    /// The call does not check their order, see [`KeyRange::is_well_formed`].
    pub fn new(ends: (UserKey<A>, UserKey<A>)) -> KeyRange<A>
        ensures { result ≡ spec.interval ends.0 ends.1 }
    {
        let (min, max) = ends;
        KeyRange(min, max)
    }

    /// Returns the range that contains the empty key alone.
    pub fn empty() -> KeyRange<A>
        ensures { result ≡ spec.interval [] [] }
    {
        KeyRange(Slice::empty(), Slice::empty())
    }

    /// Returns the least key.
    #[inline]
    pub fn min(&self) -> &UserKey<A>
        ensures { result.now ≡ self.now.min }
    {
        &self.0
    }

    /// Returns the greatest key.
    #[inline]
    pub fn max(&self) -> &UserKey<A>
        ensures { result.now ≡ self.now.max }
    {
        &self.1
    }

    /// Returns whether the least key is not above the greatest, so that the range contains a key.
    pub fn is_well_formed(&self) -> bool
        ensures { result ≡ spec.is_well_formed self.now }
    {
        is_at_most(self.0.as_slice(), self.1.as_slice())
    }

    /// Returns whether no two of the ranges overlap.
    ///
    /// It compares each range with each later one.
    pub fn is_disjoint(ranges: &[&KeyRange<A>]) -> bool
        ensures { result ≡ spec.are_disjoint (spec.intervals ranges.now) }
    {
        for (place, range) in ranges.iter().enumerate() {
            let (_, later) = ranges.split_at(place + 1);
            if overlaps_any(range, later) {
                return false;
            }
        }
        true
    }

    /// Returns the range from the least minimum to the greatest maximum of some ranges.
    ///
    /// For no ranges it returns [`KeyRange::empty`] and does not fail.
    ///
    /// # Errors
    ///
    /// [`Error::OutOfMemory`] if a reference count cannot be incremented.
    pub fn aggregate(ranges: &[&KeyRange<A>]) -> Result<KeyRange<A>, Error>
        ensures ok { IfOk result (λ range. spec.IsAggregate (spec.intervals ranges.now) range) }
        ensures none { ranges.now ≡ [] → result ≡ Ok (spec.interval [] []) }
        ensures err { IfErr result (λ e. e ≡ spec.OutOfMemory) }
    {
        let Some((first, others)) = ranges.split_first() else {
            return Ok(KeyRange::empty());
        };
        let (mut min, mut max) = (first.min(), first.max());
        for other in others {
            min = lesser(min, other.min());
            max = greater(max, other.max());
        }
        Ok(KeyRange(min.clone()?, max.clone()?))
    }

    /// Returns whether the key is within the range.
    pub fn contains_key(&self, key: &[u8]) -> bool
        ensures { result ≡ spec.has_key self.now key.now }
    {
        is_at_most(self.0.as_slice(), key) && is_at_most(key, self.1.as_slice())
    }

    /// Returns whether the other range is inside this one.
    pub fn contains_range(&self, other: &KeyRange<A>) -> bool
        ensures { result ≡ spec.has_range self.now other.now }
    {
        is_at_most(self.0.as_slice(), other.0.as_slice())
            && is_at_most(other.1.as_slice(), self.1.as_slice())
    }

    /// Returns whether neither range ends before the other one starts.
    ///
    /// For well-formed ranges, this means that some key is in both.
    pub fn overlaps_with_key_range(&self, other: &KeyRange<A>) -> bool
        ensures value { result ≡ spec.overlaps self.now other.now }
        ensures shared { IsTrue (spec.is_well_formed self.now) →
            IsTrue (spec.is_well_formed other.now) →
            (IsTrue result ↔ spec.ShareKey self.now other.now) }
    {
        is_at_most(other.0.as_slice(), self.1.as_slice())
            && is_at_most(self.0.as_slice(), other.1.as_slice())
    }

    /// Returns whether the range reaches past both bounds.
    ///
    /// Its greatest key is then not before the lower bound, and its least key is not past the upper
    /// one. If the result is false, no key of the range is within the bounds. Reversed bounds can
    /// both be met.
    pub fn overlaps_with_bounds(&self, bounds: &(Bound<&[u8]>, Bound<&[u8]>)) -> bool
        ensures value { result ≡
            spec.overlaps_bounds (spec.key_bound bounds.now.0) (spec.key_bound bounds.now.1)
            self.now }
        ensures outside { result ≡ false →
            spec.IsOutside (spec.key_bound bounds.now.0) (spec.key_bound bounds.now.1) self.now }
    {
        let (lower, upper) = bounds;
        is_from_lower(lower, self.1.as_slice()) && is_up_to_upper(upper, self.0.as_slice())
    }
}

#[tactic(auto, using(crate::proofs::IntervalLemmas::ge_is))]
pub(crate) fn is_at_most(key: &[u8], other: &[u8]) -> bool
    ensures { result ≡ spec.key_le key.now other.now }
{
    other.cmp(key).is_ge()
}

fn overlaps_any<A: Allocator>(range: &KeyRange<A>, others: &[&KeyRange<A>]) -> bool
    ensures { result ≡ spec.list_any (λ other. spec.overlaps range.now other.now) others.now }
{
    others
        .iter()
        .any(|other| range.overlaps_with_key_range(other))
}

fn lesser<'a, A: Allocator>(a: &'a UserKey<A>, b: &'a UserKey<A>) -> &'a UserKey<A>
    ensures { result.now ≡ (if spec.key_lt b.now a.now then b.now else a.now) }
{
    if b < a { b } else { a }
}

fn greater<'a, A: Allocator>(a: &'a UserKey<A>, b: &'a UserKey<A>) -> &'a UserKey<A>
    ensures { result.now ≡ (if spec.key_lt a.now b.now then b.now else a.now) }
{
    if a < b { b } else { a }
}

pub(crate) fn is_from_lower(lower: &Bound<&[u8]>, key: &[u8]) -> bool
    ensures { result ≡ spec.is_from (spec.key_bound lower.now) key.now }
{
    match lower {
        Bound::Included(low) => is_at_most(low, key),
        Bound::Excluded(low) => low.cmp(key).is_lt(),
        Bound::Unbounded => true,
    }
}

pub(crate) fn is_up_to_upper(upper: &Bound<&[u8]>, key: &[u8]) -> bool
    ensures { result ≡ spec.is_to (spec.key_bound upper.now) key.now }
{
    match upper {
        Bound::Included(high) => is_at_most(key, high),
        Bound::Excluded(high) => key.cmp(high).is_lt(),
        Bound::Unbounded => true,
    }
}
