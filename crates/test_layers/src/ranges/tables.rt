//! Tables of an id and a range alone, and their runs, written as the words of a text.
//!
//! `a-d` is the range from the key `a` to the key `d`, and `2:a-d` the table 2 with that range. An
//! id is a digit.
ghost use Rattle.std.specs.Prelude.{◌≡◌};

use lsm_sorted::{KeyRange, Ranged, Run};
use sst_entries::{Error, Slice};
use std::alloc::{AllocError, Allocator, Global};
use test_support::{Refusing, each_refused};

#[derive(Drop)]
#[derive_where(PartialEq)]
pub struct FakeTable<A: Allocator = Global> {
    pub id: u64,
    pub range: KeyRange<A>,
}

impl<A: Allocator> Ranged for FakeTable<A> {
    ghost use Rattle.std.specs.Prelude.{ℕ};
    ghost use Rattle.std.proofs.Common.{ap};
    ghost use Rattle.lsm_sorted.specs.version.KeyRange.{Interval};

    type Alloc = A;

    ghost Meaning = { ℕ × Interval };

    ghost meaning = { λ t. (t.id, t.range) };

    ghost range = { λ t. t.range };

    fn key_range(&self) -> &KeyRange<A> {
        &self.range
    }

    ghost steady = { λ x y same. ap (λ m. m.1) same };
}

impl<A: Allocator> Clone for FakeTable<A> {
    ghost is_clone = { λ table copy. copy ≡ table };

    fn clone(&self) -> Result<FakeTable<A>, AllocError> {
        Ok(FakeTable {
            id: self.id,
            range: self.range.clone()?,
        })
    }
}

// The ends of the range of a word.
pub fn ends_of(word: &'static str) -> (&'static [u8], &'static [u8]) {
    match word.split_once('-') {
        Some((min, max)) => (min.as_bytes(), max.as_bytes()),
        None => (&[], &[]),
    }
}

// The range of a word.
pub fn range_of<A: Allocator>(word: &'static str) -> KeyRange<A> {
    let (min, max) = ends_of(word);
    KeyRange::new((Slice::from_static(min), Slice::from_static(max)))
}

// The value of a digit.
pub fn number_of(digit: u8) -> usize {
    usize::from(digit.wrapping_sub(b'0'))
}

// The table of a word.
pub fn table_of<A: Allocator>(word: &'static str) -> FakeTable<A> {
    let (id, ends) = word.split_once(':').unwrap_or(("", word));
    let id = match id.as_bytes() {
        [digit] => number_of(*digit) as u64,
        _ => u64::MAX,
    };
    let range = range_of(ends);
    FakeTable { id, range }
}

// The tables of the words of a text.
pub fn tables_of<A: Allocator>(
    alloc: A,
    text: &'static str,
) -> Result<Vec<FakeTable<A>, A>, Error> {
    let mut tables = Vec::new(alloc);
    for word in text.split_whitespace() {
        tables.push(table_of(word))?;
    }
    Ok(tables)
}

// A run of the tables of the words of a text. Without words it is a run whose only table was
// removed.
pub fn run_of<A: Allocator>(alloc: A, text: &'static str) -> Result<Run<FakeTable<A>, A>, Error> {
    let is_emptied = text.trim().is_empty();
    let tables = tables_of(alloc, if is_emptied { "0:a-b" } else { text })?;
    match Run::new(tables) {
        Some(mut run) => {
            if is_emptied {
                run.inner_mut().clear();
            }
            Ok(run)
        }
        None => Err(Error::Source(0)),
    }
}

// Whether some tables have the ids of these digits.
pub fn has_ids<A: Allocator>(tables: &[FakeTable<A>], digits: &str) -> bool {
    let digits = digits.as_bytes();
    if tables.len() != digits.len() {
        return false;
    }
    for place in 0..digits.len() {
        if tables[place].id != number_of(digits[place]) as u64 {
            return false;
        }
    }
    true
}

// Whether a result equals a value. It is generic, so that a proof looks at no part of the value.
pub fn is_like<T: PartialEq + Drop, E: Drop>(made: Result<T, E>, value: &T) -> bool {
    match made {
        Ok(made) => made == *value,
        Err(_) => false,
    }
}

pub trait Example {
    // Whether all results are as expected; or `OutOfMemory`, where it may occur.
    fn is_so(&self, heap: &Refusing, may_fail: bool) -> bool;
}

// The number of requests for memory of an example, if it passes with each of them failing in turn.
pub fn requests<E: Example>(alloc: Global, example: &E) -> Result<usize, usize> {
    each_refused(alloc, |heap, may_fail| example.is_so(heap, may_fail))
}

// The index of the first of some examples that fails with some request for memory failing.
pub fn first_wrong<E: Example>(alloc: Global, examples: &[E]) -> Option<usize> {
    for place in 0..examples.len() {
        if requests(alloc, &examples[place]).is_err() {
            return Some(place);
        }
    }
    None
}
