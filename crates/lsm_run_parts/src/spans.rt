//! Spans of runs: consecutive tables, by the first and the last index.
ghost use Rattle.std.specs.Prelude.{◌≡◌, ◌+◌, ◌<◌, ◌≤◌, ◌==◌, ◌||◌, IfSome, length};
ghost use Rattle.lsm_run_parts.specs.Words as spec;

use crate::bounds::edge;
use lsm_readers::Table;
use lsm_sorted::Run;
use sst_blocks::UserKey;
use sst_entries::Direction;
use std::alloc::Allocator;
use std::ops::Bound;

/// Returns the first and the last index of the tables that overlap both bounds, of a run in order.
///
/// A table overlaps them if its key range reaches past both. For a run out of order, the result is
/// some first and last index, or `None`.
pub fn places_within<A: Allocator>(
    run: &Run<Table<A>, A>,
    range: &(Bound<UserKey<A>>, Bound<UserKey<A>>),
) -> Option<(usize, usize)>
    ensures found { spec.IsInOrder spec.range_of run.now →
        result ≡ spec.overlap_indexes range.now.0 range.now.1 (spec.ranges_of run.now) }
    ensures within { IfSome result (λ ends. spec.ArePlacesOf run.now ends) }
{
    run.range_overlap_indexes(edge(&range.0), edge(&range.1))
}

/// Returns the first and the last index, by default those of all tables.
pub fn ends_in<A: Allocator>(
    tables: &[Table<A>],
    span: (Option<usize>, Option<usize>),
) -> (usize, usize)
    requires { 0 < length tables.now }
    ensures { result ≡ spec.ends_given tables.now span }
{
    (span.0.unwrap_or(0), span.1.unwrap_or(tables.len() - 1))
}

/// Whether a span begins or ends at an index.
pub(crate) fn is_end(place: usize, ends: (usize, usize)) -> bool
    ensures { result ≡ ((place == ends.0) || (place == ends.1)) }
{
    place == ends.0 || place == ends.1
}

/// Returns the index after that of a table.
pub fn place_behind<T>(tables: &[T], place: usize) -> usize
    requires { place < length tables.now }
    ensures { result ≡ place + 1 }
{
    place + 1
}

/// The index at an end of the range from `lo` to `hi`, and the range that is left.
pub(crate) fn place_at_end(lo: usize, hi: usize, at: Direction) -> (usize, usize, usize)
    requires { lo < hi }
    ensures is { result ≡ spec.place_taken at lo hi }
    ensures within { (lo ≤ result.0) × (result.0 < hi) }
    ensures fewer { result.2 + lo + 1 ≡ hi + result.1 }
    ensures order { result.1 ≤ result.2 }
    ensures behind { result.2 ≤ hi }
{
    match at {
        Direction::Front => (lo, lo + 1, hi),
        Direction::Back => (hi - 1, lo, hi - 1),
    }
}
