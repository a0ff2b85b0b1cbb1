//! The unopened tables of a run.
ghost use Rattle.std.specs.Prelude.{◌≡◌, ◌+◌, ◌<◌, Some, IfOk, IfErr, length, slice_get};
ghost use Rattle.lsm_run_parts.specs.Words as spec;

use crate::bounds::share;
use crate::spans::{is_end, place_at_end, place_behind};
use lsm_iters::{Iter, Parts};
use lsm_readers::Table;
use lsm_sorted::Run;
use sst_blocks::{Error, UserKey};
use sst_entries::Direction;
use std::alloc::Allocator;
use std::marker::Model;
use std::ops::Bound;
use std::sync::Arc;

/// The tables of a span of a run that have no reader yet, and the number of readers made.
#[derive(Drop)]
pub struct Unopened<A: Allocator> {
    run: Arc<Run<Table<A>, A>, A>,
    range: (Bound<UserKey<A>>, Bound<UserKey<A>>),
    // the first and the last index of the span, whose tables are read within the bounds
    ends: (usize, usize),
    // the index of the first unopened table, and that after the last one
    lo: usize,
    hi: usize,
    opened: usize,
}

impl<A: Allocator> Model for Unopened<A> {
    ghost use Rattle.std.specs.Prelude.{◌≤◌, ◌+◌, length};
    ghost use Rattle.std.specs.Arc.{arc_value};
    ghost use Rattle.lsm_run_parts.specs.RunParts.{span_parts_between, span_of};
    ghost use Rattle.lsm_run_parts.specs.Tables.{Unopened};

    ghost Value = { Unopened };

    ghost view = { λ u. record {
      parts = span_parts_between (span_of u.ends u.range.0 u.range.1) (arc_value u.run) u.lo u.hi;
      opened = u.opened;
    } };

    ghost invariant = { λ u. (u.lo ≤ u.hi) × (u.hi ≤ length (arc_value u.run)) ×
        (u.opened + u.hi ≤ length (arc_value u.run) + u.lo) };
}

/// The reader of the table at an index: within the bounds where the span begins or ends there, else
/// of the whole table.
fn reader_at<A: Allocator + Clone>(
    tables: &[Table<A>],
    place: usize,
    ends: (usize, usize),
    range: &(Bound<UserKey<A>>, Bound<UserKey<A>>),
) -> Result<Iter<A>, Error>
    requires { place < length tables.now }
    ensures ok { let span = spec.span_of ends range.now.0 range.now.1 in
        (t : spec.OpenTable) → slice_get tables.now place ≡ Some t →
        IfOk result (spec.IsPartReader (spec.span_part_at span place t)) }
    ensures err { IfErr result (λ e. e ≡ spec.OutOfMemory) }
{
    let table = &tables[place];
    if is_end(place, ends) {
        table.range(share(&range.0)?, share(&range.1)?)
    } else {
        table.iter()
    }
}

impl<A: Allocator> Unopened<A> {
    /// Returns all tables of a span, from its first index to its last.
    pub fn new(
        run: Arc<Run<Table<A>, A>, A>,
        range: (Bound<UserKey<A>>, Bound<UserKey<A>>),
        ends: (usize, usize),
    ) -> Unopened<A>
        requires { spec.ArePlacesOf (spec.arc_value run) ends }
        ensures { let span = spec.span_of ends range.0 range.1 in
            result ≡ record { parts = spec.span_parts span (spec.arc_value run); opened = 0 } }
    {
        let hi = place_behind(run.as_slice(), ends.1);
        Unopened {
            run,
            range,
            ends,
            lo: ends.0,
            hi,
            opened: 0,
        }
    }

    /// Returns the number of readers made.
    pub fn opened(&self) -> usize
        ensures { result ≡ self.now.opened }
    {
        self.opened
    }
}

impl<A: Allocator + Clone> Parts for Unopened<A> {
    type Part = Iter<A>;

    ghost coming = { spec.coming_tables };

    ghost keeps = { spec.KeepsTables };

    ghost ends = { spec.EndsTables };

    /// Opens the table at an end, and counts it.
    ///
    /// # Errors
    ///
    /// [`Error::OutOfMemory`]. Nothing is counted then, and no table is left.
    #[inline(never)]
    fn load(&mut self, at: Direction) -> Option<Result<Iter<A>, Error>>
        ensures gives { let remains = spec.range_remains {A = A} in
            spec.LoadGives remains spec.coming_tables spec.KeepsTables at self.old result self.new }
        ensures counted { self.new.opened ≡ spec.opened_tables result + self.old.opened }
    {
        if self.lo == self.hi {
            return None;
        }
        let (place, lo, hi) = place_at_end(self.lo, self.hi, at);
        match reader_at(self.run.as_slice(), place, self.ends, &self.range) {
            Ok(reader) => {
                self.lo = lo;
                self.hi = hi;
                self.opened += 1;
                Some(Ok(reader))
            }
            Err(refusal) => {
                self.end();
                Some(Err(refusal))
            }
        }
    }

    fn end(&mut self) {
        self.lo = self.hi;
    }
}
