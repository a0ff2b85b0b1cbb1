//! Readers and scanners of one run: within bounds and of a span, from both ends, and with a damaged
//! table.
//!
//! They yield whole entries of each kind, by value, as lending iterators, and both in turn. Most
//! functions that call them are generic in them, so that a proof looks at none of their parts.
ghost use Rattle.std.specs.Prelude.{◌≡◌, ◌-◌, ◌<◌, ◌≤◌, true, IfOk, length, unwrap_or};
ghost use Rattle.test_reads.specs.Words as spec;

use lsm_tables::run::{RunReader, RunScanner};
use sst_blocks::{Direction, Error, IterItem, Lending, ValueType};
use std::alloc::{Allocator, Global};
use std::ops::Bound;
use test_support::samples::lending::walk_both;
use test_support::samples::rows::Row;
use test_support::samples::runs::{ALL, Bounds, Lists, Tables, damaged_run_of, owned_range};
use test_support::samples::whole::{A7, A9, B6, B8, C5, D2, D3, is_answer};

/// The result of a step: the entry of a row, nothing, or an error.
pub(crate) type Answer = Result<Option<Row<'static>>, Error>;

/// Whether a step has the result that is wanted.
pub(crate) fn is_given<A: Allocator>(given: &Option<IterItem<A>>, wanted: &Answer) -> bool {
    match (given, wanted) {
        (Some(Err(error)), Err(refusal)) => *error == *refusal,
        (_, Ok(row)) => is_answer(given, row.as_ref()),
        (_, Err(_)) => false,
    }
}

// Whether a step has the wanted result; the step's error if it has another one.
fn answers<A: Allocator>(given: Option<IterItem<A>>, wanted: &Answer) -> Result<bool, Error> {
    if is_given(&given, wanted) {
        return Ok(true);
    }
    match given {
        Some(Err(error)) => Err(error),
        Some(Ok(_)) | None => Ok(false),
    }
}

// An iterator of a run.
trait Walk {
    // Whether the step at an end has the result that is wanted, as `answers` returns it. A scan has
    // nothing at the back.
    fn gives(&mut self, end: Direction, wanted: &Answer) -> Result<bool, Error>;

    // How many tables were opened; a scan does not count them.
    fn opened(&self) -> usize;
}

impl<A: Allocator + Copy> Walk for RunReader<A> {
    fn gives(&mut self, end: Direction, wanted: &Answer) -> Result<bool, Error> {
        match end {
            Direction::Front => answers(self.next(), wanted),
            Direction::Back => answers(self.next_back(), wanted),
        }
    }

    fn opened(&self) -> usize {
        self.tables_opened()
    }
}

impl<A: Allocator + Copy> Walk for RunScanner<A> {
    fn gives(&mut self, end: Direction, wanted: &Answer) -> Result<bool, Error> {
        match end {
            Direction::Front => answers(self.next(), wanted),
            Direction::Back => answers::<A>(None, wanted),
        }
    }

    fn opened(&self) -> usize {
        0
    }
}

// Some steps, three bytes each. The first byte is the end: `F` for the front, `B` for the back. The
// second is a letter for the index of the row in all tables. It is `.` for nothing, or `!` for the
// error of a damaged block. The third is the number of tables opened so far.
type Steps = &'static [u8];

/// The row at an index in all tables of a run, or which index it is after them.
pub(crate) fn row_at(tables: Lists, place: usize) -> Result<Row<'static>, usize> {
    let mut left = place;
    for rows in tables {
        match rows.get(left) {
            Some(row) => return Ok(*row),
            None => left = left.saturating_sub(rows.len()),
        }
    }
    Err(left)
}

// The result that a letter is for.
fn wanted_at(tables: Lists, letter: u8) -> Answer {
    match letter {
        b'.' => Ok(None),
        b'!' => Err(Error::ChecksumMismatch),
        _ => Ok(row_at(tables, usize::from(letter.saturating_sub(b'a'))).ok()),
    }
}

// Whether no table was opened yet, and the steps have the results that they should.
fn steps_give<W: Walk>(walk: &mut W, tables: Lists, steps: Steps) -> Result<bool, Error> {
    if walk.opened() != 0 {
        return Ok(false);
    }
    for step in steps.chunks(3) {
        let &[end, letter, opened] = step else {
            return Ok(false);
        };
        let end = if end == b'F' { F } else { B };
        let is_given = walk.gives(end, &wanted_at(tables, letter))?;
        if !is_given || walk.opened() != usize::from(opened.saturating_sub(b'0')) {
            return Ok(false);
        }
    }
    Ok(true)
}

// Whether nothing is left at either end.
fn is_over<W: Walk>(walk: &mut W) -> bool {
    walk.gives(F, &NOTHING) == Ok(true) && walk.gives(B, &NOTHING) == Ok(true)
}

// Whether the steps have these results, and nothing follows at either end. Returns the error of a
// step that should not fail, if nothing follows it.
fn gives_or_ends<W: Walk>(walk: &mut W, tables: Lists, steps: Steps) -> Result<bool, Error> {
    let given = steps_give(walk, tables, steps);
    if is_over(walk) { given } else { Ok(false) }
}

// Whether there is a reader that yields these steps, or no reader where there are no steps. A
// reader that yields nothing is not the same as none.
fn gives<W: Walk + Drop>(
    walk: Result<Option<W>, Error>,
    tables: Lists,
    steps: Option<Steps>,
) -> Result<bool, Error> {
    match (walk?, steps) {
        (Some(mut walk), Some(steps)) => gives_or_ends(&mut walk, tables, steps),
        (None, None) => Ok(true),
        _ => Ok(false),
    }
}

// The index of a first and a last table, where they are not those of all tables.
type Span = (Option<usize>, Option<usize>);

const WHOLE: Span = (None, None);

// Whether some tables have a span.
fn has_span(count: usize, span: Span) -> bool
    ensures { result ≡ true → (unwrap_or span.0 0 ≤ unwrap_or span.1 (count - 1)) ×
        (unwrap_or span.1 (count - 1) < count) }
{
    let last = span.1.unwrap_or(count.saturating_sub(1));
    if last >= count {
        return false;
    }
    span.0.unwrap_or(0) <= last
}

// The run, where it has a span. `Source(3)` where it has none.
fn spanned<A: Allocator>(run: Result<Tables<A>, Error>, span: Span) -> Result<Tables<A>, Error>
    ensures { IfOk result (λ run. let tables = spec.arc_value run in
        spec.ArePlacesOf tables (unwrap_or span.0 0, unwrap_or span.1 (length tables - 1))) }
{
    let run = run?;
    if has_span(run.as_slice().len(), span) {
        Ok(run)
    } else {
        Err(Error::Source(3))
    }
}

// How a run is read: within bounds, by a span of it within bounds, or by a scan of a span.
#[derive(Clone, Copy)]
enum How {
    Within,
    Span(Span),
    Scan(Span),
}

// The tables of a run, and the index of the damaged one.
type Given = (Lists, usize);

// Bounds, how a run is read, and the steps, if there is a reader.
type Case = (Bounds<'static>, How, Option<Steps>);

// The reader of the entries within bounds, if any table may have some.
fn reader_of<A: Allocator + Copy>(
    alloc: A,
    given: Given,
    bounds: Bounds<'_>,
) -> Result<Option<RunReader<A>>, Error> {
    let range = owned_range(alloc, bounds)?;
    RunReader::new(damaged_run_of(alloc, given.0, given.1)?, range)
}

// The reader of a span within bounds. Fails with `Source(3)` if there is no such span.
fn span_reader_of<A: Allocator + Copy>(
    alloc: A,
    given: Given,
    bounds: Bounds<'_>,
    span: Span,
) -> Result<RunReader<A>, Error> {
    let run = spanned(damaged_run_of(alloc, given.0, given.1), span)?;
    let range = owned_range(alloc, bounds)?;
    RunReader::culled(run, range, span)
}

// The scanner of a span. Fails with `Source(3)` if there is no such span.
fn scanner_of<A: Allocator + Copy>(
    alloc: A,
    given: Given,
    span: Span,
) -> Result<RunScanner<A>, Error> {
    RunScanner::culled(
        spanned(damaged_run_of(alloc, given.0, given.1), span)?,
        span,
    )
}

// A value as an option.
fn some<T: Drop>(made: Result<T, Error>) -> Result<Option<T>, Error> {
    Ok(Some(made?))
}

// Whether a run reads as its case; or an error that is not in the case, if nothing follows it.
fn reads<A: Allocator + Copy>(alloc: A, given: Given, case: &Case) -> Result<bool, Error> {
    let &(bounds, how, steps) = case;
    match how {
        How::Within => gives(reader_of(alloc, given, bounds), given.0, steps),
        How::Span(span) => gives(
            some(span_reader_of(alloc, given, bounds, span)),
            given.0,
            steps,
        ),
        How::Scan(span) => gives(some(scanner_of(alloc, given, span)), given.0, steps),
    }
}

// The index of the first case that differs.
fn wrong_case(alloc: Global, given: Given, cases: &[Case]) -> Option<usize> {
    for (place, case) in cases.iter().enumerate() {
        if reads(alloc, given, case) != Ok(true) {
            return Some(place);
        }
    }
    None
}

const F: Direction = Direction::Front;

const B: Direction = Direction::Back;

const NOTHING: Answer = Ok(None);

const A0: Row<'static> = (b"a", 0, ValueType::Value, b"x");

const B0: Row<'static> = (b"b", 0, ValueType::Value, b"x");

const C0: Row<'static> = (b"c", 0, ValueType::Value, b"x");

const D0: Row<'static> = (b"d", 0, ValueType::Value, b"x");

const E0: Row<'static> = (b"e", 0, ValueType::Value, b"x");

const F0: Row<'static> = (b"f", 0, ValueType::Value, b"x");

const G0: Row<'static> = (b"g", 0, ValueType::Value, b"x");

const H0: Row<'static> = (b"h", 0, ValueType::Value, b"x");

const I0: Row<'static> = (b"i", 0, ValueType::Value, b"x");

const J0: Row<'static> = (b"j", 0, ValueType::Value, b"x");

const K0: Row<'static> = (b"k", 0, ValueType::Value, b"x");

const L0: Row<'static> = (b"l", 0, ValueType::Value, b"x");

const UNDER_B: Bounds<'static> = (Bound::Unbounded, Bound::Excluded(b"b"));

const FROM_G: Bounds<'static> = (Bound::Included(b"g"), Bound::Unbounded);

const FROM_Y: Bounds<'static> = (Bound::Included(b"y"), Bound::Unbounded);

const FROM_C_TO_G: Bounds<'static> = (Bound::Included(b"c"), Bound::Included(b"g"));

const FROM_Y_TO_Z: Bounds<'static> = (Bound::Included(b"y"), Bound::Included(b"z"));

const FROM_E_TO_D: Bounds<'static> = (Bound::Included(b"e"), Bound::Included(b"d"));

const FROM_E_BEFORE_D: Bounds<'static> = (Bound::Included(b"e"), Bound::Excluded(b"d"));

const FROM_K_TO_B: Bounds<'static> = (Bound::Included(b"k"), Bound::Included(b"b"));

const FOUR_TABLES: Lists = &[&[A0, B0, C0], &[D0, E0, F0], &[G0, H0, I0], &[J0, K0, L0]];

const OF_FOUR: &[Case] = &[
    (
        ALL,
        How::Within,
        Some(b"Fa1Bl2Fb2Bk2Fc2Bj2Fd3Bi4Fe4Bh4Ff4Bg4F.4B.4"),
    ),
    (
        ALL,
        How::Span((Some(1), Some(2))),
        Some(b"Fd1Bi2Fe2Ff2Bh2Fg2B.2"),
    ),
    (
        ALL,
        How::Scan((Some(1), None)),
        Some(b"Fd0Fe0Ff0Fg0Fh0Fi0Fj0Fk0Fl0F.0"),
    ),
    (
        ALL,
        How::Within,
        Some(b"Fa1Fb1Fc1Fd2Fe2Ff2Fg3Fh3Fi3Fj4Fk4Fl4F.4"),
    ),
    (
        ALL,
        How::Within,
        Some(b"Bl1Bk1Bj1Bi2Bh2Bg2Bf3Be3Bd3Bc4Bb4Ba4B.4"),
    ),
    (FROM_C_TO_G, How::Within, Some(b"Fc1Bg2Bf3Fd3Fe3F.3")),
    (FROM_G, How::Within, Some(b"Fg1Fh1Fi1Fj2Fk2Fl2F.2")),
    (FROM_G, How::Within, Some(b"Bl1Bk1Bj1Bi2Bh2Bg2B.2")),
    // Past the last key of a run there is no reader.
    (FROM_Y, How::Within, None),
    (FROM_Y_TO_Z, How::Within, None),
    // From `e` to `d` both included the table of both is in the span; where `d` is left out none
    // starts before it.
    (FROM_E_TO_D, How::Within, Some(b"F.1B.1")),
    (FROM_E_BEFORE_D, How::Within, None),
    (FROM_K_TO_B, How::Within, None),
    (
        ALL,
        How::Span((Some(1), None)),
        Some(b"Fd1Fe1Ff1Fg2Fh2Fi2Fj3Fk3Fl3F.3"),
    ),
    (
        ALL,
        How::Span((None, Some(1))),
        Some(b"Bf1Be1Bd1Bc2Bb2Ba2B.2"),
    ),
    // The two tables at the ends have no key within the bounds; those between are read whole.
    (FROM_Y, How::Span(WHOLE), Some(b"Fd2Fe2Ff2Fg3Fh3Fi3F.4F.4")),
    // One key of the first table is within the bounds, and none of the last.
    (UNDER_B, How::Span(WHOLE), Some(b"Bi2Bh2Bg2Fa3Bf4Be4Bd4B.4")),
    // A table that both ends meet in is opened once.
    (ALL, How::Span((Some(2), Some(2))), Some(b"Fg1Bi1Fh1B.1")),
    (
        ALL,
        How::Scan(WHOLE),
        Some(b"Fa0Fb0Fc0Fd0Fe0Ff0Fg0Fh0Fi0Fj0Fk0Fl0F.0"),
    ),
    (
        ALL,
        How::Scan((None, Some(1))),
        Some(b"Fa0Fb0Fc0Fd0Fe0Ff0F.0"),
    ),
    (ALL, How::Scan((Some(2), Some(2))), Some(b"Fg0Fh0Fi0F.0")),
];

// Entries of each kind, which are yielded whole.
const EACH_KIND: Lists = &[&[A9, A7, B8, B6], &[C5, D3, D2]];

const OF_EACH_KIND: &[Case] = &[
    (ALL, How::Within, Some(b"Fa1Fb1Fc1Fd1Fe2Ff2Fg2F.2")),
    (ALL, How::Within, Some(b"Bg1Bf1Be1Bd2Bc2Bb2Ba2B.2")),
    (ALL, How::Scan(WHOLE), Some(b"Fa0Fb0Fc0Fd0Fe0Ff0Fg0F.0")),
];

const THREE_TABLES: Lists = &[&[A0, B0], &[C0, D0], &[E0, F0]];

// The second is damaged, which ends a reader at both ends, and a scan; the others have entries
// left.
const OF_A_DAMAGED_ONE: &[Case] = &[
    (ALL, How::Within, Some(b"Fa1Fb1F!2F.2B.2")),
    (ALL, How::Within, Some(b"Bf1Fa2Be2B!3F.3")),
    (ALL, How::Scan(WHOLE), Some(b"Fa0Fb0F!0F.0F.0")),
];

/// The index of the case of a reader that is called at both ends in turn.
pub(crate) const IN_TURN_WITHIN: usize = 0;

/// The index of the case of a reader of a span.
pub(crate) const IN_TURN_BY_SPAN: usize = 1;

/// The index of the case of a scan.
pub(crate) const BY_SCAN: usize = 2;

/// Whether a run reads as the case at an index, or is exhausted after an error.
pub(crate) fn case_is_read<A: Allocator + Copy>(alloc: A, place: usize) -> Result<bool, Error> {
    match OF_FOUR.get(place) {
        Some(case) => reads(alloc, (FOUR_TABLES, 4), case),
        None => Ok(false),
    }
}

// Making a scan fails if the first table is damaged.
const REFUSED_SCAN: Case = (ALL, How::Scan(WHOLE), None);

#[test]
fn a_run_is_read_within_bounds_and_by_spans(rt: HostRuntime) {
    let alloc = rt.alloc();
    assert!(rt; wrong_case(alloc, (FOUR_TABLES, 4), OF_FOUR) == None);
    assert!(rt; wrong_case(alloc, (EACH_KIND, 2), OF_EACH_KIND) == None);
    assert!(rt; wrong_case(alloc, (THREE_TABLES, 1), OF_A_DAMAGED_ONE) == None);
    let refused = reads(alloc, (THREE_TABLES, 0), &REFUSED_SCAN);
    assert!(rt; refused == Err(Error::ChecksumMismatch));
}

const LENT_TABLES: Lists = &[
    &[
        (b"a", 2, ValueType::Value, b"x"),
        (b"a", 1, ValueType::Value, b"y"),
    ],
    &[(b"b", 3, ValueType::Tombstone, b"")],
    &[
        (b"c", 5, ValueType::Value, b"z"),
        (b"d", 4, ValueType::Value, b""),
    ],
];

// The result of a scan of a run by value and a lending one, with the table at an index damaged.
fn lent(alloc: Global, damaged: usize) -> Result<Option<(usize, u8)>, Error> {
    walk_both(
        scanner_of(alloc, (LENT_TABLES, damaged), WHOLE),
        scanner_of(alloc, (LENT_TABLES, damaged), WHOLE),
    )
}

#[test]
fn a_scan_of_a_run_lends_what_it_gives(rt: HostRuntime) {
    for (damaged, walk) in [(3, (5, 0)), (2, (3, 5)), (1, (2, 5))] {
        assert!(rt; lent(rt.alloc(), damaged) == Ok(Some(walk)));
    }
}

// The result of a reader of a run by value and a lending one, with the table at an index damaged.
fn range_lent(alloc: Global, damaged: usize) -> Result<Option<(usize, u8)>, Error> {
    walk_both(
        span_reader_of(alloc, (LENT_TABLES, damaged), ALL, WHOLE),
        span_reader_of(alloc, (LENT_TABLES, damaged), ALL, WHOLE),
    )
}

#[test]
fn a_range_of_a_run_lends_what_it_gives(rt: HostRuntime) {
    for (damaged, walk) in [(3, (5, 0)), (2, (3, 5)), (1, (2, 5))] {
        assert!(rt; range_lent(rt.alloc(), damaged) == Ok(Some(walk)));
    }
}

// ---- a reader, lending and by value in turn

// Whether a reader, as a lending iterator, yields the entry of a row next, or nothing if there is
// no row.
fn lends_row(reader: &mut RunReader<Global>, row: Option<&Row<'_>>) -> Result<bool, Error> {
    let more = reader.advance()?;
    match (reader.entry(), row) {
        (Some(entry), Some(row)) => {
            let key = (entry.user_key, entry.seqno, entry.value_type);
            Ok(more && key == (row.0, row.1, row.2) && entry.value == row.3)
        }
        (None, None) => Ok(!more),
        _ => Ok(false),
    }
}

// Whether a reader yields the entry of a row at an end, or nothing if there is no row, and has no
// borrowed entry after that.
fn gives_row(reader: &mut RunReader<Global>, end: Direction, row: Option<&Row<'_>>) -> bool {
    let given = match end {
        Direction::Front => reader.next(),
        Direction::Back => reader.next_back(),
    };
    is_answer(&given, row) && reader.entry().is_none()
}

// Turns, a byte each: `L` for a lending step, `F` and `B` for a step by value at the front and at
// the back. Then the row of each, by a letter for its index in all tables, or `.` for none.
type Turns = (&'static [u8], &'static [u8]);

// Whether a reader of all rows yields these items in turn.
fn takes_turns(alloc: Global, turns: &Turns) -> Result<bool, Error> {
    let mut reader = span_reader_of(alloc, (LENT_TABLES, 3), ALL, WHOLE)?;
    let mut is_so = reader.entry().is_none();
    for (turn, letter) in turns.0.iter().zip(turns.1.iter()) {
        let wanted = wanted_at(LENT_TABLES, *letter)?;
        is_so &= match *turn {
            b'L' => lends_row(&mut reader, wanted.as_ref())?,
            b'F' => gives_row(&mut reader, F, wanted.as_ref()),
            _ => gives_row(&mut reader, B, wanted.as_ref()),
        };
    }
    Ok(is_so)
}

const TURNS: &[Turns] = &[
    (b"LBFLBLFB", b"aebcd..."),
    (b"FLBBLFLB", b"abedc..."),
    (b"BLLFLBFL", b"eabcd..."),
    (b"LLLLLLFB", b"abcde..."),
    (b"BBBBLBLF", b"edcba..."),
];

#[test]
fn a_range_of_a_run_lends_and_gives_by_turns(rt: HostRuntime) {
    for turns in TURNS {
        assert!(rt; takes_turns(rt.alloc(), turns) == Ok(true));
    }
}
