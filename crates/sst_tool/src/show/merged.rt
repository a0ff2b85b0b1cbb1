//! Prints the newest entries of several files as one list.
ghost use Rattle.std.specs.Prelude.{◌≡◌, ◌<◌, ◌∷◌, [], IfErr, IfOk, IfSome, MatchResult};
ghost use Rattle.std.specs.Prelude.{Option, length, map};
ghost use Rattle.sst_tool.specs.show.Words as spec;

use crate::files::ToolError;
use crate::lines::Format;
use crate::show::dumps::{bounds_of, print_entry};
use crate::show::{DumpOptions, NamedTable, dump};
use lsm_readers::Table;
use lsm_runs::{LentNewestOf, lend_runs_at, range_runs_at};
use lsm_sorted::{NewestOf, Run};
use sst_blocks::{EntryRef, Error, IterItem, Lending, SeqNo};
use std::alloc::Allocator;
use std::io;
use std::io::Write;
use std::sync::Arc;

// One run for each file, of one table.
type Runs<A> = Vec<Arc<Run<Table<A>, A>, A>, A>;

/// Writes the newest version of each key of all files together, one on each line, at most `most` of
/// them. Returns how many it wrote.
///
/// Versions with a sequence number below `seqno` are read. A key whose newest version is a
/// tombstone, weak or not, is left out. The order is that of the keys, or the reverse of it.
///
/// # Errors
///
/// Fails with [`ToolError::Unreadable`] for the first file whose range cannot be read, with
/// [`ToolError::Output`], and with `OutOfMemory`. Lines already written stay.
pub fn dump_merged<'a, A: Allocator + Copy, W: Write>(
    alloc: A,
    output: &mut W,
    files: &[NamedTable<'a, A>],
    options: &DumpOptions<'_>,
    seqno: SeqNo,
    most: u64,
) -> Result<u64, ToolError<'a>>
    // If the files store lists, these are the newest visible versions of all lists together that
    // are in the range and no tombstones.
    ensures list { spec.OnListsOf (spec.runs_in files.now) (λ lists. IfOk result (λ count.
        count ≡ length (spec.merged_entries options.now.reverse most
        (spec.newest_in options.now seqno lists)))) }
    // Whatever the bytes, if each key range is well formed and each file's entries in the range are
    // in order, all results that it read from the front are entries. No error is skipped.
    ensures returned { spec.IfReadInOrder options.now (spec.runs_in files.now)
        (IfOk result (spec.PrintsMerged most
        (spec.newest_found options.now seqno (spec.runs_in files.now)))) }
    // An error that names a file names the first whose range cannot be read, with the first error
    // in the range. It stores no list: if all do, no error names a file.
    ensures named { IfErr result (spec.NamesUnread options.now files.now) }
    ensures sound { spec.OnListsOf (spec.runs_in files.now) (λ _. IfErr result spec.NamesNone) }
{
    let runs = runs_of(alloc, files)?;
    match print_merged(alloc, output, &runs, options, seqno, most) {
        Ok(count) => Ok(count),
        Err(error) => Err(blame_merged(alloc, files, options, error)),
    }
}

// Returns one run for each file.
fn runs_of<'a, A: Allocator + Copy>(
    alloc: A,
    files: &[NamedTable<'a, A>],
) -> Result<Runs<A>, ToolError<'a>>
    ensures ok { IfOk result (λ runs. map spec.arc_value runs.items ≡ spec.runs_in files.now) }
    ensures unnamed { IfErr result spec.NamesNone }
{
    let mut runs = Vec::new(alloc);
    for file in files {
        let run = run_of(alloc, file.table.clone()?)?;
        runs.push(Arc::new(alloc, run)?)?;
    }
    Ok(runs)
}

fn run_of<'a, A: Allocator + Copy>(
    alloc: A,
    table: Table<A>,
) -> Result<Run<Table<A>, A>, ToolError<'a>>
    ensures ok { IfOk result (λ run. run ≡ table ∷ []) }
    ensures unnamed { IfErr result spec.NamesNone }
{
    let mut tables = Vec::new(alloc);
    tables.push(table)?;
    match Run::new(tables) {
        Some(run) => Ok(run),
        None => unreachable!(),
    }
}

// Prints the newest entries of runs. Returns how many it wrote.
fn print_merged<A: Allocator + Copy, W: Write>(
    alloc: A,
    output: &mut W,
    runs: &[Arc<Run<Table<A>, A>, A>],
    options: &DumpOptions<'_>,
    seqno: SeqNo,
    most: u64,
) -> Result<u64, ToolError<'static>>
    ensures list { spec.OnListsOf (map spec.arc_value runs.now) (λ lists. IfOk result (λ count.
        count ≡ length (spec.merged_entries options.now.reverse most
        (spec.newest_in options.now seqno lists)))) }
    ensures returned { spec.IfReadInOrder options.now (map spec.arc_value runs.now)
        (IfOk result (spec.PrintsMerged most
        (spec.newest_found options.now seqno (map spec.arc_value runs.now)))) }
    // No file is named yet.
    ensures unnamed { IfErr result (spec.FailsOnlyAs (λ _. Unit {0})) }
    ensures sound { spec.OnListsOf (map spec.arc_value runs.now) (λ _.
        IfErr result spec.NamesNone) }
{
    let bounds = bounds_of(alloc, options)?;
    if options.reverse {
        let newest = range_runs_at(alloc, runs, bounds, seqno)?;
        print_newest_back(alloc, output, newest, options.format, most)
    } else {
        let newest = lend_runs_at(alloc, runs, bounds, seqno)?;
        print_newest(alloc, output, newest, options.format, most)
    }
}

// Prints from the front, as `print_front`. Generic in the sources, so that their fields cost no
// proof here.
fn print_newest<L: Lending + Drop, A: Allocator + Copy, W: Write>(
    alloc: A,
    output: &mut W,
    mut newest: LentNewestOf<L, A>,
    format: Format,
    most: u64,
) -> Result<u64, ToolError<'static>>
    requires { spec.CanYield ⟦<LentNewestOf<L, A> as Lending>⟧.advances spec.nowhere
        ⟦<LentNewestOf<L, A> as Lending>⟧.can_advance
        ⟦<LentNewestOf<L, A> as Lending>⟧.can_advance newest }
    ensures unnamed { IfErr result (spec.FailsOnlyAs (λ _. Unit {0})) }
    ensures prints { spec.PrintsSteps ⟦<LentNewestOf<L, A> as Lending>⟧.advances newest most
        result }
{
    print_front(alloc, output, &mut newest, format, most)
}

// Prints from the back, as `print_back`. Generic in the sources too.
fn print_newest_back<I: DoubleEndedIterator<Item = IterItem<A>>, A: Allocator + Copy, W: Write>(
    alloc: A,
    output: &mut W,
    mut newest: NewestOf<I, A>,
    format: Format,
    most: u64,
) -> Result<u64, ToolError<'static>>
    requires can { let iter = ⟦<NewestOf<I, A> as DoubleEndedIterator>⟧ in
        spec.CanYield iter.next_gives iter.next_back_gives iter.can_next iter.can_next_back newest }
    ensures unnamed { IfErr result (spec.FailsOnlyAs (λ _. Unit {0})) }
    ensures prints { spec.PrintsSteps ⟦<NewestOf<I, A> as DoubleEndedIterator>⟧.next_back_gives
        newest most result }
{
    print_back(alloc, output, &mut newest, format, most)
}

// Prints entries, borrowed from their blocks, from the front on. Returns how many it wrote.
fn print_front<L: Lending, A: Allocator + Copy, W: Write>(
    alloc: A,
    output: &mut W,
    source: &mut L,
    format: Format,
    most: u64,
) -> Result<u64, ToolError<'static>>
    requires { spec.CanYield L.advances spec.nowhere L.can_advance L.can_advance source.old }
    ensures unnamed { IfErr result (spec.FailsOnlyAs (λ _. Unit {0})) }
    ensures prints { spec.PrintsSteps L.advances source.old most result }
{
    let mut left = most;
    // No item after the last is read.
    while left > 0 {
        let Some(count) = print_next(alloc, output, source, format)? else {
            return Ok(most - left);
        };
        left -= count;
    }
    Ok(most)
}

// Prints entries from the back on. Returns how many it wrote.
fn print_back<I: DoubleEndedIterator<Item = IterItem<A>>, A: Allocator + Copy, W: Write>(
    alloc: A,
    output: &mut W,
    items: &mut I,
    format: Format,
    most: u64,
) -> Result<u64, ToolError<'static>>
    requires can { spec.CanYield I.next_gives I.next_back_gives I.can_next I.can_next_back
        items.old }
    requires finite { spec.IsFinite (I.remaining items.old) }
    ensures unnamed { IfErr result (spec.FailsOnlyAs (λ _. Unit {0})) }
    ensures prints { spec.PrintsSteps I.next_back_gives items.old most result }
{
    let mut left = most;
    while left > 0 {
        let Some(count) = print_last(alloc, output, items, format)? else {
            return Ok(most - left);
        };
        left -= count;
    }
    Ok(most)
}

// Prints the next entry unless it is a tombstone. Returns the number of lines, or `None` after the
// last entry.
fn print_next<L: Lending, A: Allocator + Copy, W: Write>(
    alloc: A,
    output: &mut W,
    source: &mut L,
    format: Format,
) -> Result<Option<u64>, ToolError<'static>>
    requires { L.can_advance source.old }
    ensures shows { (item : Option spec.Outcome) × L.advances source.old item source.new
        × spec.ShowsLive item result }
    ensures lowers { IfOk result (λ shown. IfSome shown (λ _.
        L.left source.new < L.left source.old)) }
{
    source.advance()?;
    let Some(entry) = source.entry() else {
        return Ok(None);
    };
    Ok(Some(print_live(alloc, output, &entry, format)?))
}

// Prints the last entry unless it is a tombstone. A `DoubleEndedIterator` yields it by value.
// Returns the number of lines, or `None` if no entry is left.
fn print_last<I: DoubleEndedIterator<Item = IterItem<A>>, A: Allocator + Copy, W: Write>(
    alloc: A,
    output: &mut W,
    items: &mut I,
    format: Format,
) -> Result<Option<u64>, ToolError<'static>>
    requires { I.can_next_back items.old }
    ensures shows { (item : Option spec.Outcome) × I.next_back_gives items.old item items.new
        × spec.ShowsLive item result }
    ensures lowers { let was = I.remaining items.old in let left = I.remaining items.new in
        spec.IsFinite was → IfOk result (λ r. IfSome r (λ _.
        spec.IsFinite left × (spec.size left < spec.size was))) }
{
    let Some(item) = items.next_back() else {
        return Ok(None);
    };
    Ok(Some(print_live(alloc, output, &item?.as_entry_ref(), format)?))
}

// Prints an entry unless it is a tombstone. Returns the number of lines.
fn print_live<A: Allocator + Copy, W: Write>(
    alloc: A,
    output: &mut W,
    entry: &EntryRef<'_>,
    format: Format,
) -> Result<u64, ToolError<'static>>
    ensures { MatchResult result (λ count. count ≡ spec.merged_lines (spec.entry_of_ref entry.now))
        spec.NamesNone }
{
    if entry.is_tombstone() {
        return Ok(0);
    }
    print_entry(alloc, output, entry, format)?;
    Ok(1)
}

// Returns the error of reading the files together, with the file that it comes from.
fn blame_merged<'a, A: Allocator + Copy>(
    alloc: A,
    files: &[NamedTable<'a, A>],
    options: &DumpOptions<'_>,
    error: ToolError<'a>,
) -> ToolError<'a>
    ensures named { spec.FailsOnlyAs (λ _. Unit {0}) error.entry →
        spec.NamesUnread options.now files.now result }
    ensures none { spec.NamesNone error.entry → spec.NamesNone result }
{
    match error {
        ToolError::Refused(Error::OutOfMemory) => ToolError::Refused(Error::OutOfMemory),
        ToolError::Refused(error) => first_unread(alloc, files, options, error),
        error => error,
    }
}

// Returns the error of the first file whose range cannot be read, or the given one.
fn first_unread<'a, A: Allocator + Copy>(
    alloc: A,
    files: &[NamedTable<'a, A>],
    options: &DumpOptions<'_>,
    error: Error,
) -> ToolError<'a>
    ensures { spec.NamesUnread options.now files.now result }
{
    for file in files {
        if let Err(unread) = dump(alloc, &mut io::sink(), file, options, u64::MAX) {
            return unread;
        }
    }
    ToolError::Refused(error)
}
