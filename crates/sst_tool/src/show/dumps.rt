//! Prints the entries of files, one on each line.
ghost use Rattle.std.specs.Prelude.{◌≡◌, ◌-◌, IfErr, IfOk, List, OnOk, Option, Some, length};
ghost use Rattle.sst_tool.specs.show.Words as spec;

use crate::files::ToolError;
use crate::lines::{Format, append_entry};
use crate::show::NamedTable;
use lsm_readers::Table;
use sst_blocks::{EntryRef, IterItem, Lending, Slice, UserKey};
use std::alloc::Allocator;
use std::io::Write;
use std::ops::Bound;

/// The entries of a file to print, and their format.
#[derive(Clone, Copy, Debug)]
pub struct DumpOptions<'a> {
    /// The first key, if there is one. Smaller keys are skipped.
    pub from: Option<&'a [u8]>,
    /// The end of the keys, excluded, if there is one.
    pub to: Option<&'a [u8]>,
    /// Whether the entries are printed from the last to the first.
    pub reverse: bool,
    /// The format of an entry's line.
    pub format: Format,
}

/// Writes entries of a file, one on each line, at most `left` of them. Returns `left` less those
/// written.
///
/// # Errors
///
/// Fails with the first error of the file's blocks, with [`ToolError::Output`], and with
/// `OutOfMemory`. Lines already written stay.
pub fn dump<'a, A: Allocator + Copy, W: Write>(
    alloc: A,
    output: &mut W,
    file: &NamedTable<'a, A>,
    options: &DumpOptions<'_>,
    left: u64,
) -> Result<u64, ToolError<'a>>
    // Whatever the bytes, on success all items in the range, in this order and up to this number,
    // are entries. No error is skipped.
    ensures returned { OnOk result (spec.AreAllEntries
        (spec.dumped options.now.reverse left (spec.readable options.now file.now.table))) }
    // If the bytes store a list, these are its entries.
    ensures left { spec.OnStored file.now.table (λ es. IfOk result (λ rest. rest ≡
        left - length (spec.dumped options.now.reverse left
        (spec.chosen options.now file.now.table es)))) }
    ensures rest { IfOk result (λ rest. rest ≡
        left - length (spec.dumped options.now.reverse left
        (spec.readable options.now file.now.table))) }
    // An error that names a file names this one, with the first error in the range. Its bytes store
    // no list then.
    ensures named { let read = spec.dumped options.now.reverse left
        (spec.readable options.now file.now.table)
        in IfErr result (spec.NamesOnly file.now (λ e. spec.first_error read ≡ Some e)) }
    ensures sound { spec.OnStored file.now.table (λ _. IfErr result spec.NamesNone) }
{
    match dump_table(alloc, output, &file.table, options, left) {
        Ok(rest) => Ok(rest),
        Err(error) => Err(file.blame(alloc, error)),
    }
}

// Prints the entries of one table. Returns how many more may be written.
fn dump_table<A: Allocator + Copy, W: Write>(
    alloc: A,
    output: &mut W,
    table: &Table<A>,
    options: &DumpOptions<'_>,
    left: u64,
) -> Result<u64, ToolError<'static>>
    ensures returned { OnOk result (spec.AreAllEntries
        (spec.dumped options.now.reverse left (spec.readable options.now table.now))) }
    ensures left { spec.OnStored table.now (λ es. IfOk result (λ rest. rest ≡
        left - length (spec.dumped options.now.reverse left
        (spec.chosen options.now table.now es)))) }
    ensures rest { IfOk result (λ rest. rest ≡
        left - length (spec.dumped options.now.reverse left
        (spec.readable options.now table.now))) }
    ensures refused { let read = spec.dumped options.now.reverse left
        (spec.readable options.now table.now) in
        IfErr result (spec.FailsAs (λ e. spec.first_error read ≡ Some e)) }
    ensures sound { spec.OnStored table.now (λ _. IfErr result spec.NamesNone) }
{
    let bounds = bounds_of(alloc, options)?;
    let items = table.range(bounds.0, bounds.1)?;
    dump_items(alloc, output, items, options, left)
}

/// Returns the bounds of the range. Fails only if memory runs out.
pub(crate) fn bounds_of<A: Allocator + Copy>(
    alloc: A,
    options: &DumpOptions<'_>,
) -> Result<(Bound<UserKey<A>>, Bound<UserKey<A>>), ToolError<'static>>
    ensures lower { IfOk result (λ bounds. bounds.0 ≡ spec.from_key options.now.from) }
    ensures upper { IfOk result (λ bounds. bounds.1 ≡ spec.up_to_key options.now.to) }
    ensures memory { IfErr result spec.NamesNone }
{
    let lower = match options.from {
        None => Bound::Unbounded,
        Some(key) => Bound::Included(Slice::from(alloc, key)?),
    };
    let upper = match options.to {
        None => Bound::Unbounded,
        Some(key) => Bound::Excluded(Slice::from(alloc, key)?),
    };
    Ok((lower, upper))
}

// Generic in the iterator, so that its fields cost no proof here.
fn dump_items<
    I: Lending + DoubleEndedIterator<Item = IterItem<A>> + Drop,
    A: Allocator + Copy,
    W: Write,
>(
    alloc: A,
    output: &mut W,
    mut items: I,
    options: &DumpOptions<'_>,
    most: u64,
) -> Result<u64, ToolError<'static>>
    requires can { spec.CanYield I.advances I.next_back_gives I.can_advance I.can_next_back items }
    // It prints the first items, or in reverse the last ones, and all of them are entries.
    ensures returned { (rs : List spec.Outcome) →
        spec.DealsTo I.advances I.next_back_gives rs items →
        OnOk result (spec.AreAllEntries (spec.dumped options.now.reverse most rs)) }
    ensures left { (rs : List spec.Outcome) → spec.DealsTo I.advances I.next_back_gives rs items →
        IfOk result (λ rest. rest ≡ most - length (spec.dumped options.now.reverse most rs)) }
    // It fails with the first error among these items.
    ensures refused { spec.OnEnding I.advances I.next_back_gives items (λ rs.
        IfErr result (spec.FailsAs (λ e. spec.first_error (spec.dumped options.now.reverse most rs)
        ≡ Some e))) }
    ensures sound { (es : List spec.Entry) → spec.YieldsList I.advances I.next_back_gives es items →
        IfErr result spec.NamesNone }
{
    let mut left = most;
    // No item after the last is read.
    while left > 0 {
        if !print_item(alloc, output, &mut items, options)? {
            return Ok(left);
        }
        left -= 1;
    }
    Ok(0)
}

// Prints the next entry, or in reverse the last one. Returns whether there was one.
fn print_item<I: Lending + DoubleEndedIterator<Item = IterItem<A>>, A: Allocator + Copy, W: Write>(
    alloc: A,
    output: &mut W,
    items: &mut I,
    options: &DumpOptions<'_>,
) -> Result<bool, ToolError<'static>>
    requires can { I.can_advance items.old }
    requires can_back { I.can_next_back items.old }
    ensures { spec.ShowsInTurn I.advances I.next_back_gives options.now.reverse items.old result
        items.new }
{
    if options.reverse {
        print_last(alloc, output, items, options.format)
    } else {
        print_next(alloc, output, items, options.format)
    }
}

// Prints the next entry, borrowed from its block.
fn print_next<I: Lending, A: Allocator + Copy, W: Write>(
    alloc: A,
    output: &mut W,
    items: &mut I,
    format: Format,
) -> Result<bool, ToolError<'static>>
    requires { I.can_advance items.old }
    ensures { (item : Option spec.Outcome) × I.advances items.old item items.new
        × spec.ShowsItem item result }
{
    items.advance()?;
    let Some(entry) = items.entry() else {
        return Ok(false);
    };
    print_entry(alloc, output, &entry, format)?;
    Ok(true)
}

// Prints the last entry, which a `DoubleEndedIterator` yields by value.
fn print_last<I: DoubleEndedIterator<Item = IterItem<A>>, A: Allocator + Copy, W: Write>(
    alloc: A,
    output: &mut W,
    items: &mut I,
    format: Format,
) -> Result<bool, ToolError<'static>>
    requires { I.can_next_back items.old }
    ensures { (item : Option spec.Outcome) × I.next_back_gives items.old item items.new
        × spec.ShowsItem item result }
{
    let Some(item) = items.next_back() else {
        return Ok(false);
    };
    print_entry(alloc, output, &item?.as_entry_ref(), format)?;
    Ok(true)
}

/// Prints an entry.
pub(crate) fn print_entry<A: Allocator + Copy, W: Write>(
    alloc: A,
    output: &mut W,
    entry: &EntryRef<'_>,
    format: Format,
) -> Result<(), ToolError<'static>>
    ensures { IfErr result spec.NamesNone }
{
    let text = append_entry(alloc, Vec::new(alloc), entry, format)?;
    output.write_all(&text)?;
    Ok(())
}
