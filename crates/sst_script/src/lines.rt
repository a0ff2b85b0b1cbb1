//! The lines of entries that a command reads.
ghost use Rattle.std.specs.Prelude.{◌≡◌, ◌++◌, IfErr, Ok, OnOk};
ghost use Rattle.sst_script.specs.Words as spec;

use itoa::Buffer;
use lsm_runs::LentNewestOf;
use sst_entries::{EntryRef, Error, Lending, ValueType};
use std::alloc::Allocator;

/// The line if nothing was found.
const NONE: &[u8] = b"none\n";

/// Returns the line of an entry that was found, or the line for none. Fails with `OutOfMemory`
/// only.
pub(crate) fn line_of_found<A: Allocator>(
    alloc: A,
    found: Option<EntryRef<'_>>,
) -> Result<Vec<u8, A>, Error>
    ensures { spec.Gives spec.vec_items result
        (Ok (spec.found_line (spec.option_map spec.entry_of_ref found.entry))) }
{
    let mut text = Vec::new(alloc);
    let Some(entry) = found else {
        text.extend_from_slice(NONE)?;
        return Ok(text);
    };
    add_line(&mut text, &entry)?;
    Ok(text)
}

/// Returns the lines of all newest versions of several sources, or the line for none. For sources
/// of lists, it fails with `OutOfMemory` only.
///
/// It is generic in the sources: a whole concrete stream makes a proof expensive.
pub(crate) fn lines_of_newest<L: Lending + Drop, A: Allocator>(
    alloc: A,
    mut stream: LentNewestOf<L, A>,
) -> Result<Vec<u8, A>, Error>
    requires { spec.CanYield ⟦<LentNewestOf<L, A> as Lending>⟧.advances spec.nowhere
        ⟦<LentNewestOf<L, A> as Lending>⟧.can_advance
        ⟦<LentNewestOf<L, A> as Lending>⟧.can_advance stream }
    ensures { spec.OnLent ⟦<LentNewestOf<L, A> as Lending>⟧.advances stream (λ es.
        spec.Gives spec.vec_items result (Ok (spec.entry_lines es))) }
{
    lines_of(alloc, &mut stream)
}

// Returns the lines of all entries of a source, or the line for none. For a source of a list, it
// fails with `OutOfMemory` only.
fn lines_of<L: Lending, A: Allocator>(alloc: A, source: &mut L) -> Result<Vec<u8, A>, Error>
    requires { spec.CanYield L.advances spec.nowhere L.can_advance L.can_advance source.old }
    ensures { spec.OnLent L.advances source.old (λ es.
        spec.Gives spec.vec_items result (Ok (spec.entry_lines es))) }
{
    let mut text = Vec::new(alloc);
    add_lines(&mut text, source)?;
    if !text.is_empty() {
        return Ok(text);
    }
    text.extend_from_slice(NONE)?;
    Ok(text)
}

// Adds the lines of all entries of a source. For a source of a list, it fails with `OutOfMemory`
// only.
fn add_lines<L: Lending, A: Allocator>(text: &mut Vec<u8, A>, source: &mut L) -> Result<(), Error>
    requires { spec.CanYield L.advances spec.nowhere L.can_advance L.can_advance source.old }
    ensures lines { spec.OnLent L.advances source.old (λ es.
        OnOk result (text.new.items ≡ text.old.items ++ spec.flat_map spec.entry_line es)) }
    ensures err { spec.OnLent L.advances source.old (λ es. IfErr result (λ e.
        e ≡ spec.OutOfMemory)) }
{
    while source.advance()? {
        if let Some(entry) = source.entry() {
            add_line(text, &entry)?;
        }
    }
    Ok(())
}

// Adds the line of an entry: its key, seqno, kind and value.
fn add_line<A: Allocator>(text: &mut Vec<u8, A>, entry: &EntryRef<'_>) -> Result<(), Error>
    ensures line { OnOk result (text.new.items
        ≡ text.old.items ++ spec.entry_line (spec.entry_of_ref entry.now)) }
    ensures err { IfErr result (λ e. e ≡ spec.OutOfMemory) }
{
    text.extend_from_slice(printed(entry.user_key))?;
    text.extend_from_slice(b" ")?;
    text.extend_from_slice(Buffer::new().format(entry.seqno).as_bytes())?;
    text.extend_from_slice(&[b' ', letter_of(entry.value_type), b' '])?;
    text.extend_from_slice(printed(entry.value))?;
    text.extend_from_slice(b"\n")?;
    Ok(())
}

// The printed form of bytes: `-` for none.
fn printed(bytes: &[u8]) -> &[u8]
    ensures { result.now ≡ spec.printed bytes.now }
{
    if bytes.is_empty() { b"-" } else { bytes }
}

// The letter of a kind.
fn letter_of(kind: ValueType) -> u8
    ensures { result ≡ spec.letter_of kind }
{
    match kind {
        ValueType::Value => b'V',
        ValueType::Tombstone => b'T',
        ValueType::WeakTombstone => b'W',
        ValueType::Indirection => b'I',
    }
}
