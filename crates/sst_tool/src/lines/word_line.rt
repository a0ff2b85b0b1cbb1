//! Entries as words: KEY NUMBER KIND VALUE.
ghost use Rattle.std.specs.Prelude.{◌≡◌, ◌≢◌, ◌==◌, ◌<◌, ℕ, List, ◌∷◌, [], length};
ghost use Rattle.std.specs.Prelude.{false, Some, IfSome, IfNone, IfOk, IfErr};
ghost use Rattle.sst_tool.specs.lines.Words as spec;

use crate::lines::LineError;
use crate::lines::escapes::{parse_word, push_bytes};
use itoa::Buffer;
use sst_entries::{EntryRef, InternalValue, Slice, ValueType};
use std::alloc::{AllocError, Allocator};

/// The words of a line.
#[derive(Clone, Copy)]
struct Words<'a> {
    key: &'a [u8],
    seqno: &'a [u8],
    kind: &'a [u8],
    value: &'a [u8],
}

/// Appends the words of an entry, with one space between.
pub(crate) fn push_words<A: Allocator>(
    text: &mut Vec<u8, A>,
    entry: &EntryRef<'_>,
) -> Result<(), AllocError> {
    push_bytes(text, entry.user_key)?;
    text.extend_from_slice(b" ")?;
    text.extend_from_slice(Buffer::new().format(entry.seqno).as_bytes())?;
    text.extend_from_slice(&[b' ', letter_of(entry.value_type), b' '])?;
    push_bytes(text, entry.value)
}

// The letter of a kind.
fn letter_of(kind: ValueType) -> u8 {
    match kind {
        ValueType::Value => b'V',
        ValueType::Tombstone => b'T',
        ValueType::WeakTombstone => b'W',
        ValueType::Indirection => b'I',
    }
}

/// Parses a line of words. The first error is that of the number of words, the sequence number, the
/// kind, the key or the value. Memory can run out from the key on.
pub(crate) fn parse_words<A: Allocator + Copy>(
    alloc: A,
    line: &[u8],
) -> Result<InternalValue<A>, LineError>
    ensures spells { IfOk result (λ e. spec.SpellsEntry line.now e) }
    ensures refused { IfErr result (λ e. spec.lacks_memory e ≡ false
        → (item : spec.Entry) → ¬ spec.SpellsEntry line.now item) }
{
    let Some(words) = split_line(line) else {
        return Err(LineError::Words);
    };
    let Some(seqno) = parse_number(words.seqno) else {
        return Err(LineError::Number);
    };
    let Some(kind) = parse_kind(words.kind) else {
        return Err(LineError::Kind);
    };
    let key = parse_slice(alloc, words.key, LineError::Key(1))?;
    let before = line.len().saturating_sub(words.value.len());
    match parse_slice(alloc, words.value, LineError::Value(1).further(before)) {
        Ok(value) => Ok(InternalValue::from_components(key, value, seqno, kind)),
        Err(error) => Err(error),
    }
}

// Parses a word as a slice.
fn parse_slice<A: Allocator + Clone>(
    alloc: A,
    word: &[u8],
    fault: LineError,
) -> Result<Slice<A>, LineError>
    ensures bytes { IfOk result (λ bytes. spec.WordMeans word.now bytes) }
    ensures refused { IfErr result (λ e. spec.lacks_memory e ≡ false →
        spec.IsSameFault fault e × ((bytes : List ℕ) → ¬ spec.WordMeans word.now bytes)) }
{
    slice_of(parse_word(alloc, word, fault)?)
}

// Turns a vector into a slice.
pub(crate) fn slice_of<A: Allocator + Clone>(bytes: Vec<u8, A>) -> Result<Slice<A>, LineError>
    ensures ok { IfOk result (λ slice. slice ≡ bytes.items) }
    ensures err { IfErr result (λ e. e ≡ spec.OutOfMemory) }
{
    match Slice::from_vec(bytes) {
        Ok(slice) => Ok(slice),
        Err(_) => Err(LineError::OutOfMemory),
    }
}

// Splits a line into its four words.
fn split_line(line: &[u8]) -> Option<Words<'_>>
    ensures some { IfSome result (λ w. spec.line_words line.now ≡
        w.key.now ∷ w.seqno.now ∷ w.kind.now ∷ w.value.now ∷ []) }
    ensures none { IfNone result (length (spec.line_words line.now) ≢ 4) }
{
    let (key, rest) = split_word(line);
    let (seqno, rest) = split_word(rest?);
    let (kind, rest) = split_word(rest?);
    let (value, rest) = split_word(rest?);
    if rest.is_some() {
        return None;
    }
    Some(Words {
        key,
        seqno,
        kind,
        value,
    })
}

// Returns the first word, and the rest after its space.
fn split_word(line: &[u8]) -> (&[u8], Option<&[u8]>)
    ensures { spec.line_words line.now ≡ result.0.now ∷ spec.line_words_behind
        (spec.option_copied result.1) }
{
    match find_space(line) {
        Some(at) => (&line[..at], Some(&line[at + 1..])),
        None => (line, None),
    }
}

fn find_space(line: &[u8]) -> Option<usize>
    ensures first { result ≡ spec.position (λ byte. byte == 32) line.now }
    ensures within { IfSome result (λ at. at < length line.now) }
{
    line.iter().position(|byte| *byte == b' ')
}

/// Parses a decimal number without leading zeros.
pub(crate) fn parse_number(word: &[u8]) -> Option<u64>
    ensures { spec.SomeIff result (spec.IsNumberWord word.now) (spec.digits_value 10 word.now) }
{
    if let [b'+', ..] | [b'0', _, ..] = word {
        return None;
    }
    match str::from_utf8(word) {
        Ok(text) => text.parse::<u64>().ok(),
        Err(_) => None,
    }
}

// Returns the kind of a letter.
fn parse_kind(word: &[u8]) -> Option<ValueType>
    ensures letter { IfSome result (λ kind. word.now ≡ spec.kind_letter kind ∷ []) }
    ensures all { (kind : spec.ValueType) → word.now ≡ spec.kind_letter kind ∷ [] →
        result ≡ Some kind }
{
    match word {
        b"V" => Some(ValueType::Value),
        b"T" => Some(ValueType::Tombstone),
        b"W" => Some(ValueType::WeakTombstone),
        b"I" => Some(ValueType::Indirection),
        _ => None,
    }
}
