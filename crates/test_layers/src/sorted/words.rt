//! Entries, errors and items for tests, as the words of a text.
//!
//! `aV9` is an entry of the key `a` and the sequence number 9, with its key as the value; `aV9x`
//! has the value `x`. `T` and `W` are the tombstones and `I` an indirection. They have no value
//! unless it is given. `!4` is the error 4 of a caller's own source, `?1` is `OutOfMemory`, and `-`
//! is no item.
ghost use Rattle.std.specs.Iterator.{IsFinite};
ghost use Rattle.sst_entries.specs.Stream.{CanYield, nowhere};

use sst_entries::{
    Direction, EntryRef, Error, InternalValue, IterItem, Lending, Slice, ValueType, answer_at,
};
use std::alloc::Allocator;
use test_support::go_on;

/// The parts of a word: a key or the sign before a number, the letter of a kind, a number, and a
/// value. A part that is not there is 0.
pub type Said = (u8, u8, u64, u8);

/// The first of some bytes, or 0.
pub fn byte_of(bytes: &[u8]) -> u8 {
    match bytes {
        [byte, ..] => *byte,
        [] => 0,
    }
}

// The number of some digits, and the byte after them, or 0.
fn number_and_byte(text: &[u8]) -> (u64, u8) {
    let mut number = 0u64;
    for byte in text {
        if !byte.is_ascii_digit() {
            return (number, *byte);
        }
        let digit = u64::from(byte.wrapping_sub(b'0'));
        number = number.wrapping_mul(10).wrapping_add(digit);
    }
    (number, 0)
}

/// The parts of a word.
pub fn said_by(word: &str) -> Said {
    match word.as_bytes() {
        [sign @ (b'!' | b'?' | b'-'), digits @ ..] => (*sign, 0, number_and_byte(digits).0, 0),
        [key, kind, rest @ ..] => {
            let (number, byte) = number_and_byte(rest);
            let is_key = *kind == b'V' && byte == 0;
            (*key, *kind, number, if is_key { *key } else { byte })
        }
        _ => (0, 0, 0, 0),
    }
}

fn kind_of(letter: u8) -> ValueType {
    match letter {
        b'T' => ValueType::Tombstone,
        b'W' => ValueType::WeakTombstone,
        b'I' => ValueType::Indirection,
        _ => ValueType::Value,
    }
}

// The result of a word. Its key and value are slices of the text.
fn result_of<A: Allocator>(word: &'static str) -> IterItem<A> {
    let (sign, kind, number, byte) = said_by(word);
    match sign {
        b'!' => return Err(Error::Source(number)),
        b'?' => return Err(Error::OutOfMemory),
        _ => {}
    }
    let bytes = word.as_bytes();
    let (key, rest) = bytes.split_at(bytes.len().min(1));
    let value = match rest {
        _ if byte == 0 => &[],
        [.., last] if *last == byte => rest.get(rest.len() - 1..).unwrap_or(&[]),
        _ => key,
    };
    let (key, value) = (Slice::from_static(key), Slice::from_static(value));
    Ok(InternalValue::from_components(key, value, number, kind_of(kind)))
}

/// The results of the words of a text.
pub fn results_of<A: Allocator>(
    alloc: A,
    text: &'static str,
) -> Result<Vec<IterItem<A>, A>, Error> {
    let mut results = Vec::new(alloc);
    for word in text.split_whitespace() {
        results.push(result_of(word))?;
    }
    Ok(results)
}

fn letter_of(kind: ValueType) -> u8 {
    match kind {
        ValueType::Value => b'V',
        ValueType::Tombstone => b'T',
        ValueType::WeakTombstone => b'W',
        ValueType::Indirection => b'I',
    }
}

/// The word of a borrowed entry, in parts.
pub fn said_of_lent(entry: &EntryRef<'_>) -> Said {
    (
        byte_of(entry.user_key),
        letter_of(entry.value_type),
        entry.seqno,
        byte_of(entry.value),
    )
}

// The word of an error.
fn said_of_error(error: &Error) -> Said {
    match error {
        Error::Source(code) => (b'!', 0, *code, 0),
        error => (b'?', 0, u64::from(error.number()), 0),
    }
}

// The word for no item.
const NOTHING: Said = (b'-', 0, 0, 0);

// The word of an item.
fn said_of<A: Allocator>(answer: Option<IterItem<A>>) -> Said {
    match answer {
        Some(Ok(entry)) => said_of_lent(&entry.as_entry_ref()),
        Some(Err(error)) => said_of_error(&error),
        None => NOTHING,
    }
}

/// The word of the current entry of a lending iterator.
pub fn said_lent<L: Lending>(source: &L) -> Said {
    match source.entry() {
        Some(entry) => said_of_lent(&entry),
        None => NOTHING,
    }
}

// The word of the next item of a lending iterator.
fn said_next<L: Lending>(source: &mut L) -> Said
    requires { CanYield L.advances nowhere L.can_advance L.can_advance source.old }
    ensures can { CanYield L.advances nowhere L.can_advance L.can_advance source.new }
{
    match go_on(source) {
        Ok(_) => said_lent(source),
        Err(error) => said_of_error(&error),
    }
}

/// Whether a lending iterator yields these items, and then nothing.
pub fn lends_so<L: Lending>(source: &mut L, wanted: &str) -> bool
    requires { CanYield L.advances nowhere L.can_advance L.can_advance source.old }
{
    let mut is_right = true;
    for word in wanted.split_whitespace() {
        is_right &= said_next(source) == said_by(word);
    }
    said_next(source) == NOTHING && is_right
}

/// Whether a stream yields these items at the ends `F` and `B`.
pub fn answers_so<A: Allocator, I: DoubleEndedIterator<Item = IterItem<A>> + Drop>(
    mut stream: I,
    ends: &str,
    wanted: &str,
) -> bool
    requires { CanYield I.next_gives I.next_back_gives I.can_next I.can_next_back stream }
{
    let mut words = wanted.split_whitespace();
    let mut is_right = true;
    for letter in ends.bytes() {
        let end = if letter == b'B' {
            Direction::Back
        } else {
            Direction::Front
        };
        let answer = answer_at(&mut stream, end);
        is_right &= said_of(answer) == said_by(words.next().unwrap_or(""));
    }
    is_right && words.next().is_none()
}

// The word of the next item of a stream.
fn said_first<A: Allocator, I: Iterator<Item = IterItem<A>>>(stream: &mut I) -> Said
    requires { CanYield I.next_gives nowhere I.can_next I.can_next stream.old }
    ensures can { CanYield I.next_gives nowhere I.can_next I.can_next stream.new }
{
    said_of(stream.next())
}

/// Whether a stream yields these items, and then nothing.
pub fn gives_so<A: Allocator, I: Iterator<Item = IterItem<A>>>(stream: &mut I, wanted: &str) -> bool
    requires { CanYield I.next_gives nowhere I.can_next I.can_next stream.old }
{
    let mut is_right = true;
    for word in wanted.split_whitespace() {
        is_right &= said_first(stream) == said_by(word);
    }
    said_first(stream) == NOTHING && is_right
}

/// Whether a stream yields these items up to its end.
pub fn gives_all<A: Allocator, I: Iterator<Item = IterItem<A>>>(
    stream: &mut I,
    wanted: &str,
) -> bool
    requires can { I.can_next stream.old }
    requires finite { IsFinite (I.remaining stream.old) }
{
    let mut words = wanted.split_whitespace();
    let mut is_right = true;
    while let Some(item) = stream.next() {
        is_right &= said_of(Some(item)) == said_by(words.next().unwrap_or(""));
    }
    is_right && words.next().is_none()
}
