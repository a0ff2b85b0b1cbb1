//! Entries as lines.
ghost use Rattle.std.specs.Prelude.{◌≡◌, IfErr, IfOk, false};
ghost use Rattle.sst_tool.specs.lines.Words as spec;
ghost use Rattle.sst_tool.specs.declared.lines.entry_line.Format.TheVariants.{Json};

use crate::lines::object_line::{append_object, parse_object};
use crate::lines::word_line::{parse_words, push_words};
use sst_entries::{EntryRef, InternalValue};
use std::alloc::{AllocError, AllocFailed, Allocator};

/// The format of an entry's line.
#[derive(Clone, Copy, Debug, PartialEq, Eq)]
pub enum Format {
    /// The words `KEY NUMBER KIND VALUE`, with one space between. Kinds are `V` for a value, `T`
    /// for a tombstone, `W` for a weak tombstone and `I` for an indirection. In keys and values a
    /// backslash and each byte that is not visible ASCII is `\xNN`, and `-` is the empty one.
    Lines,
    /// A JSON object, `{"key":"k","seqno":7,"kind":"value","value":"v"}`. Kinds are `value`,
    /// `tombstone`, `weak_tombstone` and `indirection`. Bytes that are not UTF-8 are
    /// `{"hex":"ff00"}` instead of a string.
    Json,
}

/// Appends the line of an entry with its newline.
///
/// # Errors
///
/// Fails only if memory runs out.
pub fn append_entry<A: Allocator + Copy>(
    alloc: A,
    text: Vec<u8, A>,
    entry: &EntryRef<'_>,
    format: Format,
) -> Result<Vec<u8, A>, AllocError> {
    match format {
        Format::Lines => append_words(text, entry),
        Format::Json => end_line(append_object(alloc, text, entry)?),
    }
}

fn append_words<A: Allocator>(
    mut text: Vec<u8, A>,
    entry: &EntryRef<'_>,
) -> Result<Vec<u8, A>, AllocError> {
    push_words(&mut text, entry)?;
    end_line(text)
}

fn end_line<A: Allocator>(mut text: Vec<u8, A>) -> Result<Vec<u8, A>, AllocError> {
    text.extend_from_slice(b"\n")?;
    Ok(text)
}

/// Parses a line without its newline. The members of an object may be in any order, and others are
/// an error.
///
/// # Errors
///
/// Returns the first error of a line in this order: the words or the object, the sequence number,
/// the kind, the key, the value. Fails with [`LineError::OutOfMemory`] if memory runs out.
pub fn parse_entry<A: Allocator + Copy>(
    alloc: A,
    line: &[u8],
    format: Format,
) -> Result<InternalValue<A>, LineError>
    ensures spells { format ≡ spec.Lines → IfOk result (λ e. spec.SpellsEntry line.now e) }
    ensures object { format ≡ Json → IfOk result (λ e. spec.SpellsObject line.now e) }
    // A line that fails spells no entry, unless memory ran out.
    ensures no_words { format ≡ spec.Lines → IfErr result (λ e. spec.lacks_memory e ≡ false
        → (item : spec.Entry) → ¬ spec.SpellsEntry line.now item) }
    ensures no_object { format ≡ Json → IfErr result (λ e. spec.lacks_memory e ≡ false
        → (item : spec.Entry) → ¬ spec.SpellsObject line.now item) }
{
    match format {
        Format::Lines => parse_words(alloc, line),
        Format::Json => parse_object(alloc, line),
    }
}

/// The error of a line. Its text follows the line's number in messages.
#[derive(Clone, Copy, Debug, Drop, PartialEq, Eq, thiserror::Error)]
pub enum LineError {
    /// Memory ran out, which says nothing about the line.
    #[error("out of memory")]
    OutOfMemory,

    /// The line does not have four words.
    #[error("expected KEY NUMBER KIND VALUE with one space between")]
    Words,

    /// The key has a byte or an escape that is not allowed. The number is that of the first such
    /// byte in the line, or in a key that is parsed alone, from 1.
    #[error("invalid key at byte {0}: write a backslash and each byte that is not visible ASCII as \
         \\xNN in lower case; - is the empty key")]
    Key(u64),

    /// The number has a byte other than digits, leading zeros, or is 2^64 or more.
    #[error("a sequence number is decimal digits without leading zeros, below \
         18446744073709551615")]
    Number,

    /// The kind is unknown.
    #[error("a kind is V, T, W or I")]
    Kind,

    /// The value has a byte or an escape that is not allowed. The number is that of the first such
    /// byte in the line, from 1.
    #[error("invalid value at byte {0}: write a backslash and each byte that is not visible ASCII \
         as \\xNN in lower case; - is the empty value")]
    Value(u64),

    /// The line is not a JSON object, or an object in it has a member twice.
    #[error("not a JSON object, or it has a member twice")]
    Json,

    /// The object has other members than an entry.
    #[error("not an object with the members key, seqno, kind and value")]
    Members,

    /// The member `key` is neither a string nor an object of hex digits.
    #[error("key is a string, or {{\"hex\":\"..\"}} with two digits for each byte")]
    KeyMember,

    /// The member `seqno` is not a number, has a point, an exponent or a sign, or is 2^64 or more.
    #[error("seqno is a number of decimal digits without leading zeros, below \
         18446744073709551615")]
    NumberMember,

    /// The member `kind` is unknown.
    #[error("kind is value, tombstone, weak_tombstone or indirection")]
    KindMember,

    /// The member `value` is neither a string nor an object of hex digits.
    #[error("value is a string, or {{\"hex\":\"..\"}} with two digits for each byte")]
    ValueMember,
}

impl LineError {
    // Returns the error at a byte that is so many bytes further.
    pub(crate) fn further(self, bytes: usize) -> LineError
        ensures { spec.IsSameFault self result }
    {
        let bytes = bytes as u64;
        match self {
            LineError::Key(byte) => LineError::Key(byte.saturating_add(bytes)),
            LineError::Value(byte) => LineError::Value(byte.saturating_add(bytes)),
            other => other,
        }
    }
}

impl From<AllocError> for LineError {
    ghost use Rattle.std.specs.Prelude.{◌≡◌};
    ghost use Rattle.sst_tool.specs.declared.lines.entry_line.LineError.TheVariants.{OutOfMemory};

    ghost from_gives = { λ _ e. e ≡ OutOfMemory };

    fn from(_: AllocError) -> LineError {
        LineError::OutOfMemory
    }
}

impl<T: Drop> From<AllocFailed<T>> for LineError {
    ghost use Rattle.std.specs.Prelude.{◌≡◌};
    ghost use Rattle.sst_tool.specs.declared.lines.entry_line.LineError.TheVariants.{OutOfMemory};

    ghost from_gives = { λ _ e. e ≡ OutOfMemory };

    fn from(_: AllocFailed<T>) -> LineError {
        LineError::OutOfMemory
    }
}
