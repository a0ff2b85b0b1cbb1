//! Bytes as one word of visible ASCII.
ghost use Rattle.std.specs.Prelude.{◌≡◌, ◌≢◌, ◌<◌, ℕ, List, ◌∷◌, ◌++◌, length, false};
ghost use Rattle.std.specs.Prelude.{IfSome, IfNone, IfOk, IfErr};
ghost use Rattle.sst_tool.specs.lines.Words as spec;

use crate::lines::LineError;
use std::alloc::{AllocError, Allocator};

/// Appends bytes as one word. Visible ASCII is itself, a backslash and any other byte is `\xNN`,
/// and no bytes are `-`. A single byte `-` is therefore `\x2d`.
///
/// # Errors
///
/// Fails only if memory runs out.
pub fn append_bytes<A: Allocator>(
    mut text: Vec<u8, A>,
    bytes: &[u8],
) -> Result<Vec<u8, A>, AllocError> {
    push_bytes(&mut text, bytes)?;
    Ok(text)
}

/// Appends bytes as one word. After an error a part of it is appended.
pub(crate) fn push_bytes<A: Allocator>(
    text: &mut Vec<u8, A>,
    bytes: &[u8],
) -> Result<(), AllocError> {
    if bytes.is_empty() {
        return text.extend_from_slice(b"-");
    }
    if bytes == b"-".as_slice() {
        return push_escaped(text, b'-');
    }
    for byte in bytes {
        if is_plain(*byte) {
            text.extend_from_slice(&[*byte])?;
        } else {
            push_escaped(text, *byte)?;
        }
    }
    Ok(())
}

fn push_escaped<A: Allocator>(text: &mut Vec<u8, A>, byte: u8) -> Result<(), AllocError> {
    text.extend_from_slice(&[b'\\', b'x', hex_digit(byte / 16), hex_digit(byte % 16)])
}

// The hex digit of a value below 16.
fn hex_digit(value: u8) -> u8
    requires { value < 16 }
{
    if value < 10 {
        b'0' + value
    } else {
        b'a' - 10 + value
    }
}

// Whether a byte is written as itself.
fn is_plain(byte: u8) -> bool
    ensures { result ≡ spec.is_plain byte }
{
    byte.is_ascii_graphic() && byte != b'\\'
}

/// Parses a word that [`append_bytes`] writes. A visible byte may be escaped too.
///
/// # Errors
///
/// Fails with [`LineError::Key`] if the word is malformed, and with [`LineError::OutOfMemory`].
pub fn parse_bytes<A: Allocator>(alloc: A, word: &[u8]) -> Result<Vec<u8, A>, LineError>
    ensures bytes { IfOk result (λ bytes. spec.WordMeans word.now bytes.items) }
    ensures refused { IfErr result (λ e. spec.lacks_memory e ≡ false →
        spec.IsSameFault (spec.Key 1) e × ((bytes : List ℕ) → ¬ spec.WordMeans word.now bytes)) }
{
    parse_word(alloc, word, LineError::Key(1))
}

/// Parses a word. Fails with `fault` if it is malformed, and with [`LineError::OutOfMemory`]. The
/// byte of `fault` is that of the word's first byte.
pub(crate) fn parse_word<A: Allocator>(
    alloc: A,
    word: &[u8],
    fault: LineError,
) -> Result<Vec<u8, A>, LineError>
    ensures bytes { IfOk result (λ bytes. spec.WordMeans word.now bytes.items) }
    ensures refused { IfErr result (λ e. spec.lacks_memory e ≡ false →
        spec.IsSameFault fault e × ((bytes : List ℕ) → ¬ spec.WordMeans word.now bytes)) }
{
    if word.is_empty() {
        return Err(fault);
    }
    if word == b"-".as_slice() {
        return Ok(Vec::new(alloc));
    }
    parse_codes(alloc, word, fault)
}

// Parses a word byte after byte.
fn parse_codes<A: Allocator>(
    alloc: A,
    word: &[u8],
    fault: LineError,
) -> Result<Vec<u8, A>, LineError>
    ensures bytes { IfOk result (λ bytes. spec.AreCodes word.now bytes.items) }
    ensures refused { IfErr result (λ e. spec.lacks_memory e ≡ false →
        spec.IsSameFault fault e × ((bytes : List ℕ) → ¬ spec.AreCodes word.now bytes)) }
{
    let mut bytes = Vec::new(alloc);
    let mut rest = word;
    while !rest.is_empty() {
        match parse_code(rest) {
            None => return Err(fault.further(word.len().saturating_sub(rest.len()))),
            Some((byte, behind)) => {
                bytes.push(byte)?;
                rest = behind;
            }
        }
    }
    Ok(bytes)
}

// Returns the first byte that a word spells, and the rest of the word.
fn parse_code(word: &[u8]) -> Option<(u8, &[u8])>
    ensures some { IfSome result (λ r. spec.Begins word.now r.0 r.1.now) }
    ensures shorter { IfSome result (λ r. length r.1.now < length word.now) }
    ensures none { IfNone result ((byte : ℕ) (rest : List ℕ) → ¬ spec.Begins word.now byte rest) }
{
    let (byte, rest) = word.split_first()?;
    if *byte == b'\\' {
        parse_escape(rest)
    } else if is_plain(*byte) {
        Some((*byte, rest))
    } else {
        None
    }
}

// Returns the byte of an escape after its backslash, and the rest of the word.
fn parse_escape(word: &[u8]) -> Option<(u8, &[u8])>
    ensures some { IfSome result
        (λ r. (r.0 < 256) × (92 ∷ word.now ≡ spec.escaped r.0 ++ r.1.now)) }
    ensures shorter { IfSome result (λ r. length r.1.now < length word.now) }
    ensures none { IfNone result ((byte : ℕ) (rest : List ℕ) → byte < 256 →
        92 ∷ word.now ≢ spec.escaped byte ++ rest) }
{
    let (mark, rest) = word.split_first()?;
    let (high, rest) = rest.split_first()?;
    let (low, rest) = rest.split_first()?;
    if *mark != b'x' {
        return None;
    }
    let high = hex_value(*high)?;
    let low = hex_value(*low)?;
    Some((high * 16 + low, rest))
}

// The value of a hex digit.
fn hex_value(digit: u8) -> Option<u8>
    ensures some { IfSome result (λ value. (value < 16) × (digit ≡ spec.digit_char value)) }
    ensures none { IfNone result ((value : ℕ) → value < 16 → digit ≢ spec.digit_char value) }
{
    match digit {
        b'0'..=b'9' => Some(digit - b'0'),
        b'a'..=b'f' => Some(digit - b'a' + 10),
        _ => None,
    }
}
