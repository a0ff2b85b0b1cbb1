//! Parsing a line of a script.
ghost use Rattle.std.specs.Prelude.{◌≡◌, ◌==◌, ◌<◌, ℕ, Bool, List, [], ◌∷◌, length, None, Some};
ghost use Rattle.std.specs.Prelude.{IfSome, IfNone, codes};
ghost use Rattle.sst_script.specs.Words as spec;

use sst_entries::{SeqNo, ValueType};
use std::ops::Bound;

/// A line of a script.
#[derive(Clone, Copy)]
pub enum Command<'a> {
    /// Adds a pending entry.
    Entry {
        key: &'a [u8],
        seqno: SeqNo,
        kind: ValueType,
        value: &'a [u8],
    },
    /// Writes the pending entries as a run of tables.
    Table,
    /// Reads the newest version of a key visible at a seqno.
    Get {
        key: &'a [u8],
        bound: SeqNo,
    },
    /// Reads the newest version of each key within two bounds.
    Range {
        low: Bound<&'a [u8]>,
        high: Bound<&'a [u8]>,
    },
    /// Replaces all runs by one run of what is kept of them.
    Compact {
        watermark: SeqNo,
        evict: bool,
        zero: bool,
    },
    /// Puts the tables of all runs in as few runs as possible.
    Pack,
}

/// Parses a line; returns `None` if it is no command.
pub fn parse_command(line: &[u8]) -> Option<Command<'_>>
    ensures form { IfSome result (λ command. spec.AskFor (spec.words_of line.now) command) }
    ensures none { IfNone result ((command : spec.Command) →
        ¬ spec.AskFor (spec.words_of line.now) command) }
{
    let (name, rest) = split_word(line);
    match rest {
        None if name == b"table".as_slice() => Some(Command::Table),
        None if name == b"pack".as_slice() => Some(Command::Pack),
        None => None,
        Some(words) if name == b"entry".as_slice() => parse_entry(words),
        Some(words) if name == b"get".as_slice() => parse_get(words),
        Some(words) if name == b"range".as_slice() => parse_range(words),
        Some(words) if name == b"compact".as_slice() => parse_compact(words),
        Some(_) => None,
    }
}

// Parses the words after `entry `: a key, a number, a kind and a value.
fn parse_entry(words: &[u8]) -> Option<Command<'_>>
    ensures form { IfSome result (λ command. spec.AskFor (codes "entry" ∷ spec.words_of words.now)
        command) }
    ensures none { IfNone result
        ((key : List ℕ) (seqno : ℕ) (kind : spec.ValueType) (value : List ℕ) →
        ¬ spec.AddsEntry (codes "entry" ∷ spec.words_of words.now) key seqno kind value) }
{
    let (key, rest) = split_word(words);
    let (seqno, rest) = split_word(rest?);
    let (kind, value) = split_word(rest?);
    Some(Command::Entry {
        key: parse_text(key)?,
        seqno: parse_number(seqno)?,
        kind: parse_kind(kind)?,
        value: parse_text(value?)?,
    })
}

// Parses the words after `get `: a key and a bound.
fn parse_get(words: &[u8]) -> Option<Command<'_>>
    ensures form { IfSome result (λ command. spec.AskFor (codes "get" ∷ spec.words_of words.now)
        command) }
    ensures none { IfNone result ((key : List ℕ) (bound : ℕ) →
        ¬ spec.ReadsKey (codes "get" ∷ spec.words_of words.now) key bound) }
{
    let (key, bound) = split_word(words);
    Some(Command::Get {
        key: parse_text(key)?,
        bound: parse_number(bound?)?,
    })
}

// Parses the words after `range `: two bounds.
fn parse_range(words: &[u8]) -> Option<Command<'_>>
    ensures form { IfSome result (λ command. spec.AskFor (codes "range" ∷ spec.words_of words.now)
        command) }
    ensures none { IfNone result ((low high : spec.Bound (List ℕ)) →
        ¬ spec.ReadsRange (codes "range" ∷ spec.words_of words.now) low high) }
{
    let (low, high) = split_word(words);
    Some(Command::Range {
        low: parse_bound(low)?,
        high: parse_bound(high?)?,
    })
}

// Parses a bound: `*` for none, else `=` before a key that is included, or `!` before one that is
// not.
fn parse_bound(word: &[u8]) -> Option<Bound<&[u8]>>
    ensures bound { IfSome result (λ bound. spec.Limits word.now (spec.key_bound bound)) }
    ensures none { IfNone result ((bound : spec.Bound (List ℕ)) → ¬ spec.Limits word.now bound) }
{
    match word {
        b"*" => Some(Bound::Unbounded),
        [b'=', key @ ..] => Some(Bound::Included(parse_text(key)?)),
        [b'!', key @ ..] => Some(Bound::Excluded(parse_text(key)?)),
        _ => None,
    }
}

// Parses the words after `compact `: a watermark, and its settings.
fn parse_compact(words: &[u8]) -> Option<Command<'_>>
    ensures form { IfSome result (λ command.
        spec.AskFor (codes "compact" ∷ spec.words_of words.now) command) }
    ensures none { IfNone result ((watermark : ℕ) (evict zero : Bool) →
        ¬ spec.CompactsBy (codes "compact" ∷ spec.words_of words.now) watermark evict zero) }
{
    let (watermark, settings) = split_word(words);
    let watermark = parse_number(watermark)?;
    let (evict, zero) = parse_settings(settings)?;
    Some(Command::Compact {
        watermark,
        evict,
        zero,
    })
}

// Whether tombstones are evicted and whether seqnos become 0, each by its word, in this order.
fn parse_settings(settings: Option<&[u8]>) -> Option<(bool, bool)>
    ensures words { IfSome result (λ returned. spec.words_behind (spec.option_copied settings.entry)
        ≡ spec.setting_words returned.0 returned.1) }
    ensures none { IfNone result ((evict zero : Bool) →
        ¬ (spec.words_behind (spec.option_copied settings.entry) ≡ spec.setting_words evict zero)) }
{
    match settings {
        None => Some((false, false)),
        Some(words) if words == b"evict".as_slice() => Some((true, false)),
        Some(words) if words == b"zero".as_slice() => Some((false, true)),
        Some(words) if words == b"evict zero".as_slice() => Some((true, true)),
        Some(_) => None,
    }
}

// The first word, and the text after the space that follows it.
fn split_word(line: &[u8]) -> (&[u8], Option<&[u8]>)
    ensures { spec.words_of line.now ≡ result.0.now ∷ spec.words_behind
        (spec.option_copied result.1) }
{
    match find_space(line) {
        Some(at) => (&line[..at], Some(&line[at + 1..])),
        None => (line, None),
    }
}

fn find_space(line: &[u8]) -> Option<usize>
    ensures first { result ≡ spec.position (λ byte. byte == 32) line.now }
    ensures within { IfSome result (λ at. at < length line.now) }
{
    line.iter().position(|byte| *byte == b' ')
}

// The text of a word of visible bytes; `-` means no bytes.
fn parse_text(word: &[u8]) -> Option<&[u8]>
    ensures text { IfSome result (λ text. spec.StandsFor word.now text.now) }
    ensures none { IfNone result ((text : List ℕ) → ¬ spec.StandsFor word.now text) }
{
    if word.is_empty() || !is_visible(word) {
        return None;
    }
    if word == b"-".as_slice() {
        Some(b"")
    } else {
        Some(word)
    }
}

fn is_visible(word: &[u8]) -> bool
    ensures { result ≡ spec.list_all spec.is_ascii_graphic word.now }
{
    word.iter().all(|byte| byte.is_ascii_graphic())
}

// A decimal number without leading zeros.
fn parse_number(word: &[u8]) -> Option<u64>
    ensures { spec.SomeIff result (spec.IsNumber word.now) (spec.digits_value 10 word.now) }
{
    if let [b'+', ..] | [b'0', _, ..] = word {
        return None;
    }
    match str::from_utf8(word) {
        Ok(text) => text.parse::<u64>().ok(),
        Err(_) => None,
    }
}

// The letter of a kind.
fn parse_kind(word: &[u8]) -> Option<ValueType>
    ensures letter { IfSome result (λ kind. word.now ≡ spec.letter_of kind ∷ []) }
    ensures all { (kind : spec.ValueType) → word.now ≡ spec.letter_of kind ∷ [] →
        result ≡ Some kind }
{
    match word {
        b"V" => Some(ValueType::Value),
        b"T" => Some(ValueType::Tombstone),
        b"W" => Some(ValueType::WeakTombstone),
        b"I" => Some(ValueType::Indirection),
        _ => None,
    }
}
