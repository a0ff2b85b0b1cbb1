//! Lines of entries, and errors of lines.
use sst_entries::{EntryRef, ValueType};
use sst_tool::lines::{Format, LineError, append_entry, parse_entry};
use std::alloc::Allocator;

const ENTRIES: [EntryRef<'static>; 4] = [
    EntryRef {
        user_key: b"k",
        seqno: u64::MAX,
        value_type: ValueType::Value,
        value: b"v",
    },
    EntryRef {
        user_key: b"-",
        seqno: 0,
        value_type: ValueType::WeakTombstone,
        value: b"",
    },
    EntryRef {
        user_key: b"a b\\",
        seqno: 300,
        value_type: ValueType::Tombstone,
        value: b"\xff\x00",
    },
    EntryRef {
        user_key: b"\xc3\xa4",
        seqno: 12,
        value_type: ValueType::Indirection,
        value: b"\"\n",
    },
];

const LINES: [&[u8]; 4] = [
    b"k 18446744073709551615 V v",
    b"\\x2d 0 W -",
    b"a\\x20b\\x5c 300 T \\xff\\x00",
    b"\\xc3\\xa4 12 I \"\\x0a",
];

const OBJECTS: [&[u8]; 4] = [
    b"{\"key\":\"k\",\"seqno\":18446744073709551615,\"kind\":\"value\",\"value\":\"v\"}",
    b"{\"key\":\"-\",\"seqno\":0,\"kind\":\"weak_tombstone\",\"value\":\"\"}",
    b"{\"key\":\"a b\\\\\",\"seqno\":300,\"kind\":\"tombstone\",\"value\":{\"hex\":\"ff00\"}}",
    b"{\"key\":\"\xc3\xa4\",\"seqno\":12,\"kind\":\"indirection\",\"value\":\"\\\"\\n\"}",
];

// Whether an entry is written as this line and a newline.
fn is_written<A: Allocator + Copy>(
    alloc: A,
    format: Format,
    entry: &EntryRef<'_>,
    line: &[u8],
) -> bool {
    match append_entry(alloc, Vec::new(alloc), entry, format) {
        Ok(text) => match text.split_last() {
            Some((end, rest)) => *end == b'\n' && rest == line,
            None => false,
        },
        Err(_) => false,
    }
}

// Whether a line parses as this entry.
fn is_entry<A: Allocator + Copy>(
    alloc: A,
    format: Format,
    entry: &EntryRef<'_>,
    line: &[u8],
) -> bool {
    match parse_entry(alloc, line, format) {
        Ok(item) => item.as_entry_ref() == *entry,
        Err(_) => false,
    }
}

// Counts the entries that are written as these lines and read back.
fn count_lines<A: Allocator + Copy>(alloc: A, format: Format, lines: &[&[u8]]) -> usize {
    let mut count = 0usize;
    for (entry, line) in ENTRIES.iter().zip(lines) {
        if is_written(alloc, format, entry, line) && is_entry(alloc, format, entry, line) {
            count = count.saturating_add(1);
        }
    }
    count
}

// The error of a line, if there is one.
fn refusal<A: Allocator + Copy>(alloc: A, format: Format, line: &[u8]) -> Option<LineError> {
    parse_entry(alloc, line, format).err()
}

#[test]
fn entries_have_their_lines_and_are_read_of_them(rt: HostRuntime) {
    assert!(rt; count_lines(rt.alloc(), Format::Lines, &LINES) == 4);
    assert!(rt; count_lines(rt.alloc(), Format::Json, &OBJECTS) == 4);
}

const BAD_LINES: [(&[u8], LineError); 9] = [
    (b"k 7 V", LineError::Words),
    (b"k 7 V v ", LineError::Words),
    (b" 7 V v", LineError::Key(1)),
    (b"k\\ 7 V v", LineError::Key(2)),
    (b"k\\x2D 7 V v", LineError::Key(2)),
    (b"k 07 V v", LineError::Number),
    (b"k 18446744073709551616 V v", LineError::Number),
    (b"k 7 v v", LineError::Kind),
    (b"k 7 V \xff", LineError::Value(7)),
];

const BAD_OBJECTS: [(&[u8], LineError); 53] = [
    (b"", LineError::Json),
    (b"{", LineError::Json),
    (b"7", LineError::Json),
    (b"\"k\"", LineError::Json),
    (b"[]", LineError::Json),
    (b"{}{}", LineError::Json),
    (
        b"{\"key\":\"k\",\"seqno\":7,\"kind\":\"value\",\"value\":\"v\"},",
        LineError::Json,
    ),
    (
        b"{\"key\":\"k\",\"seqno\":07,\"kind\":\"value\",\"value\":\"v\"}",
        LineError::Json,
    ),
    (
        b"{\"key\":\"\\ud800\",\"seqno\":7,\"kind\":\"value\",\"value\":\"v\"}",
        LineError::Json,
    ),
    (
        b"{\"key\":\"\\udc00x\",\"seqno\":7,\"kind\":\"value\",\"value\":\"v\"}",
        LineError::Json,
    ),
    (
        b"{\"key\":\"\\ud800\\u0041\",\"seqno\":7,\"kind\":\"value\",\"value\":\"v\"}",
        LineError::Json,
    ),
    (
        b"{\"key\":\"k\",\"seqno\":7,\"kind\":\"value\",\"value\":\"\\x\"}",
        LineError::Json,
    ),
    (
        b"{\"key\":\"\x01\",\"seqno\":7,\"kind\":\"value\",\"value\":\"v\"}",
        LineError::Json,
    ),
    (
        b"{\"key\":\"\xff\",\"seqno\":7,\"kind\":\"value\",\"value\":\"v\"}",
        LineError::Json,
    ),
    (
        b"{\"key\":\"\",\"key\":\"\",\"seqno\":7,\"value\":\"\"}",
        LineError::Json,
    ),
    (
        b"{\"key\":{\"hex\":\"00\",\"hex\":\"00\"},\"seqno\":7,\"kind\":\"value\",\"value\":\"v\"}",
        LineError::Json,
    ),
    (b"{}", LineError::Members),
    (
        b"{\"key\":\"\",\"seqno\":7,\"value\":\"\"}",
        LineError::Members,
    ),
    (
        b"{\"key\":\"\",\"seqno\":7,\"kind\":\"value\",\"other\":\"\"}",
        LineError::Members,
    ),
    (
        b"{\"Key\":\"k\",\"seqno\":7,\"kind\":\"value\",\"value\":\"v\"}",
        LineError::Members,
    ),
    (
        b"{\"key\":\"k\",\"seqno\":7,\"kind\":\"value\",\"value\":\"v\",\"more\":1}",
        LineError::Members,
    ),
    (
        b"{\"key\":7,\"seqno\":\"\",\"kind\":7,\"other\":\"\"}",
        LineError::Members,
    ),
    (
        b"{\"key\":\"k\",\"seqno\":7.0,\"kind\":\"value\",\"value\":\"v\"}",
        LineError::NumberMember,
    ),
    (
        b"{\"key\":\"k\",\"seqno\":7e0,\"kind\":\"value\",\"value\":\"v\"}",
        LineError::NumberMember,
    ),
    (
        b"{\"key\":\"k\",\"seqno\":-7,\"kind\":\"value\",\"value\":\"v\"}",
        LineError::NumberMember,
    ),
    (
        b"{\"key\":\"k\",\"seqno\":-0,\"kind\":\"value\",\"value\":\"v\"}",
        LineError::NumberMember,
    ),
    (
        b"{\"key\":\"k\",\"seqno\":18446744073709551616,\"kind\":\"value\",\"value\":\"v\"}",
        LineError::NumberMember,
    ),
    (
        b"{\"key\":\"k\",\"seqno\":\"7\",\"kind\":\"value\",\"value\":\"v\"}",
        LineError::NumberMember,
    ),
    (
        b"{\"key\":\"k\",\"seqno\":null,\"kind\":\"value\",\"value\":\"v\"}",
        LineError::NumberMember,
    ),
    (
        b"{\"key\":\"k\",\"seqno\":[7],\"kind\":\"value\",\"value\":\"v\"}",
        LineError::NumberMember,
    ),
    (
        b"{\"key\":\"k\",\"seqno\":7,\"kind\":\"Value\",\"value\":\"v\"}",
        LineError::KindMember,
    ),
    (
        b"{\"key\":\"k\",\"seqno\":7,\"kind\":\"V\",\"value\":\"v\"}",
        LineError::KindMember,
    ),
    (
        b"{\"key\":\"k\",\"seqno\":7,\"kind\":\"\",\"value\":\"v\"}",
        LineError::KindMember,
    ),
    (
        b"{\"key\":\"k\",\"seqno\":7,\"kind\":7,\"value\":\"v\"}",
        LineError::KindMember,
    ),
    (
        b"{\"key\":\"k\",\"seqno\":7,\"kind\":null,\"value\":\"v\"}",
        LineError::KindMember,
    ),
    (
        b"{\"key\":7,\"seqno\":7,\"kind\":\"value\",\"value\":\"v\"}",
        LineError::KeyMember,
    ),
    (
        b"{\"key\":\"k\",\"seqno\":7,\"kind\":\"value\",\"value\":7}",
        LineError::ValueMember,
    ),
    (
        b"{\"key\":null,\"seqno\":7,\"kind\":\"value\",\"value\":\"v\"}",
        LineError::KeyMember,
    ),
    (
        b"{\"key\":\"k\",\"seqno\":7,\"kind\":\"value\",\"value\":null}",
        LineError::ValueMember,
    ),
    (
        b"{\"key\":[],\"seqno\":7,\"kind\":\"value\",\"value\":\"v\"}",
        LineError::KeyMember,
    ),
    (
        b"{\"key\":\"k\",\"seqno\":7,\"kind\":\"value\",\"value\":[]}",
        LineError::ValueMember,
    ),
    (
        b"{\"key\":{},\"seqno\":7,\"kind\":\"value\",\"value\":\"v\"}",
        LineError::KeyMember,
    ),
    (
        b"{\"key\":\"k\",\"seqno\":7,\"kind\":\"value\",\"value\":{}}",
        LineError::ValueMember,
    ),
    (
        b"{\"key\":{\"hex\":\"f\"},\"seqno\":7,\"kind\":\"value\",\"value\":\"v\"}",
        LineError::KeyMember,
    ),
    (
        b"{\"key\":\"k\",\"seqno\":7,\"kind\":\"value\",\"value\":{\"hex\":\"f\"}}",
        LineError::ValueMember,
    ),
    (
        b"{\"key\":{\"hex\":\"0g\"},\"seqno\":7,\"kind\":\"value\",\"value\":\"v\"}",
        LineError::KeyMember,
    ),
    (
        b"{\"key\":\"k\",\"seqno\":7,\"kind\":\"value\",\"value\":{\"hex\":\"0g\"}}",
        LineError::ValueMember,
    ),
    (
        b"{\"key\":{\"hex\":7},\"seqno\":7,\"kind\":\"value\",\"value\":\"v\"}",
        LineError::KeyMember,
    ),
    (
        b"{\"key\":\"k\",\"seqno\":7,\"kind\":\"value\",\"value\":{\"hex\":7}}",
        LineError::ValueMember,
    ),
    (
        b"{\"key\":{\"hey\":\"00\"},\"seqno\":7,\"kind\":\"value\",\"value\":\"v\"}",
        LineError::KeyMember,
    ),
    (
        b"{\"key\":\"k\",\"seqno\":7,\"kind\":\"value\",\"value\":{\"hey\":\"00\"}}",
        LineError::ValueMember,
    ),
    (
        b"{\"key\":{\"hex\":\"00\",\"more\":1},\"seqno\":7,\"kind\":\"value\",\"value\":\"v\"}",
        LineError::KeyMember,
    ),
    (
        b"{\"key\":\"k\",\"seqno\":7,\"kind\":\"value\",\"value\":{\"hex\":\"00\",\"more\":1}}",
        LineError::ValueMember,
    ),
];

fn count_refused<A: Allocator + Copy>(
    alloc: A,
    format: Format,
    lines: &[(&[u8], LineError)],
) -> usize {
    let mut count = 0usize;
    for (line, why) in lines {
        if refusal(alloc, format, line) == Some(*why) {
            count = count.saturating_add(1);
        }
    }
    count
}

#[test]
fn what_is_no_entry_is_refused(rt: HostRuntime) {
    assert!(rt; count_refused(rt.alloc(), Format::Lines, &BAD_LINES) == 9);
    assert!(rt; count_refused(rt.alloc(), Format::Json, &BAD_OBJECTS) == 53);
}

// Bytes that neither words nor JSON strings have as they are.
const HOSTILE: [&[u8]; 18] = [
    b"",
    b"-",
    b" ",
    b"\"",
    b"\\",
    b"\\x2d",
    b"\\ud800",
    b"\\u0041",
    b"{\"hex\":\"00\"}",
    b"\x00\x01\x02\x03\x04\x05\x06\x07\x08\x09\n\x0b\x0c\x0d\x0e\x0f",
    b"\x10\x11\x12\x13\x14\x15\x16\x17\x18\x19\x1a\x1b\x1c\x1d\x1e\x1f\x7f",
    b"\xff",
    b"\xc0\x80",
    b"\xe2\x82",
    b"\xed\xa0\x80",
    b"\xf4\x90\x80\x80",
    b"\xe2\x80\xa8\xef\xbb\xbf\xf0\x9f\x98\x80",
    b"k\n{\"key\"",
];

// Whether an entry with this key and value is one line, and reads back.
fn is_read_back<A: Allocator + Copy>(alloc: A, format: Format, bytes: &[u8]) -> bool {
    let entry = EntryRef {
        user_key: bytes,
        seqno: 7,
        value_type: ValueType::Value,
        value: bytes,
    };
    let Ok(text) = append_entry(alloc, Vec::new(alloc), &entry, format) else {
        return false;
    };
    let Some((end, line)) = text.split_last() else {
        return false;
    };
    *end == b'\n' && !line.contains(&b'\n') && is_entry(alloc, format, &entry, line)
}

fn count_read_back<A: Allocator + Copy>(alloc: A, format: Format) -> usize {
    let mut count = 0usize;
    for bytes in HOSTILE {
        if is_read_back(alloc, format, bytes) {
            count = count.saturating_add(1);
        }
    }
    count
}

#[test]
fn hostile_bytes_are_read_back(rt: HostRuntime) {
    assert!(rt; count_read_back(rt.alloc(), Format::Lines) == 18);
    assert!(rt; count_read_back(rt.alloc(), Format::Json) == 18);
}

// Objects with escapes, hex digits and another order, and their keys.
const SPELLED: [(&[u8], &[u8]); 5] = [
    (
        b"{\"key\":\"\\u0041\\ud83d\\ude00\",\"seqno\":7,\"kind\":\"value\",\"value\":\"v\"}",
        b"A\xf0\x9f\x98\x80",
    ),
    (
        b"{\"key\":\"\\/\\b\\f\\n\\r\\t\",\"seqno\":7,\"kind\":\"value\",\"value\":\"v\"}",
        b"/\x08\x0c\n\x0d\x09",
    ),
    (
        b"{\"key\":{\"hex\":\"00FfaB\"},\"seqno\":7,\"kind\":\"value\",\"value\":\"v\"}",
        b"\x00\xff\xab",
    ),
    (
        b"{\"key\":{\"hex\":\"\"},\"seqno\":7,\"kind\":\"value\",\"value\":\"v\"}",
        b"",
    ),
    (
        b" { \"value\" : \"v\" , \"kind\":\"value\",\"seqno\":7,\x09\"key\":\"k\"\x0d} ",
        b"k",
    ),
];

// Counts the objects that have these keys.
fn count_keys<A: Allocator + Copy>(alloc: A, objects: &[(&[u8], &[u8])]) -> usize {
    let mut count = 0usize;
    for (line, key) in objects {
        let entry = EntryRef {
            user_key: key,
            seqno: 7,
            value_type: ValueType::Value,
            value: b"v",
        };
        if is_entry(alloc, Format::Json, &entry, line) {
            count = count.saturating_add(1);
        }
    }
    count
}

#[test]
fn escapes_stand_for_their_bytes(rt: HostRuntime) {
    assert!(rt; count_keys(rt.alloc(), &SPELLED) == 5);
}
