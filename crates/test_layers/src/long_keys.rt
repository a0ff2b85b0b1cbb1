//! Keys of the greatest length and longer ones, which are built when the test runs.
use crate::given::{MAY_NOT_FOLLOW, number};
use lsm_writers::Writer;
use sst_blocks::{Error, ValueType};
use std::alloc::Global;
use test_support::samples::rows::{new_writer, put_rows};

// The error code of writing an entry, 0 if it is written.
fn write_key(alloc: Global, writer: &mut Writer, key: &[u8]) -> u8 {
    match put_rows(alloc, writer, &[(key, 1, ValueType::Value, b"")]) {
        Ok(true) => 0,
        Ok(false) => MAY_NOT_FOLLOW,
        Err(error) => error.number(),
    }
}

// The error codes of writing two keys and then `b`, and of a cut.
fn write_keys(alloc: Global, writer: &mut Writer, first: &[u8], second: &[u8]) -> [u8; 4] {
    [
        write_key(alloc, writer, first),
        write_key(alloc, writer, second),
        write_key(alloc, writer, b"b"),
        number(writer.spill_block()),
    ]
}

// The error codes of one writer, the last of `finish`, and whether it is empty before `finish`.
fn up_to_the_end(alloc: Global, first: &[u8], second: &[u8]) -> Result<([u8; 4], u8, bool), Error> {
    let mut writer = new_writer(alloc)?;
    let numbers = write_keys(alloc, &mut writer, first, second);
    let is_empty = writer.is_empty();
    Ok((numbers, number(writer.finish()), is_empty))
}

// The error codes of one writer for keys of the byte `a` of two lengths, and whether it is empty
// before `finish`.
fn written(alloc: Global, first: usize, second: usize) -> Result<([u8; 4], u8, bool), Error> {
    let key = vec![in alloc; 0x61u8; first.max(second)]?;
    up_to_the_end(alloc, &key[..first], &key[..second])
}

// The lengths of two keys, the error codes of writing these, `b`, and of a cut, and that of
// `finish`.
const CASES: [(usize, usize, [u8; 4], u8); 3] = [
    (1_048_575, 1_048_576, [0; 4], 0),
    (1_048_576, 1_048_577, [0, 7, 23, 23], 23),
    (1_048_577, 1_048_578, [7, 23, 23, 23], 23),
];

#[test]
fn refuses_long_keys_and_whatever_follows(rt: HostRuntime) {
    for &(first, second, numbers, last) in &CASES {
        assert!(rt; written(rt.alloc(), first, second) == Ok((numbers, last, false)));
    }
}
