//! Many point reads of a table in one call.
use crate::given::{FORMS, Form, PINS, Pins, ROWS, bytes_of, opened};
use lsm_files::FileError;
use lsm_readers::Query;
use sst_blocks::{Error, InternalValue, SeqNo, Slice};
use std::alloc::Global;

// Keys and snapshots, not in key order, and the index of the row that is found, if any.
const QUERIES: &[(&[u8], SeqNo, Option<usize>)] = &[
    (b"plum", 100, Some(5)),
    (b"apple", 100, Some(0)),
    (b"apple", 7, Some(1)),
    (b"apple", 3, None),
    (b"banana", 100, None),
    (b"cherry", 10, Some(2)),
    (b"grape", 100, Some(3)),
    (b"melon", 100, Some(4)),
    (b"plum", 100, Some(5)),
];

fn queries(alloc: Global) -> Result<Vec<Query>, Error> {
    let mut queries = Vec::new(alloc);
    for &(key, seqno, _) in QUERIES {
        let key = Slice::from_static(key);
        queries.push(Query { key, seqno })?;
    }
    Ok(queries)
}

fn is_found(found: &Option<InternalValue>, expected: Option<usize>) -> bool {
    match (found, expected) {
        (Some(item), Some(at)) => match ROWS.get(at) {
            Some(row) => item.key.seqno == row.1 && item.value.as_slice() == row.2,
            None => false,
        },
        (None, None) => true,
        _ => false,
    }
}

fn are_found(found: &[Option<InternalValue>]) -> bool {
    if found.len() != QUERIES.len() {
        return false;
    }
    for (one, query) in found.iter().zip(QUERIES.iter()) {
        if !is_found(one, query.2) {
            return false;
        }
    }
    true
}

fn many_are_read(alloc: Global, form: Form, pins: Pins) -> Result<bool, FileError> {
    let bytes = bytes_of(alloc, form)?;
    let table = opened(alloc, bytes.as_slice(), pins)?;
    let queries = queries(alloc)?;
    let found = table.get_many(&queries)?;
    Ok(are_found(&found))
}

#[test]
fn many_keys_are_read_in_one_call(rt: HostRuntime) {
    for &form in FORMS {
        for &pins in PINS {
            let are_read = many_are_read(rt.alloc(), form, pins);
            assert!(rt; matches!(are_read, Ok(true)));
        }
    }
}
