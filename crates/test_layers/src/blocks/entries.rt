//! Entries alone: their shares, their order, and comparison with a slice.
use sst_blocks::{InternalValue, SeqNo, Slice, ValueType};
use std::alloc::{AllocError, Global};

// A value `v` of a key and a sequence number.
fn entry(key: Slice, seqno: SeqNo) -> InternalValue {
    InternalValue::from_components(key, Slice::from_static(b"v"), seqno, ValueType::Value)
}

// Whether a result equals a value. It is generic, so that a proof looks at no part of the value.
fn is_like<T: PartialEq + Drop>(made: Result<T, AllocError>, value: &T) -> bool {
    match made {
        Ok(made) => made == *value,
        Err(_) => false,
    }
}

// Whether an entry and its key equal their shares.
fn shares_are_alike(alloc: Global) -> bool {
    match Slice::from(alloc, b"a") {
        Ok(key) => {
            let item = entry(key, 2);
            is_like(item.clone(), &item) && is_like(item.key.clone(), &item.key)
        }
        Err(_) => false,
    }
}

// Whether one value is less than another. It is generic, so that a proof looks at no part of them.
fn is_less<T: PartialOrd + Drop>(one: T, other: T) -> bool {
    one < other
}

// Two keys with their sequence numbers, and whether the first sorts before the second.
const ORDERS: &[((&[u8], SeqNo), (&[u8], SeqNo), bool)] = &[
    ((b"a", 1), (b"b", 2), true),
    ((b"a", 2), (b"a", 1), true),
    ((b"a", 1), (b"a", 1), false),
];

#[test]
fn an_entry_is_shared_and_ordered_by_key_upward_and_number_downward(rt: HostRuntime) {
    assert!(rt; shares_are_alike(rt.alloc()));
    for &(one, other, expected) in ORDERS {
        let is_less = is_less(
            entry(Slice::from_static(one.0), one.1),
            entry(Slice::from_static(other.0), other.1),
        );
        assert!(rt; is_less == expected);
    }
}

// Some bytes, and whether a slice of `ab` equals them.
const EQUAL: &[(&[u8], bool)] = &[(b"ab", true), (b"aa", false), (b"a", false)];

#[test]
fn a_slice_is_compared_with_bytes(rt: HostRuntime) {
    let slice = Slice::<Global>::from_static(b"ab");
    for &(bytes, expected) in EQUAL {
        assert!(rt; slice.equals(bytes) == expected);
    }
}
