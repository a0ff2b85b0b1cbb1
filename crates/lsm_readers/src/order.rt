//! The order in which the keys of a batch of queries are looked up.

use crate::Query;
use byteorder::{BigEndian, ByteOrder};
use sst_entries::compare_versions;
use std::alloc::{AllocError, Allocator};
use std::cmp::Ordering;

/// The index of a query in its list, with eight bytes of its key as a number. The bytes are those
/// after the prefix that all keys of the list share. The number decides most comparisons without
/// fetching a key.
#[derive(Clone, Copy)]
pub(crate) struct Headed {
    head: u64,
    pub(crate) at: usize,
}

/// The length of the common prefix of two keys, at most `most`.
fn common_len(key: &[u8], other: &[u8], most: usize) -> usize {
    for at in 0..most {
        match (key.get(at), other.get(at)) {
            (Some(byte), Some(other)) if *byte == *other => {}
            _ => return at,
        }
    }
    most
}

/// The length of the prefix that the keys of all queries share.
fn shared_len<A: Allocator>(queries: &[Query<A>]) -> usize {
    let Some(first) = queries.first() else {
        return 0;
    };
    let mut shared = first.key.len();
    for query in queries {
        shared = common_len(first.key.as_slice(), query.key.as_slice(), shared);
    }
    shared
}

/// Eight bytes of a key from an offset as a big-endian number, padded with zeros. If two keys agree
/// up to the offset, the smaller key never has the greater number.
fn head_at(key: &[u8], from: usize) -> u64 {
    if from <= key.len() && 8 <= key.len() - from {
        return BigEndian::read_u64(&key[from..]);
    }
    let mut head = 0;
    for ahead in 0..8 {
        let byte = match key.get(from.wrapping_add(ahead)) {
            Some(byte) => u64::from(*byte),
            None => 0,
        };
        head = head << 8 | byte;
    }
    head
}

/// Orders queries by key ascending, then by seqno descending. An index past the end is equal to
/// any.
fn compare_queries<A: Allocator>(queries: &[Query<A>], at: usize, other_at: usize) -> Ordering {
    match (queries.get(at), queries.get(other_at)) {
        (Some(query), Some(other)) => compare_versions(
            query.key.as_slice(),
            query.seqno,
            other.key.as_slice(),
            other.seqno,
        ),
        _ => Ordering::Equal,
    }
}

/// Orders queries as [`compare_queries`] does, by eight bytes of their keys if these differ.
fn compare_headed<A: Allocator>(queries: &[Query<A>], a: &Headed, b: &Headed) -> Ordering {
    match a.head.cmp(&b.head) {
        Ordering::Equal => compare_queries(queries, a.at, b.at),
        unequal => unequal,
    }
}

/// The indexes of some queries, in the order of their keys.
pub(crate) fn key_order<A: Allocator>(
    alloc: A,
    queries: &[Query<A>],
) -> Result<Vec<Headed, A>, AllocError> {
    let shared = shared_len(queries);
    let mut order = Vec::with_capacity(alloc, queries.len())?;
    for (at, query) in queries.iter().enumerate() {
        let head = head_at(query.key.as_slice(), shared);
        order.push(Headed { head, at })?;
    }
    order.sort_unstable_by(|a, b| compare_headed(queries, a, b));
    Ok(order)
}
