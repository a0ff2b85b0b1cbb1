//! Many point reads at once.
use crate::digest::{Digest, code};
use crate::files::open_copy;
use lsm_tables::table::{Query, get_many};
use sst_blocks::{Error, InternalValue, SeqNo, Slice};
use std::alloc::Global;

// A query for the newest version of each key. The keys are concatenated.
fn queries_of(alloc: Global, keys: &[u8], key_len: usize) -> Result<Vec<Query>, Error> {
    let mut queries = Vec::new(alloc);
    let mut rest = keys;
    for _ in 0..keys.len() {
        let Some((key, after)) = rest.split_at_checked(key_len) else {
            break;
        };
        rest = after;
        let key = Slice::from(alloc, key)?;
        queries.push(Query {
            key,
            seqno: SeqNo::MAX,
        })?;
    }
    Ok(queries)
}

fn add_found(found: &[Option<InternalValue>], digest: &mut Digest) {
    for answer in found {
        if let Some(item) = answer {
            digest.add(item);
        }
    }
}

fn batch_passes(
    alloc: Global,
    file: &[u8],
    keys: &[u8],
    key_len: usize,
    passes: u64,
    digest: &mut Digest,
) -> Result<(), Error> {
    let table = open_copy(alloc, file)?;
    let queries = queries_of(alloc, keys, key_len)?;
    for _ in 0..passes {
        *digest = Digest::empty();
        add_found(&get_many(&table, &queries)?, digest);
    }
    Ok(())
}

/// Copies and opens a table, copies the keys, and reads the newest version of each key, all in one
/// call of [`get_many`] a pass.
///
/// The keys have one length and are concatenated; an incomplete last one is ignored. `digest` is
/// that of the last pass, in the keys' order.
#[unsafe(no_mangle)]
pub extern "C" fn tool_bench_get_many(
    alloc: Global,
    file: &[u8],
    keys: &[u8],
    key_len: usize,
    passes: u64,
    digest: &mut Digest,
) -> u32 {
    code(batch_passes(alloc, file, keys, key_len, passes, digest))
}
