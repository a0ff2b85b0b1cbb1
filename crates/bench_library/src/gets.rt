//! Point reads.
use crate::digest::{Digest, code};
use crate::files::open_copy;
use lsm_tables::table::Table;
use sst_blocks::{Error, SeqNo};
use std::alloc::Global;

// Reads each of the concatenated keys once.
fn get_each(
    table: &Table,
    keys: &[u8],
    key_len: usize,
    seqno: SeqNo,
    digest: &mut Digest,
) -> Result<(), Error> {
    let mut rest = keys;
    for _ in 0..keys.len() {
        let Some((key, after)) = rest.split_at_checked(key_len) else {
            break;
        };
        rest = after;
        let hash = Table::<Global>::key_hash(key);
        if let Some(item) = table.get(key, seqno, hash)? {
            digest.add(&item);
        }
    }
    Ok(())
}

fn get_passes(
    alloc: Global,
    file: &[u8],
    keys: &[u8],
    key_len: usize,
    passes: u64,
    digest: &mut Digest,
) -> Result<(), Error> {
    let table = open_copy(alloc, file)?;
    for _ in 0..passes {
        *digest = Digest::empty();
        get_each(&table, keys, key_len, SeqNo::MAX, digest)?;
    }
    Ok(())
}

/// Copies and opens a table, and reads the newest version of each key, in each pass.
///
/// The keys have one length and are concatenated; an incomplete last one is ignored. `digest` is
/// that of the last pass.
#[unsafe(no_mangle)]
pub extern "C" fn tool_bench_get(
    alloc: Global,
    file: &[u8],
    keys: &[u8],
    key_len: usize,
    passes: u64,
    digest: &mut Digest,
) -> u32 {
    code(get_passes(alloc, file, keys, key_len, passes, digest))
}
