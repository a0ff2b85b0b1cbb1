//! The newest versions of several tables together.
ghost use Rattle.std.specs.Prelude.{All};
ghost use Rattle.std.specs.Iterator.{IsFinite};
ghost use Rattle.sst_entries.specs.Stream.{CanYield, nowhere};

use crate::digest::{Digest, code};
use crate::files::{scanners_of, tables_of};
use crate::lending::merge_lent;
use crate::ranges::take_newest;
use lsm_sorted::newest_of;
use lsm_tables::table::Table;
use sst_blocks::{Error, IterItem};
use std::alloc::Global;

// Takes the newest versions of several sources. Generic in these: a whole concrete stream makes a
// proof expensive.
#[tactic(auto, using(sst_entries::proofs::StreamLemmas::can_now))]
fn drain_newest<S: Iterator<Item = IterItem<Global>> + Drop>(
    alloc: Global,
    sources: Vec<S>,
    digest: &mut Digest,
) -> Result<(), Error>
    requires can { All (CanYield S.next_gives nowhere S.can_next S.can_next) sources.items }
    requires finite { All (λ s. IsFinite (S.remaining s)) sources.items }
{
    take_newest(newest_of(alloc, sources)?, digest)
}

fn merge(alloc: Global, tables: &[Table], digest: &mut Digest) -> Result<(), Error> {
    drain_newest(alloc, scanners_of(alloc, tables)?, digest)
}

fn merge_once(
    alloc: Global,
    tables: &[Table],
    lent: bool,
    digest: &mut Digest,
) -> Result<(), Error> {
    if lent {
        merge_lent(alloc, tables, digest)
    } else {
        merge(alloc, tables, digest)
    }
}

// Copies and opens tables, and iterates over their newest versions, lent or owned, in each pass.
pub(crate) fn merge_passes(
    alloc: Global,
    files: &[u8],
    lens: &[u64],
    lent: bool,
    passes: u64,
    digest: &mut Digest,
) -> Result<(), Error> {
    let tables = tables_of(alloc, files, lens)?;
    for _ in 0..passes {
        *digest = Digest::empty();
        merge_once(alloc, &tables, lent, digest)?;
    }
    Ok(())
}

/// Copies and opens tables, and takes the newest version of each key of all of them, in each pass.
///
/// The tables are concatenated in `files`, with their lengths in `lens`. `digest` is that of the
/// last pass.
#[unsafe(no_mangle)]
pub extern "C" fn tool_bench_merge(
    alloc: Global,
    files: &[u8],
    lens: &[u64],
    passes: u64,
    digest: &mut Digest,
) -> u32 {
    code(merge_passes(alloc, files, lens, false, passes, digest))
}
