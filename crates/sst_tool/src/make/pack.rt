//! Packs files into runs.
ghost use Rattle.std.specs.Prelude.{IfErr, IfOk, OnOk};
ghost use Rattle.sst_tool.specs.make.Words as spec;

use crate::files::{Place, ToolError, open_tables};
use crate::make::print::path_at;
use lsm_readers::Table;
use lsm_sorted::{Packed, Ranged, pack_each};
use std::alloc::Allocator;

// Tests that no file's first key is above its last.
fn check_ranges<'a, T: Ranged>(paths: &[&'a str], tables: &[T]) -> Result<(), ToolError<'a>>
    ensures ok { OnOk result (spec.AreTablesWellFormed T.range tables.now) }
    // The error names such a file.
    ensures err { IfErr result (spec.NamesTurned T.range paths.now tables.now) }
{
    for (place, table) in tables.iter().enumerate() {
        if !table.key_range().is_well_formed() {
            return Err(ToolError::Range(path_at(paths, place)));
        }
    }
    Ok(())
}

/// Packs table files, each as a run of its own and the newest first, into the fewest runs in which
/// each key keeps the order of its tables. The files are not changed.
///
/// # Errors
///
/// Fails as [`open_tables`] does, if the first key of a file is above its last, and with
/// `OutOfMemory`.
#[tactic(auto, using(crate::proofs::Blaming::blamed_packs))]
pub fn pack_files<'a, P: Place, A: Allocator + Copy>(
    place: &P,
    alloc: A,
    paths: &[&'a str],
) -> Result<Packed<Table<A>, A>, ToolError<'a>>
    // The result has the tables of these files, packed.
    ensures ok { IfOk result (λ packed. spec.OpenAs (P.content place.now) paths.now
        (λ opened. spec.IsPackedOf spec.range_of opened packed)) }
    // The error names the first file that does not open, or the first whose first key is above its
    // last; or it is OutOfMemory.
    ensures err { IfErr result (spec.RefusesToPack (P.content place.now) paths.now) }
{
    let tables = open_tables(place, alloc, paths, true)?;
    check_ranges(paths, &tables)?;
    Ok(pack_each(alloc, tables)?)
}
