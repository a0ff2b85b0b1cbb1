//! New folders of tables.
ghost use Rattle.std.specs.Prelude.{◌≡◌, IfErr, IfSome, OnOk, false};
ghost use Rattle.sst_tool.specs.make.Words as spec;

use crate::files::{FileError, FileFault, FileName, Place, ToolError, check_free, place_folder};
use lsm_writers::FinishedTable;
use std::alloc::Allocator;

/// Tests that a folder's name is free.
///
/// # Errors
///
/// Fails if something has the name, and if it cannot be looked up.
#[tactic(auto, using(crate::proofs::Blaming::found_memory))]
pub(crate) fn check_folder<'a, P: Place>(place: &P, folder: &'a str) -> Result<(), ToolError<'a>>
    ensures free { OnOk result
        (IfSome (P.there place.now folder.now) (λ there. there ≡ false)) }
    ensures taken { IfErr result
        (spec.TellsFolder folder.now (spec.TellsFound spec.Taken (P.there place.now folder.now))) }
    ensures order { IfErr result (λ e. spec.IfOutOfOrder e ⊥) }
    ensures memory { IfErr result spec.BlamesNoneForMemory }
{
    match check_free(place, folder, FileFault::Taken) {
        Ok(()) => Ok(()),
        Err(fault) => Err(ToolError::File(FileError {
            name: FileName::Plain(folder),
            fault,
        })),
    }
}

/// Writes tables into a new folder.
///
/// # Errors
///
/// Fails as [`place_folder`] does.
#[tactic(auto, using(crate::proofs::Blaming::blamed_memory, crate::proofs::Blaming::blamed_order))]
pub(crate) fn write_tables<'a, P: Place, A: Allocator + Copy>(
    place: &mut P,
    alloc: A,
    folder: &'a str,
    tables: &[FinishedTable<A>],
) -> Result<(), ToolError<'a>>
    ensures filled { OnOk result
        (spec.IsFilled folder.now tables.now (P.done place.old) (P.done place.new)) }
    ensures refused { IfErr result (λ e.
        spec.StaysUnfilled folder.now tables.now (P.done place.old) e (P.done place.new)) }
    ensures order { IfErr result (λ e. spec.IfOutOfOrder e ⊥) }
    ensures memory { IfErr result spec.BlamesNoneForMemory }
{
    Ok(place_folder(place, alloc, folder, tables)?)
}
