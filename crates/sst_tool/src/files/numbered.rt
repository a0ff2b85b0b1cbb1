//! The files of tables.
ghost use Rattle.std.specs.Prelude.{◌≡◌, IfOk, map};
ghost use Rattle.sst_tool.specs.files.Words as spec;

use crate::files::{FileName, NewFile};
use lsm_writers::FinishedTable;
use std::alloc::{AllocError, Allocator};

/// Returns the files of tables. Names with a number are numbered from 1.
///
/// # Errors
///
/// Fails only if memory runs out.
pub fn table_files<'a, 'b, A: Allocator + Copy>(
    alloc: A,
    name: FileName<'a>,
    tables: &'b [FinishedTable<A>],
) -> Result<Vec<NewFile<'a, 'b>, A>, AllocError>
    ensures { IfOk result (λ wanted. map spec.named_bytes wanted.items
        ≡ spec.numbered_files (spec.numbered_path name.entry) 1
        (map (λ table. table.bytes) tables.now)) }
{
    let mut wanted = Vec::new(alloc);
    for table in tables {
        let number = (wanted.len() as u64).saturating_add(1);
        wanted.push(NewFile {
            name: name.with_number(number),
            bytes: table.bytes.as_slice(),
        })?;
    }
    Ok(wanted)
}
