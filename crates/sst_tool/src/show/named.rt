//! Opened files.
ghost use Rattle.sst_tool.specs.show.Words as spec;

use crate::files::ToolError;
use crate::show::refused_at;
use lsm_readers::Table;
use sst_blocks::Error;
use std::alloc::{Allocator, Global};

/// An opened table file.
#[derive(Drop)]
pub struct NamedTable<'a, A: Allocator = Global> {
    /// The name of the file, as given.
    pub name: &'a str,
    /// The table.
    pub table: Table<A>,
}

impl<'a, A: Allocator + Copy> NamedTable<'a, A> {
    /// Returns the error of reading the file. An error of the library gets the file's name; other
    /// errors and `OutOfMemory` stay.
    pub(crate) fn blame(&self, alloc: A, error: ToolError<'a>) -> ToolError<'a>
        ensures { spec.BlamesFile self.now error.entry result }
    {
        match error {
            ToolError::Refused(Error::OutOfMemory) => ToolError::Refused(Error::OutOfMemory),
            ToolError::Refused(error) => self.refused(alloc, error),
            error => error,
        }
    }

    // Adds the file's name, and the block that the error comes from if it is found.
    fn refused(&self, alloc: A, error: Error) -> ToolError<'a>
        ensures { spec.NamesRefusal self.now error result }
    {
        ToolError::Unreadable {
            name: self.name,
            at: refused_at(alloc, &self.table, &error),
            error,
        }
    }
}
