//! The system that the tool runs on.
use sst_tool::files::Disk;
use std::alloc::Global;
use std::rt::Files;

/// The files, the clock and the allocator.
#[derive_where(Clone, Copy)]
pub struct System<'r, R, C> {
    /// The files.
    pub files: &'r R,
    /// The clock, for the creation time of tables.
    pub clock: &'r C,
    /// The allocator.
    pub alloc: Global,
}

impl<'r, R: Files, C> System<'r, R, C> {
    /// Returns the system's files.
    pub(crate) fn disk(self) -> Disk<'r, R> {
        Disk { files: self.files }
    }
}
