//! Opened files.
use lsm_files::ReadAt;
use sst_blocks::Slice;
use std::alloc::{AllocError, Allocator, Global};
use std::io;

/// An opened file, which is read at an offset.
#[derive(Drop)]
pub enum Contents<F, A: Allocator = Global> {
    /// A regular file.
    File(F),
    /// The bytes of another file, such as a pipe, read to its end.
    Memory(Slice<A>),
}

impl<F, A: Allocator + Clone> Contents<F, A> {
    /// Returns the bytes if they are in memory. Such a file may not be read again.
    ///
    /// # Errors
    ///
    /// Fails only if memory runs out.
    pub(crate) fn in_memory(&self) -> Result<Option<Slice<A>>, AllocError> {
        match self {
            Contents::File(_) => Ok(None),
            Contents::Memory(bytes) => Ok(Some(bytes.clone()?)),
        }
    }
}

impl<F: ReadAt, A: Allocator> ReadAt for Contents<F, A> {
    ghost use Rattle.sst_tool.specs.files.Contents.{bytes_in};

    ghost reads = { F.reads };

    ghost bytes = { λ contents. bytes_in F.bytes contents };

    fn len(&self) -> io::Result<u64> {
        match self {
            Contents::File(file) => file.len(),
            Contents::Memory(bytes) => Ok(bytes.len() as u64),
        }
    }

    fn read_exact_at(&self, buf: &mut [u8], offset: u64) -> io::Result<()> {
        match self {
            Contents::File(file) => file.read_exact_at(buf, offset),
            Contents::Memory(bytes) => bytes.read_exact_at(buf, offset),
        }
    }
}
