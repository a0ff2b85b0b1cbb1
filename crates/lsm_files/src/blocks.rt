//! A source that reads each block from a file when it is loaded.
ghost use Rattle.std.specs.Prelude.{◌≡◌, length, IfErr, IfOk, true, false, Ok};
ghost use Rattle.lsm_files.specs.Words as spec;

use crate::read_at::read_slice;
use crate::{FileError, ReadAt};
use sst_blocks::{Block, BlockHandle, BlockType, Error, Header, LoadBlocks, Opened, Slice};
use std::alloc::{Allocator, Global};
use std::io;
use std::marker::Model;

/// A source that reads each block from a file when it is loaded. Only calls of `FileTable` make one.
///
/// A load whose read fails reports [`Error::OutOfMemory`], and the source keeps the system's error.
/// [`FileBlocks::result`] returns that error in place of the other.
#[derive(Drop)]
pub struct FileBlocks<'a, R: ReadAt, A: Allocator = Global> {
    file: &'a R,
    alloc: &'a A,
    // The number of bytes before the trailer.
    body_len: u64,
    opened: Opened,
    // Why a read failed.
    failure: Option<io::Error>,
}

impl<'a, R: ReadAt, A: Allocator> Model for FileBlocks<'a, R, A> {
    ghost use Rattle.std.specs.Prelude.{◌≡◌, List, ℕ, Bool, false, is_some, length};
    ghost use Rattle.sst_blocks.specs.declared.opened.Opened.{Opened};
    ghost use Rattle.sst_blocks.specs.Sections.{body_of};
    ghost use Rattle.lsm_files.specs.Reads.{AreKnown, NeverFails};

    // The bytes of the file, the counts of loads, and whether a read failed.
    ghost Value = { List ℕ × Opened × Bool };

    ghost view = { λ s. (R.bytes s.file.now, s.opened, is_some s.failure) };

    ghost invariant = { λ s.
        (AreKnown R.reads → s.body_len ≡ length (body_of (R.bytes s.file.now))) ×
        (NeverFails R.reads → is_some s.failure ≡ false) };
}

impl<'a, R: ReadAt, A: Allocator + Clone> FileBlocks<'a, R, A> {
    /// Creates a source of the blocks in a file whose trailer starts at `body_len`.
    pub(crate) fn new(file: &'a R, alloc: &'a A, body_len: u64) -> FileBlocks<'a, R, A>
        requires { spec.AreKnown R.reads → body_len ≡ length (spec.body_of (R.bytes file.now)) }
        ensures bytes { result.0 ≡ R.bytes file.now }
        ensures none { result.1 ≡ spec.none_opened }
        ensures whole { result.2 ≡ false }
    {
        FileBlocks {
            file,
            alloc,
            body_len,
            opened: Opened::none(),
            failure: None,
        }
    }

    /// Returns the number of loads of each kind.
    pub fn opened(&self) -> Opened
        ensures { result ≡ self.now.1 }
    {
        self.opened
    }

    /// Counts a load that a cache answered.
    pub(crate) fn count(&mut self, kind: BlockType)
        ensures bytes { self.new.0 ≡ self.old.0 }
        ensures counted { self.new.1 ≡ spec.with_load kind self.old.1 }
        ensures same { self.new.2 ≡ self.old.2 }
    {
        self.opened.count(kind);
    }

    /// Returns a result of calls on this source.
    ///
    /// # Errors
    ///
    /// The system's error if a read failed, else the error of the result.
    pub fn result<T: Drop>(self, found: Result<T, Error>) -> Result<T, FileError>
        ensures ok { IfOk found (λ x. result ≡ Ok x) }
        ensures err { IfErr found (λ e. spec.IsErrAnd result (spec.IsFailureOr R.reads e)) }
        // A failed read is never reported as a fault of the table, nor as `OutOfMemory`.
        ensures failed { self.entry.2 ≡ true → IfErr result spec.IsIo }
    {
        match found {
            Ok(value) => Ok(value),
            Err(error) => Err(self.failure_or(error)),
        }
    }

    /// The system's error if a read failed, else this one.
    fn failure_or(self, error: Error) -> FileError
        ensures failed { self.entry.2 ≡ true → spec.IsIo result }
        ensures returned { spec.IsFailureOr R.reads error result }
    {
        match self.failure {
            Some(failure) => FileError::Io(failure),
            None => FileError::Table(error),
        }
    }

    /// Keeps the system's error of a read, and returns [`Error::OutOfMemory`] in its place. Other
    /// results are returned as they are.
    fn keep(&mut self, read: Result<Slice<A>, FileError>) -> Result<Slice<A>, Error>
        requires { IfErr read (spec.MayBeError R.reads) }
        ensures { (result, self.new) ≡ spec.kept_failure read self.old }
    {
        match read {
            Ok(part) => Ok(part),
            Err(FileError::Table(error)) => Err(error),
            Err(FileError::Io(error)) => {
                self.failure = Some(error);
                Err(Error::OutOfMemory)
            }
        }
    }

    /// Reads the bytes that a handle describes.
    ///
    /// Fails with [`Error::Truncated`] if the handle's size is below a header's or reaches past the
    /// body, else with [`Error::OutOfMemory`].
    fn read(&mut self, handle: &BlockHandle) -> Result<Slice<A>, Error>
        ensures part { let body = spec.body_of self.old.0 in
            spec.AreKnown R.reads → IfOk result (λ part.
            spec.IsPartAt body handle.now.offset part × (length part ≡ handle.now.size)) }
        ensures fault { IfErr result (λ e. spec.is_memory e ≡ false →
            spec.IsHandleFault R.reads handle.now (spec.body_of self.old.0) e) }
        ensures bytes { self.new.0 ≡ self.old.0 }
        ensures opened { self.new.1 ≡ self.old.1 }
    {
        let size = u64::from(handle.size());
        if size < Header::serialized_len() as u64
            || self.body_len < size
            || self.body_len - size < handle.offset().0
        {
            return Err(Error::Truncated);
        }
        let read = read_slice(self.file, self.alloc, handle.offset().0, size);
        self.keep(read)
    }
}

impl<R: ReadAt, A: Allocator + Clone> LoadBlocks for FileBlocks<'_, R, A> {
    ghost use Rattle.sst_blocks.specs.Sections.{body_of};
    ghost use Rattle.lsm_files.specs.Reads.{access_of};

    type Alloc = A;

    ghost access = { access_of R.reads };

    ghost body = { λ s. body_of s.0 };

    ghost opened = { λ s. s.1 };

    fn load(&mut self, handle: &BlockHandle, kind: BlockType) -> Result<Block<A>, Error> {
        self.opened.count(kind);
        let bytes = self.read(handle)?;
        Block::decode(self.alloc.clone()?, kind, bytes)
    }
}
