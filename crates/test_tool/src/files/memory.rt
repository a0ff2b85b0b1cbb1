//! A file system in memory.
use lsm_files::ReadAt;
use lsm_tables::block::Slice;
use sst_tool::files::{Contents, FileFault, Place};
use std::alloc::{AllocError, Allocator, Global};
use std::cell::Cell;
use std::fs::{Metadata, Permissions};
use std::io;
use std::io::ErrorKind;

/// A file or a folder.
#[derive(Drop)]
struct File {
    path: String,
    // none for a folder
    bytes: Option<Vec<u8>>,
}

/// Files in memory. Steps that can fail are counted, and one of them fails.
#[derive(Drop)]
pub(crate) struct Memory {
    alloc: Global,
    files: Vec<File>,
    steps: u64,
    refused: u64,
    // whether nothing can be removed
    held: bool,
    // how many reads of an opened file succeed; none if it is read to its end, as a pipe
    reads: Option<u64>,
}

impl Memory {
    /// Returns a file system without files, in which the step of this number fails.
    pub(crate) fn new(alloc: Global, refused: u64) -> Memory {
        Memory {
            alloc,
            files: Vec::new(alloc),
            steps: 0,
            refused,
            held: false,
            reads: Some(u64::MAX),
        }
    }

    /// Lets so many reads of each opened file succeed. Without a number they are read to their end
    /// when they are opened, as a pipe.
    pub(crate) fn limit(&mut self, reads: Option<u64>) {
        self.reads = reads;
    }

    /// Lets each removal fail, or none.
    pub(crate) fn hold(&mut self, held: bool) {
        self.held = held;
    }

    /// Counts from 0 again, and lets the step of this number fail.
    pub(crate) fn refuse(&mut self, refused: u64) {
        self.steps = 0;
        self.refused = refused;
    }

    /// Returns the number of steps, the failed one included.
    pub(crate) fn steps(&self) -> u64 {
        self.steps
    }

    /// Returns the number of files and folders.
    pub(crate) fn count(&self) -> usize {
        self.files.len()
    }

    /// Returns the bytes of a file.
    pub(crate) fn bytes_of(&self, path: &str) -> Option<&[u8]> {
        for file in &self.files {
            if file.path.as_str() == path {
                return file.bytes.as_deref();
            }
        }
        None
    }

    /// Changes a byte of a file's first block, which is no step.
    pub(crate) fn damage(&mut self, path: &str) {
        for file in &mut self.files {
            if file.path.as_str() == path {
                flip(&mut file.bytes);
            }
        }
    }

    /// Adds a file or a folder, which is no step.
    pub(crate) fn put(&mut self, path: &str, bytes: Option<&[u8]>) -> Result<(), AllocError> {
        let path = String::from_str(self.alloc, path)?;
        let bytes = match bytes {
            Some(bytes) => Some(copied(self.alloc, bytes)?),
            None => None,
        };
        self.files.push(File { path, bytes })?;
        Ok(())
    }

    /// Returns whether a path is taken.
    pub(crate) fn has(&self, path: &str) -> bool {
        for file in &self.files {
            if file.path.as_str() == path {
                return true;
            }
        }
        false
    }

    // Whether a folder has files.
    fn has_within(&self, folder: &str) -> bool {
        for file in &self.files {
            if file
                .path
                .as_str()
                .strip_prefix(folder)
                .is_some_and(|rest| rest.starts_with("/"))
            {
                return true;
            }
        }
        false
    }

    // Renames a file, or a folder with its files.
    fn rename_all(&mut self, from: &str, to: &str) -> Result<(), AllocError> {
        for file in &mut self.files {
            let Some(rest) = file.path.as_str().strip_prefix(from) else {
                continue;
            };
            if rest.is_empty() || rest.starts_with("/") {
                let path = format!(in self.alloc; "{to}{rest}")?;
                file.path = path;
            }
        }
        Ok(())
    }

    // Removes the file or folder at a path.
    fn forget(&mut self, path: &str) {
        self.files.retain(|file| file.path.as_str() != path);
    }

    // Counts a step, and fails if it is the one.
    fn step(&mut self) -> io::Result<()> {
        let step = self.steps;
        self.steps = step.saturating_add(1);
        if step == self.refused {
            return Err(io::Error::from(ErrorKind::PermissionDenied));
        }
        Ok(())
    }
}

// Changes a byte of the first block.
fn flip(bytes: &mut Option<Vec<u8>>) {
    if let Some(bytes) = bytes {
        if let Some(byte) = bytes.get_mut(40) {
            *byte ^= 1;
        }
    }
}

// A copy of the bytes.
fn copied(alloc: Global, bytes: &[u8]) -> Result<Vec<u8>, AllocError> {
    let mut copy = Vec::new(alloc);
    copy.extend_from_slice(bytes)?;
    Ok(copy)
}

/// An opened file, of which so many reads succeed.
#[derive(Drop)]
pub(crate) struct Opened {
    bytes: Slice,
    left: Cell<u64>,
}

impl ReadAt for Opened {
    ghost use Rattle.std.specs.Prelude.{[]};
    ghost use Rattle.lsm_files.specs.Reads.{unknown};

    ghost reads = { unknown };

    ghost bytes = { λ _. [] };

    fn len(&self) -> io::Result<u64> {
        Ok(self.bytes.len() as u64)
    }

    fn read_exact_at(&self, buf: &mut [u8], offset: u64) -> io::Result<()> {
        let left = self.left.get();
        if left == 0 {
            return Err(io::Error::from(ErrorKind::PermissionDenied));
        }
        self.left.set(left - 1);
        self.bytes.read_exact_at(buf, offset)
    }
}

impl Place for Memory {
    type File = Opened;

    ghost use Rattle.std.specs.Prelude.{None};

    ghost done = { λ _. None };

    ghost there = { λ _ _. None };

    ghost content = { λ _ _. None };

    ghost modes = { λ _ _. None };

    fn read<A: Allocator + Copy>(&self, alloc: A, path: &str) -> Result<Slice<A>, FileFault> {
        match self.bytes_of(path) {
            Some(bytes) => Ok(Slice::from(alloc, bytes)?),
            None => Err(FileFault::Io(io::Error::from(ErrorKind::NotFound))),
        }
    }

    fn open<A: Allocator + Copy>(
        &self,
        alloc: A,
        path: &str,
    ) -> Result<Contents<Opened, A>, FileFault> {
        match self.reads {
            None => Ok(Contents::Memory(self.read(alloc, path)?)),
            Some(reads) => Ok(Contents::File(Opened {
                bytes: self.read(self.alloc, path)?,
                left: Cell::new(reads),
            })),
        }
    }

    fn look(&self, path: &str) -> io::Result<Option<Metadata>> {
        if !self.has(path) {
            return Ok(None);
        }
        match self.bytes_of(path) {
            Some(bytes) => Ok(Some(Metadata::of_file(bytes.len() as u64))),
            None => Ok(Some(Metadata::of_dir())),
        }
    }

    fn write_new(
        &mut self,
        path: &str,
        bytes: &[u8],
        _permissions: Option<&Permissions>,
    ) -> io::Result<bool> {
        self.step()?;
        if self.has(path) {
            return Ok(false);
        }
        self.put(path, Some(bytes))?;
        Ok(true)
    }

    fn rename(&mut self, from: &str, to: &str) -> io::Result<()> {
        self.step()?;
        self.forget(to);
        self.rename_all(from, to)?;
        Ok(())
    }

    fn remove(&mut self, path: &str) {
        if !self.held {
            self.forget(path);
        }
    }

    fn make_folder(&mut self, path: &str) -> io::Result<()> {
        self.step()?;
        if self.has(path) {
            return Err(io::Error::from(ErrorKind::AlreadyExists));
        }
        self.put(path, None)?;
        Ok(())
    }

    fn remove_folder(&mut self, path: &str) {
        if !self.held && !self.has_within(path) {
            self.forget(path);
        }
    }

    fn rename_folder(&mut self, from: &str, to: &str) -> io::Result<()> {
        self.step()?;
        if self.has(to) {
            return Err(io::Error::from(ErrorKind::AlreadyExists));
        }
        self.rename_all(from, to)?;
        Ok(())
    }

    fn sync_names(&mut self, _folder: &str) -> io::Result<()> {
        self.step()
    }

    fn sync_folder(&mut self, _path: &str) -> io::Result<()> {
        self.step()
    }
}
