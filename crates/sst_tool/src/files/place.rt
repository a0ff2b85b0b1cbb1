//! The file system, as a trait whose contracts list each step.
ghost use Rattle.std.specs.Prelude.{◌≡◌, ◌∷◌, [], ℕ, Bool, IfErr, IfOk, IfSome, List, None, OnErr};
ghost use Rattle.std.specs.Prelude.{OnOk, Option, false, is_some, not, true};
ghost use Rattle.sst_tool.specs.files.Words as spec;

use crate::files::read::{open_path, read_path};
use crate::files::{Contents, FileFault};
use lsm_files::ReadAt;
use sst_blocks::Slice;
use std::alloc::Allocator;
use std::fs::{File, Metadata, OpenFile, OpenOptions, Permissions};
use std::io::{ErrorKind, Write};
use std::os::unix::fs::OpenOptionsExt;
use std::path::Path;
use std::rt::Files;
use std::{fs, io};

/// A file system. [`Disk`] is that of the machine; in contracts another one can record each step.
pub trait Place {
    /// A regular file, which is read at an offset.
    type File: ReadAt + Drop;

    // The steps done, in their order, if known.
    ghost done: { Self → Option (List spec.Step) };

    // Whether a path is taken, if known.
    ghost there: { Self → List ℕ → Option Bool };

    // The bytes of the file at a path, if known.
    ghost content: { Self → List ℕ → Option (List ℕ) };

    // The mode of a path, if known: the file's kind and permissions, or none if the path is free.
    ghost modes: { Self → List ℕ → Option (Option ℕ) };

    /// Returns all bytes of a file.
    ///
    /// # Errors
    ///
    /// Fails if the file cannot be read to its end, and with `OutOfMemory`. A file whose bytes are
    /// known fails only with `OutOfMemory`.
    fn read<A: Allocator + Copy>(&self, alloc: A, path: &str) -> Result<Slice<A>, FileFault>
        ensures bytes { IfOk result (λ bytes.
            IfSome (content self.now path.now) (λ known. bytes ≡ known)) }
        ensures refused { IfErr result spec.IsReadFault }
        ensures known { IfErr result (λ fault.
            spec.is_memory_fault fault ≡ false → content self.now path.now ≡ None) };

    /// Opens a file, which is read at an offset. A file without a size, such as a pipe, is read to
    /// its end.
    ///
    /// # Errors
    ///
    /// Fails if the file cannot be opened, and with `OutOfMemory`. A file whose bytes are known
    /// fails only with `OutOfMemory`.
    fn open<A: Allocator + Copy>(
        &self,
        alloc: A,
        path: &str,
    ) -> Result<Contents<Self::File, A>, FileFault>
        ensures bytes { IfOk result (λ contents. IfSome (content self.now path.now)
            (λ known. spec.bytes_in Self.File.bytes contents ≡ known)) }
        ensures refused { IfErr result spec.IsReadFault }
        ensures known { IfErr result (λ fault.
            spec.is_memory_fault fault ≡ false → content self.now path.now ≡ None) };

    /// Returns the metadata of a path, or `None` if the path is free. Links are not followed.
    ///
    /// # Errors
    ///
    /// Fails if the system cannot look up the path.
    fn look(&self, path: &str) -> io::Result<Option<Metadata>>
        ensures found { IfOk result (λ m.
            IfSome (there self.now path.now) (λ known. is_some m ≡ known)) }
        ensures mode { IfOk result (λ m.
            IfSome (modes self.now path.now) (λ known. spec.option_map spec.metadata_mode m
            ≡ known)) }
        ensures returned { OnErr result (there self.now path.now ≡ None) };

    /// Writes and syncs a new file, with these permissions if there are some. Returns `false` and
    /// changes nothing if the path is taken.
    ///
    /// # Errors
    ///
    /// After an error of the system no file is left, as far as the system removes it.
    fn write_new(
        &mut self,
        path: &str,
        bytes: &[u8],
        permissions: Option<&Permissions>,
    ) -> io::Result<bool>
        ensures written { IfOk result (λ free. done self.new
            ≡ spec.then_done (done self.old) (spec.written_if free path.now bytes.now
            (spec.requested_mode permissions.entry))) }
        ensures refused { OnErr result (done self.new ≡ done self.old) }
        ensures free { IfOk result (λ free.
            IfSome (there self.old path.now) (λ known. free ≡ not known)) }
        ensures kept { IfOk result (λ free. free ≡ false → there self.new ≡ there self.old) }
        ensures elsewhere { spec.SameElsewhere path.now (there self.old) (there self.new) }
        ensures same { IfOk result (λ free. free ≡ false → modes self.new ≡ modes self.old) }
        ensures beside { spec.SameElsewhere path.now (modes self.old) (modes self.new) };

    /// Renames a file, and replaces the file that has the new name.
    ///
    /// # Errors
    ///
    /// Fails with an error of the system. Nothing is changed then.
    fn rename(&mut self, from: &str, to: &str) -> io::Result<()>
        ensures renamed { OnOk result
            (done self.new ≡ spec.then_done (done self.old) (spec.Renamed from.now to.now ∷ [])) }
        ensures refused { OnErr result (done self.new ≡ done self.old) };

    /// Removes a file. An error of the system is ignored.
    fn remove(&mut self, path: &str)
        ensures { done self.new ≡ spec.then_done (done self.old) (spec.Removed path.now ∷ []) };

    /// Makes a folder.
    ///
    /// # Errors
    ///
    /// Fails with an error of the system, as if the path is taken. Nothing is changed then.
    fn make_folder(&mut self, path: &str) -> io::Result<()>
        ensures made { OnOk result
            (done self.new ≡ spec.then_done (done self.old) (spec.MadeFolder path.now ∷ [])) }
        ensures refused { OnErr result (done self.new ≡ done self.old) }
        ensures taken { IfErr result (λ e. spec.error_kind e ≡ ErrorKind.AlreadyExists
            → IfSome (there self.old path.now) (λ known. known ≡ true)) }
        ensures kept { OnErr result (there self.new ≡ there self.old) }
        ensures elsewhere { spec.SameElsewhere path.now (there self.old) (there self.new) };

    /// Removes an empty folder. An error of the system is ignored.
    fn remove_folder(&mut self, path: &str)
        ensures { done self.new ≡ spec.then_done (done self.old)
            (spec.RemovedFolder path.now ∷ []) };

    /// Renames a folder with all its files. The new name is free or an empty folder.
    ///
    /// # Errors
    ///
    /// Fails with an error of the system. Nothing is changed then.
    fn rename_folder(&mut self, from: &str, to: &str) -> io::Result<()>
        ensures renamed { OnOk result
            (done self.new ≡ spec.then_done (done self.old)
            (spec.RenamedFolder from.now to.now ∷ [])) }
        ensures refused { OnErr result (done self.new ≡ done self.old) };

    /// Syncs a folder, which makes the names in it durable.
    ///
    /// # Errors
    ///
    /// Fails with an error of the system.
    fn sync_names(&mut self, folder: &str) -> io::Result<()>
        ensures synced { OnOk result
            (done self.new ≡ spec.then_done (done self.old) (spec.SyncedNames folder.now ∷ [])) }
        ensures refused { OnErr result (done self.new ≡ done self.old) }
        ensures kept { there self.new ≡ there self.old };

    /// Syncs the parent folder of a path, which makes its name durable.
    ///
    /// # Errors
    ///
    /// Fails with an error of the system.
    fn sync_folder(&mut self, path: &str) -> io::Result<()>
        ensures synced { OnOk result
            (done self.new ≡ spec.then_done (done self.old) (spec.Synced path.now ∷ [])) }
        ensures refused { OnErr result (done self.new ≡ done self.old) };
}

/// The file system of the machine. Contracts know nothing about its files.
#[derive(Clone, Copy)]
pub struct Disk<'r, R: Files> {
    /// The handle of the system's files.
    pub files: &'r R,
}

impl<'r, R: Files<File = File>> Place for Disk<'r, R> {
    type File = File;

    ghost done = { λ _. None };

    ghost there = { λ _ _. None };

    ghost content = { λ _ _. None };

    ghost modes = { λ _ _. None };

    fn read<A: Allocator + Copy>(&self, alloc: A, path: &str) -> Result<Slice<A>, FileFault> {
        read_path(self.files, alloc, path)
    }

    fn open<A: Allocator + Copy>(
        &self,
        alloc: A,
        path: &str,
    ) -> Result<Contents<File, A>, FileFault> {
        open_path(self.files, alloc, path)
    }

    fn look(&self, path: &str) -> io::Result<Option<Metadata>> {
        match fs::symlink_metadata(self.files, path) {
            Ok(metadata) => Ok(Some(metadata)),
            Err(error) if error.kind() == ErrorKind::NotFound => Ok(None),
            Err(error) => Err(error),
        }
    }

    fn write_new(
        &mut self,
        path: &str,
        bytes: &[u8],
        permissions: Option<&Permissions>,
    ) -> io::Result<bool> {
        let mut options = OpenOptions::new();
        options.write(true).create_new(true);
        if permissions.is_some() {
            // The file stays private until it has its permissions.
            options.mode(0o600);
        }
        let filled = match options.open(self.files, path) {
            Ok(mut file) => fill(&mut file, bytes, permissions),
            Err(error) if error.kind() == ErrorKind::AlreadyExists => return Ok(false),
            Err(error) => return Err(error),
        };
        if let Err(error) = filled {
            let _ = fs::remove_file(self.files, path);
            return Err(error);
        }
        Ok(true)
    }

    fn rename(&mut self, from: &str, to: &str) -> io::Result<()> {
        fs::rename(self.files, from, to)
    }

    fn remove(&mut self, path: &str) {
        let _ = fs::remove_file(self.files, path);
    }

    fn make_folder(&mut self, path: &str) -> io::Result<()> {
        fs::create_dir(self.files, path)
    }

    fn remove_folder(&mut self, path: &str) {
        let _ = fs::remove_dir(self.files, path);
    }

    fn rename_folder(&mut self, from: &str, to: &str) -> io::Result<()> {
        fs::rename(self.files, from, to)
    }

    fn sync_names(&mut self, folder: &str) -> io::Result<()> {
        sync_path(self.files, folder)
    }

    fn sync_folder(&mut self, path: &str) -> io::Result<()> {
        sync_path(self.files, folder_of(path))
    }
}

// Syncs the file or folder at a path.
fn sync_path<R: Files>(files: &R, path: &str) -> io::Result<()> {
    fs::open(files, path)?.sync_all()
}

// Sets the permissions of a new file, if there are some, writes its bytes and syncs it.
fn fill<F: Write + OpenFile>(
    file: &mut F,
    bytes: &[u8],
    permissions: Option<&Permissions>,
) -> io::Result<()>
    ensures { OnOk result (spec.Appends (F.contents file.old) (F.contents file.new) bytes.now) }
{
    if let Some(permissions) = permissions {
        file.set_permissions(permissions.clone()?)?;
    }
    file.write_all(bytes)?;
    file.sync_all()
}

// Returns the parent folder of a path, or the current folder.
fn folder_of(path: &str) -> &str
    ensures { result.now ≡ spec.folder_of path.now }
{
    match Path::new(path).parent() {
        Some(folder) => or_here(folder.as_os_str()),
        None => or_here(""),
    }
}

// Returns the folder, or the current folder if it is empty.
fn or_here(folder: &str) -> &str
    ensures { result.now ≡ spec.or_here folder.now }
{
    if folder.is_empty() { "." } else { folder }
}
