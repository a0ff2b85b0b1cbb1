//! Opens files, and reads whole files.
ghost use Rattle.std.specs.Prelude.{◌≡◌, ◌≤◌, IfErr, IfOk, IfSome, None, OnOk, Some, false, length};
ghost use Rattle.sst_tool.specs.files.Words as spec;

use crate::files::{Contents, FileError, FileFault, FileName, Place};
use sst_blocks::Slice;
use std::alloc::Allocator;
use std::fs;
use std::fs::{Metadata, OpenFile};
use std::io::Read;
use std::rt::Files;

/// Returns all bytes of a file, read by [`Place::read`].
///
/// # Errors
///
/// Fails as [`Place::read`] does, with the name of the file.
pub fn read_file<'a, P: Place, A: Allocator + Copy>(
    place: &P,
    alloc: A,
    path: &'a str,
) -> Result<Slice<A>, FileError<'a>>
    // They are the file's bytes, if these are known.
    ensures bytes { IfOk result (λ bytes.
        IfSome (P.content place.now path.now) (λ known. bytes ≡ known)) }
    // An error names the file.
    ensures named { IfErr result (λ e. spec.path_text e.name ≡ path.now) }
    ensures refused { IfErr result (λ e. spec.IsReadFault e.fault) }
    // If the bytes are known, the only error is `OutOfMemory`.
    ensures known { IfErr result (λ e.
        spec.is_memory_fault e.fault ≡ false → P.content place.now path.now ≡ None) }
{
    match place.read(alloc, path) {
        Ok(bytes) => Ok(bytes),
        Err(fault) => Err(FileError {
            name: FileName::Plain(path),
            fault,
        }),
    }
}

/// Opens a file by [`Place::open`].
///
/// # Errors
///
/// Fails as [`Place::open`] does, with the name of the file.
pub fn open_file<'a, P: Place, A: Allocator + Copy>(
    place: &P,
    alloc: A,
    path: &'a str,
) -> Result<Contents<P::File, A>, FileError<'a>>
    // Its bytes are those at the path, if these are known.
    ensures bytes { IfOk result (λ contents. IfSome (P.content place.now path.now)
        (λ known. spec.bytes_in P.File.bytes contents ≡ known)) }
    // An error names the file.
    ensures named { IfErr result (λ e. spec.path_text e.name ≡ path.now) }
    ensures refused { IfErr result (λ e. spec.IsReadFault e.fault) }
    // If the bytes are known, the only error is `OutOfMemory`.
    ensures known { IfErr result (λ e.
        spec.is_memory_fault e.fault ≡ false → P.content place.now path.now ≡ None) }
{
    match place.open(alloc, path) {
        Ok(contents) => Ok(contents),
        Err(fault) => Err(FileError {
            name: FileName::Plain(path),
            fault,
        }),
    }
}

/// Opens a file of the system, or reads a pipe until its end.
///
/// # Errors
///
/// Fails with an error of the system, with [`FileFault::Folder`] for a folder, and with
/// `OutOfMemory`.
pub(crate) fn open_path<R: Files, A: Allocator + Copy>(
    files: &R,
    alloc: A,
    path: &str,
) -> Result<Contents<R::File, A>, FileFault>
    ensures { IfErr result spec.IsReadFault }
{
    let mut file = fs::open(files, path)?;
    if size_of(&file.metadata()?)?.is_some() {
        return Ok(Contents::File(file));
    }
    let bytes = read_whole(alloc, &mut file, None)?;
    Ok(Contents::Memory(bytes))
}

/// Returns all bytes of a file of the system, or of a pipe until its end.
///
/// # Errors
///
/// Fails with an error of the system, with [`FileFault::Folder`] for a folder, with
/// [`FileFault::CutShort`] if the file ends before its size, and with `OutOfMemory`.
pub(crate) fn read_path<R: Files, A: Allocator + Copy>(
    files: &R,
    alloc: A,
    path: &str,
) -> Result<Slice<A>, FileFault>
    ensures { IfErr result spec.IsReadFault }
{
    let mut file = fs::open(files, path)?;
    let size = size_of(&file.metadata()?)?;
    read_whole(alloc, &mut file, size)
}

// Returns the size of a regular file, and `None` for other files. Fails for a folder.
fn size_of(metadata: &Metadata) -> Result<Option<u64>, FileFault>
    ensures refused { IfErr result spec.IsReadFault }
    ensures folder { IfErr result (λ fault. (fault ≡ spec.Folder)
        × spec.IsDir (spec.file_type metadata.now)) }
    ensures file { OnOk result (¬ spec.IsDir (spec.file_type metadata.now)) }
    ensures plain { IfOk result (λ size.
        spec.IsFile (spec.file_type metadata.now) → size ≡ Some (spec.metadata_len metadata.now)) }
    ensures other { IfOk result (λ size. ¬ spec.IsFile (spec.file_type metadata.now) →
        size ≡ None) }
{
    if metadata.is_dir() {
        return Err(FileFault::Folder);
    }
    if metadata.is_file() {
        return Ok(Some(metadata.len()));
    }
    Ok(None)
}

/// Returns all bytes that a reader has left, at least `size` if that is known.
///
/// # Errors
///
/// Fails with [`FileFault::CutShort`] if there are fewer bytes, with the error of the reader, and
/// with `OutOfMemory`.
pub fn read_whole<R: Read, A: Allocator + Copy>(
    alloc: A,
    reader: &mut R,
    size: Option<u64>,
) -> Result<Slice<A>, FileFault>
    // They are all bytes that the reader had, if these are known, and it is at its end.
    ensures bytes { IfOk result (λ s. IfSome (R.remaining reader.old) (λ bytes. s ≡ bytes)) }
    ensures end { OnOk result (spec.IsAtEnd (R.remaining reader.new)) }
    // They are at least as many as expected.
    ensures sized { IfOk result (λ s. IfSome size (λ n. n ≤ length s)) }
    ensures cut { IfErr result (λ fault. spec.IsCutShort fault size) }
    ensures behind { IfErr result (λ fault. spec.IsCutBehind fault (R.remaining reader.old)) }
    ensures refused { IfErr result spec.IsReadFault }
{
    let mut bytes = Vec::new(alloc);
    if let Some(size) = size {
        bytes.reserve_exact(usize::try_from(size).unwrap_or(usize::MAX))?;
    }
    let read = reader.read_to_end(&mut bytes)? as u64;
    match size {
        Some(size) if read < size => Err(FileFault::CutShort { read, size }),
        _ => Ok(Slice::from_vec(bytes)?),
    }
}
