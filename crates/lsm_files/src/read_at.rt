//! Bytes that are read at an offset.
ghost use Rattle.std.specs.Prelude.{◌≡◌, ◌+◌, ◌<◌, length, IfErr, IfOk, IfSome, None, OnErr, OnOk};
ghost use Rattle.lsm_files.specs.Words as spec;

use crate::FileError;
use sst_blocks::{Error, Slice};
use std::alloc::Allocator;
use std::fs::File;
use std::io;
use std::io::ErrorKind;
use std::os::unix::fs::FileExt;

/// Bytes that are read at an offset, as those of a file.
///
/// An implementor says what contracts know of its bytes. Bytes that may change are unknown, such as
/// those of a [`File`], to which other programs can write.
pub trait ReadAt {
    ghost use Rattle.std.specs.Prelude.{◌≡◌, ◌+◌, ◌<◌, List, ℕ, IfOk, IsOk, OnErr, OnOk, length};
    ghost use Rattle.lsm_files.specs.Reads.{AreKnown, ByteAccess, IsPartAt, NeverFails};

    /// What is known of the bytes, and whether reads fail.
    ghost reads: { ByteAccess };

    /// The bytes, where they are known.
    ghost bytes: { Self → List ℕ };

    /// Returns the number of bytes.
    ///
    /// # Errors
    ///
    /// Fails if the system does.
    fn len(&self) -> io::Result<u64>
        ensures length { AreKnown reads → IfOk result (λ n. n ≡ length (bytes self.now)) }
        ensures whole { NeverFails reads → IsOk result };

    /// Fills a buffer with the bytes from an offset on.
    ///
    /// # Errors
    ///
    /// Fails if the system does, and with [`ErrorKind::UnexpectedEof`] if the bytes end before the
    /// buffer is full. The buffer's content is not specified then.
    fn read_exact_at(&self, buf: &mut [u8], offset: u64) -> io::Result<()>
        ensures part { AreKnown reads → OnOk result (IsPartAt (bytes self.now) offset buf.new) }
        ensures whole { NeverFails reads →
            OnErr result (length (bytes self.now) < offset + length buf.old) };
}

/// The bytes from an offset on, or `None` if there are fewer than `len`.
fn part_at(bytes: &[u8], offset: u64, len: usize) -> Option<&[u8]>
    ensures part { IfSome result (λ part. spec.IsPartAt bytes.now offset part.now) }
    ensures len { IfSome result (λ part. length part.now ≡ len) }
    ensures none { result ≡ None → length bytes.now < offset + len }
{
    if bytes.len() < len || ((bytes.len() - len) as u64) < offset {
        return None;
    }
    let start = offset as usize;
    Some(&bytes[start..start + len])
}

/// Fills a buffer with the bytes from an offset on. Fails if there are fewer.
fn copy_at(bytes: &[u8], buf: &mut [u8], offset: u64) -> io::Result<()>
    ensures part { OnOk result (spec.IsPartAt bytes.now offset buf.new) }
    ensures whole { OnErr result (length bytes.now < offset + length buf.old) }
    ensures kind { IfErr result (λ e. spec.error_kind e ≡ ErrorKind.UnexpectedEof) }
{
    match part_at(bytes, offset, buf.len()) {
        Some(part) => {
            buf.copy_from_slice(part);
            Ok(())
        }
        None => Err(io::Error::from(ErrorKind::UnexpectedEof)),
    }
}

impl ReadAt for &[u8] {
    ghost use Rattle.lsm_files.specs.Reads.{whole};

    ghost reads = { whole };

    ghost bytes = { λ s. s.now };

    fn len(&self) -> io::Result<u64> {
        let bytes: &[u8] = self;
        Ok(bytes.len() as u64)
    }

    fn read_exact_at(&self, buf: &mut [u8], offset: u64) -> io::Result<()> {
        copy_at(self, buf, offset)
    }
}

impl<A: Allocator> ReadAt for Slice<A> {
    ghost use Rattle.lsm_files.specs.Reads.{whole};

    ghost reads = { whole };

    ghost bytes = { λ s. s };

    fn len(&self) -> io::Result<u64> {
        Ok(Slice::len(self) as u64)
    }

    fn read_exact_at(&self, buf: &mut [u8], offset: u64) -> io::Result<()> {
        copy_at(self.as_slice(), buf, offset)
    }
}

impl ReadAt for File {
    ghost use Rattle.std.specs.Prelude.{[]};
    ghost use Rattle.lsm_files.specs.Reads.{unknown};

    ghost reads = { unknown };

    ghost bytes = { λ _. [] };

    fn len(&self) -> io::Result<u64> {
        Ok(self.metadata()?.len())
    }

    fn read_exact_at(&self, buf: &mut [u8], offset: u64) -> io::Result<()> {
        FileExt::read_exact_at(self, buf, offset)
    }
}

/// A vector of zeros. Fails with [`Error::OutOfMemory`] only.
fn zeros<A: Allocator + Clone>(alloc: &A, len: usize) -> Result<Vec<u8, A>, Error>
    ensures len { IfOk result (λ zeros. length zeros.items ≡ len) }
    ensures err { IfErr result (λ e. e ≡ spec.OutOfMemory) }
{
    Ok(vec![in alloc.clone()?; 0; len]?)
}

/// Reads some bytes into new memory. Fails if the read does, or if memory runs out.
pub(crate) fn read_slice<R: ReadAt, A: Allocator + Clone>(
    file: &R,
    alloc: &A,
    at: u64,
    size: u64,
) -> Result<Slice<A>, FileError>
    ensures len { IfOk result (λ part. length part ≡ size) }
    ensures part { spec.AreKnown R.reads →
        IfOk result (spec.IsPartAt (R.bytes file.now) at) }
    ensures err { IfErr result (spec.IsReadError R.reads (length (R.bytes file.now)) (at + size)) }
{
    let mut bytes = zeros(alloc, size as usize)?;
    file.read_exact_at(&mut bytes, at)?;
    let part = Slice::from_vec(bytes)?;
    Ok(part)
}
