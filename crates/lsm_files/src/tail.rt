//! The trailer of a table in its file.
ghost use Rattle.std.specs.Prelude.{◌≤◌, IfErr, IfOk};
ghost use Rattle.lsm_files.specs.Words as spec;

use crate::{FileError, ReadAt};
use sst_blocks::{TRAILER_LEN, Toc};

/// The last bytes of a file, at most as many as a trailer has, and how many are before them.
#[derive(Clone, Copy)]
struct Tail {
    bytes: [u8; TRAILER_LEN],
    len: usize,
    body_len: u64,
}

/// Reads the last bytes of a file.
fn read_tail<R: ReadAt>(file: &R) -> Result<Tail, FileError>
    ensures read { spec.AreKnown R.reads →
        IfOk result (λ tail. spec.IsTailOf (R.bytes file.now) tail) }
    ensures short { IfOk result (λ tail. tail.len ≤ spec.trailer_len) }
    ensures err { IfErr result (spec.IsFailure R.reads) }
{
    let file_len = file.len()?;
    let len = file_len.min(TRAILER_LEN as u64) as usize;
    let body_len = file_len - len as u64;
    let mut bytes = [0; TRAILER_LEN];
    file.read_exact_at(&mut bytes[..len], body_len)?;
    Ok(Tail {
        bytes,
        len,
        body_len,
    })
}

/// Reads the table of contents of a file.
pub(crate) fn read_toc<R: ReadAt>(file: &R) -> Result<(Toc, u64), FileError>
    ensures toc { spec.AreKnown R.reads → IfOk result (λ read.
        spec.IsTocOf (R.bytes file.now) read.0 read.1) }
    ensures fault { spec.AreKnown R.reads →
        IfErr result (spec.IsTrailerError R.reads (R.bytes file.now)) }
{
    let tail = read_tail(file)?;
    match Toc::of_trailer(&tail.bytes[..tail.len], tail.body_len) {
        Ok(toc) => Ok((toc, tail.body_len)),
        Err(error) => Err(FileError::Table(error)),
    }
}
