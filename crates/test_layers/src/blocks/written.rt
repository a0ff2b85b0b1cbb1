//! Blocks that are encoded after the byte 7.

use sst_blocks::Error;

/// The bound on a block, its length or the error, and whether it is the expected payload.
pub(crate) type Reported = (u64, Result<usize, Error>, bool);

/// The number of bytes written after the byte 7. On an error, the byte 7 is unchanged.
pub(crate) fn length_behind_seven(written: &[u8], done: Result<(), Error>) -> Result<usize, Error> {
    match (written, done) {
        ([7, rest @ ..], Ok(())) => Ok(rest.len()),
        ([7], Err(error)) => Err(error),
        _ => Err(Error::Source(0)),
    }
}

/// Whether a payload was written within its bound; or `OutOfMemory`, where it may fail.
pub(crate) fn is_written(
    returned: Result<Reported, Error>,
    payload: &[u8],
    may_fail: bool,
) -> bool {
    let size = 24 + payload.len() as u64;
    match returned {
        Ok((bound, Ok(_), is_it)) => is_it && bound == size,
        Ok((bound, Err(Error::OutOfMemory), _)) => may_fail && bound == size,
        Err(error) => may_fail && error == Error::OutOfMemory,
        _ => false,
    }
}
