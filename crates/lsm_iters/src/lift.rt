//! Applying a table's global sequence number.
ghost use Rattle.std.specs.Prelude.{◌≡◌};
ghost use Rattle.lsm_iters.specs.Words as spec;

use sst_blocks::{Error, SeqNo};

/// Returns a stored sequence number with the table's global sequence number added.
///
/// It does not allocate.
///
/// # Errors
///
/// [`Error::SeqNoOverflow`] if the sum exceeds `u64::MAX`.
#[inline]
pub fn lift_seqno(seqno: SeqNo, global_seqno: SeqNo) -> Result<SeqNo, Error>
    ensures { result ≡ spec.global_seqno_result global_seqno seqno }
{
    match seqno.checked_add(global_seqno) {
        Some(sum) => Ok(sum),
        None => Err(Error::SeqNoOverflow),
    }
}
