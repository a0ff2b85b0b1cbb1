//! The range of a block's payload.
ghost use Rattle.std.specs.Prelude.{◌≡◌, ◌<◌, ◌^◌, Some, Err, length, slice_range, IfOk, MatchResult};
ghost use Rattle.sst_blocks.specs.Words as spec;

use crate::block::Header;
use crate::{BlockType, Error};

/// The length of a block header in bytes.
const HEADER_LEN: usize = Header::LEN as usize;

/// The range of a payload, and the header before it.
#[derive(Clone, Copy)]
pub(crate) struct PayloadRange {
    pub(crate) header: Header,
    pub(crate) start: usize,
    pub(crate) end: usize,
}

/// Returns the header and the payload's range of the block of a kind at an offset.
///
/// `size` is the block's size in bytes, header included.
///
/// # Errors
///
/// Fails with the first fault in the offset, the size, the header or its lengths.
pub(crate) fn payload_range(
    body: &[u8],
    offset: u64,
    size: usize,
    kind: BlockType,
) -> Result<PayloadRange, Error>
    requires { length body.now < 2 ^ 63 }
    ensures range { IfOk result (spec.IsRangeAt body.now offset kind) }
    ensures returned { let loaded = spec.load_result body.now offset size kind in
        MatchResult result (λ p. loaded ≡ spec.checked_payload p.header.version p.header.checksum kind
        (slice_range body.now p.start p.end)) (λ e. loaded ≡ Err e) }
    ensures first { let fault = spec.place_fault body.now offset size kind in
        MatchResult result (λ p. fault ≡ spec.option_or
        (spec.checksum_fault p.header.checksum (slice_range body.now p.start p.end))
        (spec.room_fault p.header.version kind (slice_range body.now p.start p.end)))
        (λ e. fault ≡ Some e) }
{
    if size < HEADER_LEN || body.len() < size || ((body.len() - size) as u64) < offset {
        // No room for a header, or past the bytes.
        return Err(Error::Truncated);
    }
    let start = offset as usize;
    let header = Header::decode(&body[start..start + HEADER_LEN], kind)?;
    if header.data_len != header.uncompressed_len || HEADER_LEN + header.data_len as usize != size {
        // The two lengths disagree, or differ from the block's.
        return Err(Error::InvalidHeader);
    }
    Ok(PayloadRange {
        header,
        start: start + HEADER_LEN,
        end: start + size,
    })
}
