//! Sentences that describe the error codes.
ghost use Rattle.std.specs.Prelude.{◌≡◌, length, take};
ghost use Rattle.sst_c.specs.Words as spec;

use crate::found::copy_out;

fn sentence(code: u32) -> &'static [u8]
    ensures { result.now ≡ spec.sentence_of code }
{
    match code {
        0 => b"done",
        1 => b"out of memory",
        2 => b"a block reaches past the sections",
        3 => b"invalid block header",
        4 => b"a block of another kind",
        5 => b"checksum mismatch",
        6 => b"invalid block payload",
        7 => b"key too long",
        8 => b"value too long",
        9 => b"block too large",
        10 => b"section too large",
        11 => b"invalid trailer",
        12 => b"missing section",
        13 => b"missing meta item",
        14 => b"invalid meta value",
        15 => b"unsupported table version",
        16 => b"unsupported hash type",
        17 => b"unsupported checksum type",
        18 => b"unsupported index restart interval",
        19 => b"unsupported compression",
        20 => b"global sequence number too large",
        21 => b"sequence number overflow",
        22 => b"table ids spent",
        23 => b"the writer has failed",
        24 => b"source error",
        100 => b"the handle is closed",
        101 => b"the handle is open",
        102 => b"the handle holds another kind",
        103 => b"the room is too small",
        104 => b"an entry is out of order",
        105 => b"there is no such number",
        106 => b"nothing was found",
        107 => b"the table is not sound",
        _ => b"unknown refusal",
    }
}

/// Copies a sentence that describes an error code, as many bytes as fit into `room`.
///
/// Returns the length of the sentence in bytes. The rest of `room` is unchanged.
#[unsafe(no_mangle)]
pub extern "C" fn sst_strerror_copy(code: u32, room: &mut [u8]) -> u64
    ensures count { result ≡ length (spec.sentence_of code) }
    ensures copied { room.new ≡ spec.laid_over (take (length room.old) (spec.sentence_of code))
        room.old }
{
    let text = sentence(code);
    copy_out(&text[..text.len().min(room.len())], room);
    text.len() as u64
}
