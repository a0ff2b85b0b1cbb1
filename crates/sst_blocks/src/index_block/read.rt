//! Decoding a handle of an index block.
ghost use Rattle.std.specs.Prelude.{◌≡◌, ◌+◌};
ghost use Rattle.sst_blocks.specs.Words as spec;

use crate::number::{key_len_at, key_width, u32_at, u64_at};
use crate::reading::ItemRef;
use crate::{SeqNo, TableVersion};
use sst_entries::compare_versions;

/// A handle whose end key is borrowed bytes.
#[derive(Clone, Copy)]
pub(crate) struct HandleRef<'a> {
    pub(crate) end_key: &'a [u8],
    pub(crate) seqno: SeqNo,
    pub(crate) offset: u64,
    pub(crate) size: u32,
}

/// The size of a handle before its end key: sequence number, offset, size and key length.
#[inline]
pub(crate) fn head_len(version: TableVersion) -> usize
    ensures { result ≡ 20 + spec.key_width version }
{
    20 + key_width(version)
}

impl<'a> ItemRef<'a> for HandleRef<'a> {
    ghost use Rattle.sst_blocks.specs.Format.{Advances, IsFormat};
    ghost use Rattle.sst_blocks.specs.Handle.{Handle};
    ghost use Rattle.sst_blocks.specs.Handles.{IsSpellableHandle, handle_format};
    ghost use Rattle.sst_blocks.specs.SeenHandle.{handle_of_ref};

    ghost Reported = { Handle };

    ghost returned = { handle_of_ref };

    ghost format = { handle_format };

    ghost Fits = { IsSpellableHandle };

    #[inline]
    #[tactic(auto, unfolding(crate::specs::Handles::handle_at))]
    fn read(version: TableVersion, bytes: &'a [u8]) -> Option<(HandleRef<'a>, &'a [u8])> {
        let head = head_len(version);
        if bytes.len() < head {
            return None;
        }
        let key_len = key_len_at(version, &bytes[20..]);
        let rest = &bytes[head..];
        if rest.len() < key_len {
            return None;
        }
        let (end_key, rest) = rest.split_at(key_len);
        Some((
            HandleRef {
                end_key,
                seqno: u64_at(bytes),
                offset: u64_at(&bytes[8..]),
                size: u32_at(&bytes[16..]),
            },
            rest,
        ))
    }

    #[inline(always)]
    fn read_key(version: TableVersion, bytes: &'a [u8]) -> (&'a [u8], SeqNo) {
        let head = head_len(version);
        // The sequence number, the offset and the size come before the key's length.
        let key_len = key_len_at(version, &bytes[20..]);
        (&bytes[head..head + key_len], u64_at(bytes))
    }

    #[inline]
    fn may_follow(&self, last: &Option<HandleRef<'a>>) -> bool {
        match last {
            None => true,
            Some(last) => {
                compare_versions(last.end_key, last.seqno, self.end_key, self.seqno).is_lt()
            }
        }
    }

    #[inline]
    fn is_past(&self, key: &[u8], seqno: SeqNo) -> bool {
        compare_versions(key, seqno, self.end_key, self.seqno).is_lt()
    }

    #[inline(always)]
    fn is_format(version: TableVersion)
        ensures law { IsFormat (handle_format version) (IsSpellableHandle version) }
        ensures advances { Advances (handle_format version) }
    {
        let _ = version;
    }
}
