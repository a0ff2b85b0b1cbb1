//! Decoding an entry of a data block.
ghost use Rattle.std.specs.Prelude.{◌≡◌, ◌+◌, ◌≤◌, length};
ghost use Rattle.sst_blocks.specs.Words as spec;

use crate::number::{key_len_at, key_width, u32_at, u64_at};
use crate::reading::ItemRef;
use crate::{EntryRef, SeqNo, TableVersion, ValueType};
use sst_entries::compare_versions;

/// The size of an entry before its key: the tag, the sequence number and both lengths.
#[inline]
pub(crate) fn head_len(version: TableVersion) -> usize
    ensures { result ≡ 13 + spec.key_width version }
{
    13 + key_width(version)
}

#[inline]
#[tactic(auto, unfolding(crate::specs::Reading::parts_at))]
fn read_parts(
    version: TableVersion,
    kind: ValueType,
    seqno: SeqNo,
    bytes: &[u8],
) -> Option<(EntryRef<'_>, &[u8])>
    requires { spec.key_width version + 4 ≤ length bytes.now }
    ensures { spec.option_map (λ x. (spec.entry_of_ref x.0, x.1.now)) result ≡
        spec.parts_at version kind seqno bytes.now }
{
    let key_len = key_len_at(version, bytes);
    let bytes = &bytes[key_width(version)..];
    let value_len = u32_at(bytes) as usize;
    let rest = &bytes[4..];
    if rest.len() < key_len + value_len {
        return None;
    }
    let (key, rest) = rest.split_at(key_len);
    let (value, rest) = rest.split_at(value_len);
    Some((
        EntryRef {
            user_key: key,
            seqno,
            value_type: kind,
            value,
        },
        rest,
    ))
}

impl<'a> ItemRef<'a> for EntryRef<'a> {
    ghost use Rattle.sst_blocks.specs.Format.{Advances, IsFormat};
    ghost use Rattle.sst_blocks.specs.Payload.{IsSpellable};
    ghost use Rattle.sst_blocks.specs.Reading.{entry_format};
    ghost use Rattle.sst_entries.specs.Lending.{entry_of_ref};
    ghost use Rattle.sst_entries.specs.Entry.{Entry};

    ghost Reported = { Entry };

    ghost returned = { entry_of_ref };

    ghost format = { entry_format };

    ghost Fits = { IsSpellable };

    #[inline]
    #[tactic(auto, unfolding(crate::specs::Reading::entry_at))]
    fn read(version: TableVersion, bytes: &'a [u8]) -> Option<(EntryRef<'a>, &'a [u8])> {
        if bytes.len() < head_len(version) {
            return None;
        }
        let kind = ValueType::from_tag(bytes[0])?;
        let rest = &bytes[1..];
        read_parts(version, kind, u64_at(rest), &rest[8..])
    }

    #[inline(always)]
    fn read_key(version: TableVersion, bytes: &'a [u8]) -> (&'a [u8], SeqNo) {
        let head = head_len(version);
        // The tag and the sequence number come before the key's length.
        let key_len = key_len_at(version, &bytes[9..]);
        (&bytes[head..head + key_len], u64_at(&bytes[1..]))
    }

    #[inline]
    fn may_follow(&self, last: &Option<EntryRef<'a>>) -> bool {
        match last {
            None => true,
            Some(last) => last.compare_version(self).is_lt(),
        }
    }

    #[inline]
    fn is_past(&self, key: &[u8], seqno: SeqNo) -> bool {
        compare_versions(key, seqno, self.user_key, self.seqno).is_lt()
    }

    #[inline(always)]
    fn is_format(version: TableVersion)
        ensures law { IsFormat (entry_format version) (IsSpellable version) }
        ensures advances { Advances (entry_format version) }
    {
        let _ = version;
    }
}
