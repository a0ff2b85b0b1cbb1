//! Encoding an entry of a data block.
ghost use Rattle.std.specs.Prelude.{◌≡◌, ◌++◌, [], ◌∷◌, Option, Some, take, vec_len};
ghost use Rattle.std.specs.Prelude.{IfErr, OnOk};
ghost use Rattle.sst_blocks.specs.Words as spec;

use crate::item::Item;
use crate::{ENTRY_HEAD_LEN, EntryRef, Error, InternalValue, SeqNo, TableVersion, ValueType};
use std::alloc::Allocator;

/// Checks that an entry's key and value are short enough for a data block.
///
/// The key may have 1,048,576 bytes, the value 2^32 - 1.
///
/// # Errors
///
/// Fails with [`Error::KeyTooLong`], else with [`Error::ValueTooLong`].
#[inline]
pub fn check_entry(entry: &EntryRef<'_>) -> Result<(), Error>
    ensures short { OnOk result (spec.IsShortEntry (spec.entry_of_ref entry.now)) }
    ensures fine { OnOk result ((later : Option spec.Error) →
        spec.entry_fault_or (spec.entry_of_ref entry.now) later ≡ later) }
    // The fault precedes any other, as that of a block which is too large.
    ensures refused { IfErr result (λ e. (later : Option spec.Error) →
        spec.entry_fault_or (spec.entry_of_ref entry.now) later ≡ Some e) }
{
    if entry.user_key.len() > TableVersion::WRITTEN.longest_key() {
        return Err(Error::KeyTooLong);
    }
    if entry.value.len() > u32::MAX as usize {
        return Err(Error::ValueTooLong);
    }
    Ok(())
}

/// Returns the bytes before an entry's key: kind, sequence number, length of key and of value.
#[inline]
#[tactic(auto, unfolding(crate::specs::Number::le4, crate::specs::Number::le8))]
fn entry_head(value_type: ValueType, seqno: SeqNo, key_len: u32, value_len: u32) -> [u8; 17]
    ensures { result ≡ (spec.tag_of value_type ∷ []) ++ spec.le8 seqno ++ spec.le4 key_len
        ++ spec.le4 value_len }
{
    let tag = value_type.tag();
    let [n1, n2, n3, n4, n5, n6, n7, n8] = seqno.to_le_bytes();
    let [k1, k2, k3, k4] = key_len.to_le_bytes();
    let [v1, v2, v3, v4] = value_len.to_le_bytes();
    [
        tag, n1, n2, n3, n4, n5, n6, n7, n8, k1, k2, k3, k4, v1, v2, v3, v4,
    ]
}

/// Appends an entry to `buf`, encoded as in a data block.
///
/// The entry must pass [`check_entry`].
///
/// # Errors
///
/// Fails only with [`Error::OutOfMemory`]. Part of the entry may then be at the end of `buf`.
#[inline]
#[tactic(auto, unfolding(crate::specs::Payload::spelled))]
pub fn put_entry<A: Allocator>(buf: &mut Vec<u8, A>, entry: &EntryRef<'_>) -> Result<(), Error>
    requires { spec.IsShortEntry (spec.entry_of_ref entry.now) }
    ensures ok { OnOk result (buf.new.items ≡
        buf.old.items ++ spec.spelled spec.V4 (spec.entry_of_ref entry.now)) }
    // Each field fits its bytes, so the entry can be read again.
    ensures fits { OnOk result (spec.IsSpellable spec.V4 (spec.entry_of_ref entry.now)) }
    ensures front { take (vec_len buf.old) buf.new.items ≡ buf.old.items }
    ensures err { IfErr result (λ e. e ≡ spec.OutOfMemory) }
{
    let key_len = entry.user_key.len() as u32;
    let value_len = entry.value.len() as u32;
    let head = entry_head(entry.value_type, entry.seqno, key_len, value_len);
    buf.extend_from_slice(&head)?;
    buf.extend_from_slice(entry.user_key)?;
    buf.extend_from_slice(entry.value)?;
    Ok(())
}

impl<A: Allocator> Item for InternalValue<A> {
    ghost use Rattle.sst_blocks.specs.Bounds.{entry_bound};
    ghost use Rattle.sst_blocks.specs.Encoding.{IsShortEntry, entry_fault_or};
    ghost use Rattle.sst_blocks.specs.Payload.{IsSpellable, spelled};
    ghost use Rattle.sst_blocks.specs.declared.version.TableVersion.TheVariants.{V4};

    ghost bytes = { spelled V4 };

    ghost Fits = { IsSpellable V4 };

    ghost Short = { IsShortEntry };

    ghost fault_or = { entry_fault_or };

    ghost bound = { entry_bound };

    #[inline]
    fn test(&self) -> Result<(), Error> {
        check_entry(&self.as_entry_ref())
    }

    #[inline]
    fn added_to(&self, len: u64) -> u64 {
        len.saturating_add(ENTRY_HEAD_LEN)
            .saturating_add(self.key.user_key.len() as u64)
            .saturating_add(self.value.len() as u64)
    }

    #[inline]
    fn put<B: Allocator>(&self, buf: &mut Vec<u8, B>) -> Result<(), Error> {
        put_entry(buf, &self.as_entry_ref())
    }

    #[inline(always)]
    fn takes() {}
}
