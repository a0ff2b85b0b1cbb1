//! Reading the items of a payload in one pass that checks the grammar and finds their offsets.
ghost use Rattle.std.specs.Prelude.{◌≡◌, ◌<◌, ◌≤◌, ◌^◌, None, true, false, length, is_some};
ghost use Rattle.std.specs.Prelude.{IfErr, IfOk, IsTrue};
ghost use Rattle.sst_blocks.specs.Words as spec;

mod find;
mod places;

use crate::number::u32_at;
use crate::{Error, SeqNo, TableVersion};
pub(crate) use find::find_item;
pub(crate) use places::{front_len, item_at, key_at};
use std::alloc::Allocator;

/// An entry or a handle whose parts are borrowed bytes.
pub(crate) trait ItemRef<'a>: Copy {
    ghost use Rattle.std.specs.Prelude.{◌≡◌, Option, Some, None};
    ghost use Rattle.std.specs.Option.{option_map};
    ghost use Rattle.sst_blocks.specs.Format.{Advances, Format, IsFormat};
    ghost use Rattle.sst_blocks.specs.Reading.{key_and_number};
    ghost use Rattle.sst_entries.specs.Point.{read_place};
    ghost use Rattle.sst_entries.specs.Strict.{is_before, may_follow};
    ghost use Rattle.sst_blocks.specs.declared.version.TableVersion.{TableVersion};

    // The value that it denotes.
    ghost Reported: { Type 0 };

    ghost returned: { Self → Reported };

    // The encoding of that value.
    ghost format: { TableVersion → Format Reported };

    // The value has an encoding.
    ghost Fits: { TableVersion → Reported → Type 0 };

    /// Reads the item at the front of some bytes, and returns the bytes after it.
    fn read(version: TableVersion, bytes: &'a [u8]) -> Option<(Self, &'a [u8])>
        ensures { option_map (λ x. (returned x.0, x.1.now)) result ≡
            (format version).read bytes.now };

    /// Reads the key and the sequence number of the item at the front of some bytes.
    fn read_key(version: TableVersion, bytes: &'a [u8]) -> (&'a [u8], SeqNo)
        requires { (format version).read bytes.now ≡ None → ⊥ }
        ensures { let key = λ (x : Reported). key_and_number ((format version).key x) in
            option_map (λ x. key x.0) ((format version).read bytes.now)
            ≡ Some (result.0.now, result.1) };

    /// Returns whether the item may come after another, or first.
    fn may_follow(&self, last: &Option<Self>) -> bool
        ensures { (v : TableVersion) → let key = λ (x : Self). (format v).key (returned x) in
            result ≡ may_follow (option_map key last.now) (key self.now) };

    /// Returns whether a read of a key at `seqno` orders before the item.
    fn is_past(&self, key: &[u8], seqno: SeqNo) -> bool
        ensures { (v : TableVersion) →
            result ≡ is_before (read_place key.now seqno) ((format v).key (returned self.now)) };

    /// States that reading and encoding are inverse. The call has no effect.
    fn is_format(version: TableVersion)
        ensures law { IsFormat (format version) (Fits version) }
        ensures advances { Advances (format version) };
}

/// Returns the offsets of a payload's items.
///
/// If `is_tested`, the grammar was checked already, and no keys are compared.
///
/// # Errors
///
/// Fails with [`Error::InvalidBlock`] if the payload does not encode a strict list of items, else
/// only with [`Error::OutOfMemory`].
pub(crate) fn starts_in<'a, R: ItemRef<'a>, A: Allocator>(
    alloc: A,
    version: TableVersion,
    payload: &'a [u8],
    is_tested: bool,
) -> Result<Vec<u32, A>, Error>
    requires long { 4 ≤ length payload.now }
    requires short { length payload.now < 2 ^ 32 }
    requires tested { IsTrue is_tested →
        is_some (spec.items_in (R.format version) payload.now) ≡ true }
    ensures found { IfOk result (λ starts.
        spec.ItemsAt (R.format version) payload.now starts.items) }
    ensures fault { IfErr result (λ e. spec.is_memory e ≡ false →
        (e ≡ spec.InvalidBlock) × (spec.items_in (R.format version) payload.now ≡ None)) }
{
    R::is_format(version);
    let count = u32_at(payload);
    let mut starts = Vec::with_capacity(alloc, count as usize)?;
    let mut rest = &payload[4..];
    let mut last: Option<R> = None;
    for _ in 0..count {
        let start = (payload.len() - rest.len()) as u32;
        let Some(read) = R::read(version, rest) else {
            return Err(Error::InvalidBlock);
        };
        if !is_tested && !read.0.may_follow(&last) {
            return Err(Error::InvalidBlock);
        }
        starts.push(start)?;
        last = Some(read.0);
        rest = read.1;
    }
    if !rest.is_empty() {
        return Err(Error::InvalidBlock);
    }
    Ok(starts)
}
