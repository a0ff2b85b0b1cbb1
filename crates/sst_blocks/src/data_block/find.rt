//! Finding one entry of a payload in one pass without allocation.
ghost use Rattle.std.specs.Prelude.{◌≡◌, ◌+◌, ◌<◌, ◌≤◌, ◌^◌, [], Some, None, true, length};
ghost use Rattle.std.specs.Prelude.{is_some, unwrap_or, drop, find, slice_range};
ghost use Rattle.std.specs.Prelude.{IsTrue, IfOk, IfErr, IfSome, OnOk};
ghost use Rattle.sst_blocks.specs.Words as spec;

use crate::reading::find_item;
use crate::{EntryRef, Error, SeqNo, TableVersion};

/// Returns the first entry that a read of a key at `seqno` orders before, and its offset.
///
/// If `is_tested`, the grammar was checked already, and the pass ends at that entry. Else it checks
/// the whole payload.
///
/// # Errors
///
/// Fails with [`Error::InvalidBlock`] if the payload does not encode a strict list of entries.
#[inline]
#[tactic(auto, unfolding(crate::specs::Reading::entries_in))]
pub(crate) fn find_entry<'a>(
    version: TableVersion,
    payload: &'a [u8],
    key: &[u8],
    seqno: SeqNo,
    is_tested: bool,
) -> Result<Option<(usize, EntryRef<'a>)>, Error>
    requires long { 4 ≤ length payload.now }
    requires tested { IsTrue is_tested → is_some (spec.entries_in version payload.now) ≡ true }
    ensures whole { OnOk result (is_some (spec.entries_in version payload.now) ≡ true) }
    ensures found { IfOk result (λ found. spec.option_map (λ x. spec.entry_of_ref x.1) found ≡
        find (spec.is_before (spec.read_place key.now seqno))
        (unwrap_or (spec.entries_in version payload.now) [])) }
    ensures place { IfOk result (λ found. IfSome found (λ x.
        spec.option_map (λ y. y.0) (spec.entry_at version (drop x.0 payload.now)) ≡
        Some (spec.entry_of_ref x.1))) }
    ensures fault { IfErr result (λ e.
        (e ≡ spec.InvalidBlock) × (spec.entries_in version payload.now ≡ None)) }
{
    find_item(version, payload, key, seqno, is_tested)
}
