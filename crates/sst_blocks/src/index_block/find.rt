//! Finding one handle of a payload in one pass without allocation.
ghost use Rattle.std.specs.Prelude.{◌≡◌, ◌≤◌, [], None, true, length, is_some, unwrap_or};
ghost use Rattle.std.specs.Prelude.{find, IsTrue, IfOk, IfErr, OnOk};
ghost use Rattle.sst_blocks.specs.Words as spec;

use super::read::HandleRef;
use crate::reading::find_item;
use crate::{Error, SeqNo, TableVersion};

/// Returns the first handle of a payload that reaches a key at `seqno`.
///
/// If `is_tested`, the grammar was checked already, and the pass ends at that handle. Else it
/// checks the whole payload.
///
/// # Errors
///
/// Fails with [`Error::InvalidBlock`] if the payload does not encode a strict list of handles.
#[inline]
#[tactic(auto, unfolding(crate::specs::Handles::handles_in))]
pub(crate) fn find_handle<'a>(
    version: TableVersion,
    payload: &'a [u8],
    key: &[u8],
    seqno: SeqNo,
    is_tested: bool,
) -> Result<Option<HandleRef<'a>>, Error>
    requires long { 4 ≤ length payload.now }
    requires tested { IsTrue is_tested → is_some (spec.handles_in version payload.now) ≡ true }
    ensures whole { OnOk result (is_some (spec.handles_in version payload.now) ≡ true) }
    ensures found { let handles = unwrap_or (spec.handles_in version payload.now) [] in
        IfOk result (λ found. spec.option_map spec.handle_of_ref found ≡
        find (spec.reaches key.now seqno) handles) }
    ensures fault { IfErr result (λ e.
        (e ≡ spec.InvalidBlock) × (spec.handles_in version payload.now ≡ None)) }
{
    let found = find_item::<HandleRef<'a>>(version, payload, key, seqno, is_tested)?;
    match found {
        Some((_, handle)) => Ok(Some(handle)),
        None => Ok(None),
    }
}
