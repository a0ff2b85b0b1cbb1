//! Finding one item of a payload in one pass without allocation.
ghost use Rattle.std.specs.Prelude.{◌≡◌, ◌≤◌, Some, None, true, length};
ghost use Rattle.std.specs.Prelude.{drop, is_some, if◌then◌else◌};
ghost use Rattle.std.specs.Prelude.{IfErr, IfOk, IfSome, IsTrue, OnOk};
ghost use Rattle.sst_blocks.specs.Words as spec;

use super::ItemRef;
use crate::number::u32_at;
use crate::{Error, SeqNo, TableVersion};

/// Returns the first item that a read of a key at `seqno` orders before, and its offset.
///
/// If `is_tested`, the grammar was checked already, and the pass ends at that item. Else it checks
/// the whole payload.
///
/// # Errors
///
/// Fails with [`Error::InvalidBlock`] if the payload does not encode a strict list of items.
pub(crate) fn find_item<'a, R: ItemRef<'a>>(
    version: TableVersion,
    payload: &'a [u8],
    key: &[u8],
    seqno: SeqNo,
    is_tested: bool,
) -> Result<Option<(usize, R)>, Error>
    requires long { 4 ≤ length payload.now }
    requires tested { IsTrue is_tested →
        is_some (spec.items_in (R.format version) payload.now) ≡ true }
    ensures whole { OnOk result (is_some (spec.items_in (R.format version) payload.now) ≡ true) }
    ensures found { IfOk result (λ found. spec.option_map (λ x. R.returned x.1) found ≡
        spec.first_after (R.format version) payload.now key.now seqno) }
    ensures place { IfOk result (λ found. IfSome found (λ x.
        spec.option_map (λ y. y.0) ((R.format version).read (drop x.0 payload.now)) ≡
        Some (R.returned x.1))) }
    ensures fault { IfErr result (λ e.
        (e ≡ spec.InvalidBlock) × (spec.items_in (R.format version) payload.now ≡ None)) }
{
    if is_tested {
        Ok(find_tested(version, payload, key, seqno))
    } else {
        find_and_test(version, payload, key, seqno)
    }
}

// The first match in a payload that encodes a strict list. It keeps no previous item: copying each
// one took a third of a read.
fn find_tested<'a, R: ItemRef<'a>>(
    version: TableVersion,
    payload: &'a [u8],
    key: &[u8],
    seqno: SeqNo,
) -> Option<(usize, R)>
    requires long { 4 ≤ length payload.now }
    requires tested { is_some (spec.items_in (R.format version) payload.now) ≡ true }
    ensures found { spec.option_map (λ x. R.returned x.1) result ≡
        spec.first_after (R.format version) payload.now key.now seqno }
    ensures place { IfSome result (λ x.
        spec.option_map (λ y. y.0) ((R.format version).read (drop x.0 payload.now)) ≡
        Some (R.returned x.1)) }
{
    R::is_format(version);
    let len = u32_at(payload);
    let mut rest = &payload[4..];
    for _ in 0..len {
        let Some(read) = R::read(version, rest) else {
            return None; // a tested payload has it
        };
        if read.0.is_past(key, seqno) {
            let start = payload.len() - rest.len();
            return Some((start, read.0));
        }
        rest = read.1;
    }
    None
}

// The first match in any payload; all its items are checked.
fn find_and_test<'a, R: ItemRef<'a>>(
    version: TableVersion,
    payload: &'a [u8],
    key: &[u8],
    seqno: SeqNo,
) -> Result<Option<(usize, R)>, Error>
    requires long { 4 ≤ length payload.now }
    ensures whole { OnOk result (is_some (spec.items_in (R.format version) payload.now) ≡ true) }
    ensures found { IfOk result (λ found. spec.option_map (λ x. R.returned x.1) found ≡
        spec.first_after (R.format version) payload.now key.now seqno) }
    ensures place { IfOk result (λ found. IfSome found (λ x.
        spec.option_map (λ y. y.0) ((R.format version).read (drop x.0 payload.now)) ≡
        Some (R.returned x.1))) }
    ensures fault { IfErr result (λ e.
        (e ≡ spec.InvalidBlock) × (spec.items_in (R.format version) payload.now ≡ None)) }
{
    R::is_format(version);
    let count = u32_at(payload);
    let mut rest = &payload[4..];
    let mut last: Option<R> = None;
    let mut found: Option<(usize, R)> = None;
    for _ in 0..count {
        let start = payload.len() - rest.len();
        let Some(read) = R::read(version, rest) else {
            return Err(Error::InvalidBlock);
        };
        if !read.0.may_follow(&last) {
            return Err(Error::InvalidBlock);
        }
        put_first(&mut found, start, read.0, key, seqno);
        last = Some(read.0);
        rest = read.1;
    }
    if !rest.is_empty() {
        return Err(Error::InvalidBlock);
    }
    Ok(found)
}

// Keeps the item if it is the first that a read of a key at `seqno` orders before.
#[inline]
fn put_first<'a, R: ItemRef<'a>>(
    found: &mut Option<(usize, R)>,
    start: usize,
    item: R,
    key: &[u8],
    seqno: SeqNo,
)
    ensures { (v : TableVersion) → found.new ≡ spec.option_or found.old
        (if spec.is_before (spec.read_place key.now seqno) ((R.format v).key (R.returned item))
        then Some (start, item) else None) }
{
    if found.is_none() && item.is_past(key, seqno) {
        *found = Some((start, item));
    }
}
