//! Encoding the items of a block: entries or handles.
ghost use Rattle.std.specs.Prelude.{◌≡◌, ◌+◌, ◌++◌, ◌<◌, ◌^◌, length, take, vec_len};
ghost use Rattle.std.specs.Prelude.{IfErr, IfOk, OnErr, OnOk};
ghost use Rattle.sst_blocks.specs.Words as spec;

use crate::Error;
use crate::block::{EMPTY_LEN, Header};
use crate::number::put_u32;
use std::alloc::Allocator;

/// An entry or a handle to encode.
pub(crate) trait Item {
    ghost use Rattle.std.specs.Prelude.{◌≡◌, ◌+◌, ◌++◌, ◌<◌, ℕ, List, Option, Some, length};
    ghost use Rattle.std.specs.Prelude.{take, vec_len, IfErr, OnOk};
    ghost use Rattle.sst_blocks.specs.Bounds.{capped};
    ghost use Rattle.sst_entries.specs.declared.error.Error.{Error};
    ghost use Rattle.sst_entries.specs.declared.error.Error.TheVariants.{OutOfMemory};

    // The encoding of the item.
    ghost bytes: { Self → List ℕ };

    // The item has an encoding.
    ghost Fits: { Self → Type 0 };

    // No part of the item is too long.
    ghost Short: { Self → Type 0 };

    // The fault of the item, or else a later one.
    ghost fault_or: { Self → Option Error → Option Error };

    // The length of the encoding in bytes.
    ghost bound: { Self → ℕ };

    /// Fails for the first part of the item that is too long.
    fn test(&self) -> Result<(), Error>
        ensures short { OnOk result (Short self.now) }
        ensures fine { OnOk result ((later : Option Error) → fault_or self.now later ≡ later) }
        ensures refused { IfErr result (λ e.
            (later : Option Error) → fault_or self.now later ≡ Some e) };

    /// Returns a length with this item added, saturating at `u64::MAX`.
    fn added_to(&self, len: u64) -> u64
        ensures { result ≡ capped (len + bound self.now) };

    /// Appends the item to `buf`; on an error, part of it may be appended.
    fn put<A: Allocator>(&self, buf: &mut Vec<u8, A>) -> Result<(), Error>
        requires { Short self.now }
        ensures ok { OnOk result (buf.new.items ≡ buf.old.items ++ bytes self.now) }
        ensures fits { OnOk result (Fits self.now) }
        ensures front { take (vec_len buf.old) buf.new.items ≡ buf.old.items }
        ensures err { IfErr result (λ e. e ≡ OutOfMemory) };

    /// States that the encoding has the bound's length, and is not empty. The call has no effect.
    fn takes()
        ensures { (x : Self) → (length (bytes x) ≡ bound x) × (0 < bound x) };
}

/// Returns the length of the block of these items in bytes, saturating at `u64::MAX`.
///
/// The length includes the header.
pub(crate) fn block_bound<T: Item>(items: &[T]) -> u64
    ensures { result ≡ spec.bound_of T.bound items.now }
{
    let mut bound = EMPTY_LEN;
    for item in items {
        bound = item.added_to(bound);
    }
    bound
}

/// Returns the length of the block of these items, header included.
///
/// # Errors
///
/// Fails for the first item that is too long, then with [`Error::BlockTooLarge`] if the length is
/// 2^32 or more.
fn block_len<T: Item>(items: &[T]) -> Result<u64, Error>
    ensures len { IfOk result (λ len. (len ≡ spec.bound_of T.bound items.now) × (len < 2 ^ 32)) }
    ensures short { OnOk result (spec.AllByRecursion T.Short items.now) }
    ensures refused { spec.Refuses result (spec.items_fault T.fault_or T.bound items.now) }
{
    let mut bound = EMPTY_LEN;
    for item in items {
        item.test()?;
        bound = item.added_to(bound);
    }
    if bound > u64::from(u32::MAX) {
        return Err(Error::BlockTooLarge);
    }
    Ok(bound)
}

/// Appends the count, then each item; on an error, part of them may be appended.
fn put_items<T: Item, A: Allocator>(buf: &mut Vec<u8, A>, items: &[T]) -> Result<(), Error>
    requires short { spec.AllByRecursion T.Short items.now }
    requires few { length items.now < 2 ^ 32 }
    ensures ok { OnOk result (buf.new.items ≡ buf.old.items ++ spec.items_payload T.bytes
        items.now) }
    ensures fit { OnOk result (spec.AreFit T.Fits items.now) }
    ensures front { take (vec_len buf.old) buf.new.items ≡ buf.old.items }
    ensures err { IfErr result (λ e. e ≡ spec.OutOfMemory) }
{
    put_u32(buf, items.len() as u32)?;
    for item in items {
        item.put(buf)?;
    }
    Ok(())
}

/// Appends the payload of a block of these items to `buf`.
///
/// # Errors
///
/// `buf` is unchanged on any error. It fails for the first item that is too long, then with
/// [`Error::BlockTooLarge`] if the block's length is 2^32 or more. Else it fails only with
/// [`Error::OutOfMemory`].
pub(crate) fn encode<T: Item, A: Allocator>(buf: &mut Vec<u8, A>, items: &[T]) -> Result<(), Error>
    ensures ok { OnOk result (buf.new.items ≡ buf.old.items ++ spec.items_payload T.bytes
        items.now) }
    ensures unchanged { OnErr result (buf.new.items ≡ buf.old.items) }
    ensures refused { spec.Faults result (spec.items_fault T.fault_or T.bound items.now) }
    // Faults of the items come before any `OutOfMemory`.
    ensures first { spec.FaultsFirst result (spec.items_fault T.fault_or T.bound items.now) }
    ensures fit { OnOk result (spec.AreFit T.Fits items.now) }
    ensures bound { let len = spec.header_len + length (spec.items_payload T.bytes items.now) in
        OnOk result (len ≡ spec.bound_of T.bound items.now) }
    ensures short { OnOk result (spec.header_len + length (spec.items_payload T.bytes items.now) < 2
        ^ 32) }
{
    T::takes();
    let len = block_len(items)?;
    let start = buf.len();
    // One growth suffices for the payload.
    buf.reserve(len as usize - Header::LEN as usize)?;
    let outcome = put_items(buf, items);
    if outcome.is_err() {
        buf.truncate(start);
    }
    outcome
}
