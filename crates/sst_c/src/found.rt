//! The entry found by the last read, copied or borrowed.
ghost use Rattle.std.specs.Prelude.{◌≡◌, ◌≢◌, ◌≤◌, length, IsSome, None, Some};
ghost use Rattle.sst_c.specs.Words as spec;

use crate::address::address_of;
use crate::codes::{CLOSED, NO_ROOM, NOTHING};
use crate::handle::Handle;
use crate::held::Held;
use sst_blocks::EntryRef;
use std::alloc::Global;

/// Copies bytes to the front of a room that is large enough.
pub(crate) fn copy_out(bytes: &[u8], room: &mut [u8])
    requires { length bytes.now ≤ length room.old }
    ensures { room.new ≡ spec.laid_over bytes.now room.old }
{
    room[..bytes.len()].copy_from_slice(bytes);
}

/// Copies the key and the value of an entry, or neither if one of them does not fit.
pub(crate) fn copy_item(item: &EntryRef<'_>, key: &mut [u8], value: &mut [u8]) -> u32
    ensures code { result ≡ spec.copy_code (Some (spec.entry_of_ref item.now)) key.old value.old }
    ensures key { result ≡ 0 →
        key.new ≡ spec.laid_over (spec.entry_of_ref item.now).user_key key.old }
    ensures value { result ≡ 0 →
        value.new ≡ spec.laid_over (spec.entry_of_ref item.now).value value.old }
    ensures left { result ≢ 0 → (key.new ≡ key.old) × (value.new ≡ value.old) }
{
    if key.len() < item.user_key.len() || value.len() < item.value.len() {
        return NO_ROOM;
    }
    copy_out(item.user_key, key);
    copy_out(item.value, value);
    0
}

fn copy_found(held: &Held, key: &mut [u8], value: &mut [u8]) -> u32
    ensures code { result ≡ spec.copy_code (spec.found_by held.now) key.old value.old }
    ensures copies { spec.CopiesEntry (spec.found_by held.now) result key.old key.new value.old
        value.new }
{
    match held.found_entry() {
        Some(item) => copy_item(&item, key, value),
        None => NOTHING,
    }
}

/// Copies the entry that the last read through the handle found.
///
/// The key is copied to the front of `key`, the value to the front of `value`.
///
/// # Errors
///
/// - 100: the handle is closed.
/// - 106: the last read found nothing.
/// - 103: `key` or `value` is too small.
///
/// On error nothing is copied. The entry can still be copied afterwards.
#[unsafe(no_mangle)]
pub extern "C" fn sst_found_copy(
    alloc: Global,
    handle: &mut Handle,
    key: &mut [u8],
    value: &mut [u8],
) -> u32
    ensures kept { handle.new.boxed.value ≡ handle.old.boxed.value }
    ensures shut { handle.old.boxed.value ≡ None → result ≡ 100 }
    ensures code { IsSome handle.old.boxed.value →
        result ≡ spec.copy_code (spec.found_in handle.old.boxed.value) key.old value.old }
    ensures copies { spec.CopiesEntry (spec.found_in handle.old.boxed.value) result key.old key.new
        value.old value.new }
{
    let Some(held) = handle.take(alloc) else {
        return CLOSED;
    };
    let code = copy_found(&held, key, value);
    handle.put(held);
    code
}

/// The addresses and lengths of the key and the value of an entry.
#[repr(C)]
pub struct Lent {
    /// The address of the key.
    pub key: *const u8,
    /// Length of the key in bytes.
    pub key_len: u64,
    /// The address of the value.
    pub value: *const u8,
    /// Length of the value in bytes.
    pub value_len: u64,
}

pub(crate) fn lend_item(item: &EntryRef<'_>, lent: &mut Lent)
    ensures key { lent.new.key_len ≡ length (spec.entry_of_ref item.now).user_key }
    ensures value { lent.new.value_len ≡ length (spec.entry_of_ref item.now).value }
{
    lent.key = address_of(item.user_key);
    lent.key_len = item.user_key.len() as u64;
    lent.value = address_of(item.value);
    lent.value_len = item.value.len() as u64;
}

fn lend_found(held: &Held, lent: &mut Lent) -> u32
    ensures code { result ≡ spec.lend_code (spec.found_by held.now) }
    ensures lends { spec.LendsEntry (spec.found_by held.now) lent.new.key_len lent.new.value_len }
    ensures left { result ≢ 0 → lent.new ≡ lent.old }
{
    match held.found_entry() {
        Some(item) => {
            lend_item(&item, lent);
            0
        }
        None => NOTHING,
    }
}

/// Borrows the entry that the last read through the handle found.
///
/// `lent` gets the addresses and lengths of its key and value. They are valid until the next read
/// through the handle, or until it is closed.
///
/// # Errors
///
/// - 100: the handle is closed.
/// - 106: the last read found nothing.
///
/// On error, `lent` is unchanged.
#[unsafe(no_mangle)]
pub extern "C" fn sst_found_lend(alloc: Global, handle: &mut Handle, lent: &mut Lent) -> u32
    ensures kept { handle.new.boxed.value ≡ handle.old.boxed.value }
    ensures shut { handle.old.boxed.value ≡ None → result ≡ 100 }
    ensures code { IsSome handle.old.boxed.value →
        result ≡ spec.lend_code (spec.found_in handle.old.boxed.value) }
    ensures lends { spec.LendsEntry (spec.found_in handle.old.boxed.value) lent.new.key_len
        lent.new.value_len }
    ensures left { result ≢ 0 → lent.new ≡ lent.old }
{
    let Some(held) = handle.take(alloc) else {
        return CLOSED;
    };
    let code = lend_found(&held, lent);
    handle.put(held);
    code
}
