//! Copying keys and values back to back into one room.
ghost use Rattle.std.specs.Prelude.{◌≡◌, ◌+◌, ◌≤◌, ◌++◌, true, false, length, take, drop};
ghost use Rattle.std.specs.Prelude.{nat_lt, not};
ghost use Rattle.sst_c.specs.Words as spec;

use crate::found::copy_out;
use sst_blocks::EntryRef;

fn lay(entry: &EntryRef<'_>, room: &mut [u8])
    requires { length (spec.bytes_of (spec.entry_of_ref entry.now)) ≤ length room.old }
    ensures { room.new ≡ spec.laid_over (spec.bytes_of (spec.entry_of_ref entry.now)) room.old }
{
    copy_out(entry.user_key, room);
    copy_out(entry.value, &mut room[entry.user_key.len()..]);
}

/// Copies an entry to offset `at` of a room, and moves `at` to its end, if it fits.
pub(crate) fn lay_next(entry: &EntryRef<'_>, room: &mut [u8], at: &mut usize) -> bool
    requires { at.old ≤ length room.old }
    ensures fits { let len = length (spec.bytes_of (spec.entry_of_ref entry.now)) in
        result ≡ not (nat_lt (length room.old) (at.old + len)) }
    ensures laid { result ≡ true → room.new ≡ take at.old room.old
        ++ spec.laid_over (spec.bytes_of (spec.entry_of_ref entry.now)) (drop at.old room.old) }
    ensures behind { result ≡ true →
        at.new ≡ at.old + length (spec.bytes_of (spec.entry_of_ref entry.now)) }
    ensures left { result ≡ false → (room.new ≡ room.old) × (at.new ≡ at.old) }
    ensures within { at.new ≤ length room.new }
{
    let left = room.len() - *at;
    let (key, value) = (entry.user_key.len(), entry.value.len());
    if left < key || left - key < value {
        return false;
    }
    lay(entry, &mut room[*at..]);
    *at += key + value;
    true
}

/// Copies the found entry, if there is one, as [`lay_next`] does.
pub(crate) fn lay_found(found: Option<EntryRef<'_>>, room: &mut [u8], at: &mut usize) -> bool
    requires { at.old ≤ length room.old }
    ensures fits { let entry = spec.option_map spec.entry_of_ref found.entry in
        let len = length (spec.bytes_found entry) in
        result ≡ not (nat_lt (length room.old) (at.old + len)) }
    ensures laid { let entry = spec.option_map spec.entry_of_ref found.entry in
        result ≡ true → room.new ≡ take at.old room.old
        ++ spec.laid_over (spec.bytes_found entry) (drop at.old room.old) }
    ensures behind { let entry = spec.option_map spec.entry_of_ref found.entry in
        result ≡ true → at.new ≡ at.old + length (spec.bytes_found entry) }
    ensures left { result ≡ false → (room.new ≡ room.old) × (at.new ≡ at.old) }
    ensures within { at.new ≤ length room.new }
{
    match found {
        Some(entry) => lay_next(&entry, room, at),
        None => true,
    }
}
