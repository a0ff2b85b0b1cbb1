//! Point reads of many keys in one table.
ghost use Rattle.std.specs.Prelude.{◌≡◌, ◌≢◌, ◌<◌, ◌≤◌, ◌==◌, ◌⊎◌, false, true, IfErr, IfOk, List};
ghost use Rattle.std.specs.Prelude.{IsSomeAnd, None, Ok, Some, length, map};
ghost use Rattle.sst_c.specs.Words as spec;

use crate::answer_list::AnswerList;
use crate::codes::{CLOSED, NO_ROOM, NO_SUCH, NOTHING, OPEN, OTHER_KIND};
use crate::entries::{EntryReport, tell};
use crate::found::{Lent, copy_item, lend_item};
use crate::handle::Handle;
use crate::held::{Held, What, box_of};
use lsm_readers::{Query, Table};
use sst_blocks::{Error, SeqNo, Slice};
use std::alloc::Global;

// Whether lengths add up to a number of bytes.
fn add_up(lens: &[u64], count: u64) -> bool
    ensures { result ≡ (spec.sum lens.now == count) }
{
    let mut left = count;
    for len in lens {
        if *len > left {
            return false;
        }
        left -= *len;
    }
    left == 0
}

// The queries for keys of these lengths, which are one after another.
fn queries_of(alloc: Global, keys: &[u8], lens: &[u64], seqno: SeqNo) -> Result<Vec<Query>, Error>
    requires { spec.sum lens.now ≡ length keys.now }
    ensures ok { IfOk result (λ qs. qs.items ≡ spec.queries_for keys.now lens.now seqno) }
    ensures err { IfErr result (λ e. e ≡ spec.OutOfMemory) }
{
    let whole = Slice::from(alloc, keys)?;
    let mut queries = Vec::with_capacity(alloc, lens.len())?;
    let mut at = 0;
    for len in lens {
        let end = at + *len as usize;
        let key = whole.slice(at, end)?;
        queries.push(Query { key, seqno })?;
        at = end;
    }
    Ok(queries)
}

fn found_of(
    alloc: Global,
    table: &Table,
    keys: &[u8],
    lens: &[u64],
    seqno: SeqNo,
) -> Result<AnswerList, Error>
    requires { spec.sum lens.now ≡ length keys.now }
    ensures returned { spec.GivesMany result
        (spec.many_results table.now (spec.queries_for keys.now lens.now seqno)) }
    ensures list { (es : List spec.Entry) → spec.StoresList table.now.bytes es → spec.GivesMany
        result (Ok (spec.points_of es table.now.global_seqno keys.now lens.now seqno)) }
    ensures count { IfOk result (λ found. length found ≡ length lens.now) }
{
    let queries = queries_of(alloc, keys, lens, seqno)?;
    AnswerList::read(table, &queries)
}

// Writes what is reported of each entry.
fn tell_each(found: &AnswerList, entries: &mut [EntryReport])
    requires { length found.now ≤ length entries.old }
    ensures { entries.new ≡ spec.laid_over (map spec.entry_facts found.now) entries.old }
{
    for at in 0..found.len() {
        entries[at] = tell(found.entry(at));
    }
}

fn tell_held(held: &Held, entries: &mut [EntryReport])
    requires { IsSomeAnd (spec.many_in held.now.what) (λ found. length found ≤ length entries.old) }
    ensures { IsSomeAnd (spec.many_in held.now.what) (λ found.
        entries.new ≡ spec.laid_over (map spec.entry_facts found) entries.old) }
{
    if let What::Answers(found) = &held.what {
        tell_each(found, entries);
    }
}

// Stores results in a handle that holds nothing, and reports them.
fn keep_each(
    alloc: Global,
    found: AnswerList,
    entries: &mut [EntryReport],
    answers: &mut Handle,
) -> u32
    requires empty { answers.old.boxed.value ≡ None }
    requires room { length found ≤ length entries.old }
    ensures memory { (result ≡ 0) ⊎ (result ≡ 1) }
    ensures new { result ≡ 0 → IsSomeAnd answers.new.boxed.value (λ k. spec.found_by k ≡ None) }
    ensures many { result ≡ 0 → IsSomeAnd answers.new.boxed.value (λ k.
        spec.many_in k.what ≡ Some found) }
    ensures returned { result ≡ 0 →
        entries.new ≡ spec.laid_over (map spec.entry_facts found) entries.old }
    ensures left { result ≢ 0 →
        (entries.new ≡ entries.old) × (answers.new.boxed.value ≡ None) }
{
    match box_of(alloc, What::Answers(found)) {
        Ok(held) => {
            tell_held(&held, entries);
            answers.put(held);
            0
        }
        Err(error) => u32::from(error.number()),
    }
}

// Stores the results of reads in an empty handle and reports them, or returns the error's code.
fn keep_found(
    alloc: Global,
    found: Result<AnswerList, Error>,
    entries: &mut [EntryReport],
    answers: &mut Handle,
) -> u32
    requires empty { answers.old.boxed.value ≡ None }
    requires room { IfOk found (λ each. length each ≤ length entries.old) }
    ensures refused { IfErr found (λ e. result ≡ spec.number_of e) }
    ensures returned { (returned : spec.ManyResult) → spec.GivesMany found returned →
        spec.AnswersMany result (spec.many_kept answers.new.boxed.value) entries.old entries.new
        returned }
    ensures new { result ≡ 0 → IsSomeAnd answers.new.boxed.value (λ k. spec.found_by k ≡ None) }
    ensures left { result ≢ 0 →
        (entries.new ≡ entries.old) × (answers.new.boxed.value ≡ None) }
{
    match found {
        Ok(each) => keep_each(alloc, each, entries, answers),
        Err(error) => u32::from(error.number()),
    }
}

fn read_each(
    alloc: Global,
    table: &Table,
    keys: &[u8],
    lens: &[u64],
    seqno: SeqNo,
    entries: &mut [EntryReport],
    answers: &mut Handle,
) -> u32
    requires empty { answers.old.boxed.value ≡ None }
    requires sum { spec.sum lens.now ≡ length keys.now }
    requires room { length lens.now ≤ length entries.old }
    ensures returned { spec.AnswersKeys table.now keys.now lens.now seqno result
        (spec.many_kept answers.new.boxed.value) entries.old entries.new }
    ensures new { result ≡ 0 → IsSomeAnd answers.new.boxed.value (λ k. spec.found_by k ≡ None) }
    ensures left { result ≢ 0 →
        (entries.new ≡ entries.old) × (answers.new.boxed.value ≡ None) }
{
    let found = found_of(alloc, table, keys, lens, seqno);
    keep_found(alloc, found, entries, answers)
}

fn get_each(
    alloc: Global,
    held: &Held,
    keys: &[u8],
    lens: &[u64],
    seqno: SeqNo,
    entries: &mut [EntryReport],
    answers: &mut Handle,
) -> u32
    requires { answers.old.boxed.value ≡ None }
    ensures kind { spec.is_table held.now.what ≡ false → result ≡ 102 }
    ensures lengths { spec.is_table held.now.what ≡ true → spec.sum lens.now ≢ length keys.now →
        result ≡ 105 }
    ensures room { spec.is_table held.now.what ≡ true → spec.sum lens.now ≡ length keys.now →
        length entries.old < length lens.now → result ≡ 103 }
    ensures returned { spec.AnswersHeld held.now.what keys.now lens.now seqno result
        answers.new.boxed.value entries.old entries.new }
    ensures new { result ≡ 0 → IsSomeAnd answers.new.boxed.value (λ k. spec.found_by k ≡ None) }
    ensures left { result ≢ 0 →
        (entries.new ≡ entries.old) × (answers.new.boxed.value ≡ None) }
{
    let What::Table(table) = &held.what else {
        return OTHER_KIND;
    };
    if !add_up(lens, keys.len() as u64) {
        return NO_SUCH;
    }
    if entries.len() < lens.len() {
        return NO_ROOM;
    }
    read_each(alloc, table, keys, lens, seqno, entries, answers)
}

/// Finds for each of several keys what `sst_table_get` finds.
///
/// The keys are one after another in `keys`; `key_lens` has their lengths in bytes. `answers` must
/// hold nothing, and then has the results. They share the table's memory by one reference.
/// `entries` gets kind, sequence number and lengths for each key, in the order of the keys.
///
/// # Errors
///
/// - 101: `answers` holds something.
/// - 100: the table's handle is closed.
/// - 102: it holds no table.
/// - 105: the lengths do not add up to the length of `keys`.
/// - 103: there are fewer entries than keys.
/// - The error code of the first key whose read fails.
///
/// On error `entries` and `answers` do not change.
#[unsafe(no_mangle)]
pub extern "C" fn sst_table_get_many(
    alloc: Global,
    table: &mut Handle,
    keys: &[u8],
    key_lens: &[u64],
    seqno: u64,
    entries: &mut [EntryReport],
    answers: &mut Handle,
) -> u32
    ensures opens { spec.OpensFrom spec.is_table table.old.boxed.value table.new.boxed.value
        answers.old.boxed.value answers.new.boxed.value result }
    ensures gets { spec.FromHeld answers.old.boxed.value table.old.boxed.value (λ w.
        spec.GetsMany w keys.now key_lens.now seqno result answers.new.boxed.value
        entries.old entries.new) }
    ensures left { result ≢ 0 → entries.new ≡ entries.old }
{
    if answers.is_open() {
        return OPEN;
    }
    let Some(held) = table.take(alloc) else {
        return CLOSED;
    };
    let code = get_each(alloc, &held, keys, key_lens, seqno, entries, answers);
    table.put(held);
    code
}

fn lend_at(held: &Held, index: u64, lent: &mut Lent) -> u32
    ensures code { result ≡ spec.lend_at_code (spec.many_in held.now.what) index }
    ensures lends { spec.LendsEntry (spec.answer_at (spec.many_in held.now.what) index)
        lent.new.key_len lent.new.value_len }
    ensures left { result ≢ 0 → lent.new ≡ lent.old }
{
    let What::Answers(found) = &held.what else {
        return OTHER_KIND;
    };
    if index >= found.len() as u64 {
        return NO_SUCH;
    }
    match found.entry(index as usize) {
        Some(item) => {
            lend_item(&item, lent);
            0
        }
        None => NOTHING,
    }
}

/// Returns pointers to the key and the value found for the key at an index, from 0 on.
///
/// They are valid until the answers are closed.
///
/// # Errors
///
/// - 100: the handle is closed.
/// - 102: it holds no answers.
/// - 105: there is no key at the index.
/// - 106: nothing was found for it.
///
/// On error `lent` does not change.
#[unsafe(no_mangle)]
pub extern "C" fn sst_answers_lend(
    alloc: Global,
    answers: &mut Handle,
    index: u64,
    lent: &mut Lent,
) -> u32
    ensures kept { answers.new.boxed.value ≡ answers.old.boxed.value }
    ensures shut { answers.old.boxed.value ≡ None → result ≡ 100 }
    ensures code { (h : spec.HeldValue) → answers.old.boxed.value ≡ Some h →
        result ≡ spec.lend_at_code (spec.many_in h.what) index }
    ensures lends { (h : spec.HeldValue) → answers.old.boxed.value ≡ Some h → spec.LendsEntry
        (spec.answer_at (spec.many_in h.what) index) lent.new.key_len lent.new.value_len }
    ensures left { result ≢ 0 → lent.new ≡ lent.old }
{
    let Some(held) = answers.take(alloc) else {
        return CLOSED;
    };
    let code = lend_at(&held, index, lent);
    answers.put(held);
    code
}

fn copy_at(held: &Held, index: u64, key: &mut [u8], value: &mut [u8]) -> u32
    ensures code { result ≡ spec.copy_at_code (spec.many_in held.now.what) index key.old value.old }
    ensures copies { spec.CopiesEntry (spec.answer_at (spec.many_in held.now.what) index) result
        key.old key.new value.old value.new }
{
    let What::Answers(found) = &held.what else {
        return OTHER_KIND;
    };
    if index >= found.len() as u64 {
        return NO_SUCH;
    }
    match found.entry(index as usize) {
        Some(item) => copy_item(&item, key, value),
        None => NOTHING,
    }
}

/// Copies the key and the value found for the key at an index, from 0 on, to two buffers.
///
/// # Errors
///
/// - 100: the handle is closed.
/// - 102: it holds no answers.
/// - 105: there is no key at the index.
/// - 106: nothing was found for it.
/// - 103: a buffer is too small.
///
/// On error nothing is copied.
#[unsafe(no_mangle)]
pub extern "C" fn sst_answers_copy(
    alloc: Global,
    answers: &mut Handle,
    index: u64,
    key: &mut [u8],
    value: &mut [u8],
) -> u32
    ensures kept { answers.new.boxed.value ≡ answers.old.boxed.value }
    ensures shut { answers.old.boxed.value ≡ None → result ≡ 100 }
    ensures code { (h : spec.HeldValue) → answers.old.boxed.value ≡ Some h →
        result ≡ spec.copy_at_code (spec.many_in h.what) index key.old value.old }
    ensures copies { (h : spec.HeldValue) → answers.old.boxed.value ≡ Some h →
        spec.CopiesEntry (spec.answer_at (spec.many_in h.what) index) result
        key.old key.new value.old value.new }
    ensures left { result ≢ 0 → (key.new ≡ key.old) × (value.new ≡ value.old) }
{
    let Some(held) = answers.take(alloc) else {
        return CLOSED;
    };
    let code = copy_at(&held, index, key, value);
    answers.put(held);
    code
}
