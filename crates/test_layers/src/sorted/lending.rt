//! Lending newest versions, compactions and mergers, compared with those by value over the same
//! lists. Also lending iterators of the entries below a bound.
ghost use Rattle.std.specs.Prelude.{IfOk};
ghost use Rattle.sst_entries.specs.Stream.{CanYield, nowhere};

use crate::sorted::words::{lends_so, results_of, said_by, said_lent};
use lsm_sorted::compaction::Rules;
use lsm_sorted::compaction::lending::LendingCompaction;
use lsm_sorted::compaction::stream::CompactionStream;
use lsm_sorted::{Below, LendingMerger, LendingNewest, Merger, MvccStream};
use sst_entries::{Error, IterItem, Lending, SeqNo, ValueType};
use std::alloc::Global;
use std::vec::IntoIter;
use test_support::{LentList, agree, entry_of, go_on, lent_list, random};

fn kind_of(number: u64) -> ValueType {
    match number % 6 {
        0 => ValueType::Tombstone,
        1 | 2 => ValueType::WeakTombstone,
        3 => ValueType::Indirection,
        _ => ValueType::Value,
    }
}

// A sorted list: some versions of each key, the newest first. They may tie, also with those of
// other lists. The first entry has the value `value`.
fn list_of(alloc: Global, mut seed: u64, count: u8, value: u8) -> Result<Vec<IterItem>, Error> {
    let mut list = Vec::new(alloc);
    let mut key = 0u8;
    let mut seqno = 30u64;
    for place in 0..count {
        seqno = seqno.saturating_sub(random(&mut seed) % 5);
        if seqno == 0 || random(&mut seed) % 3 == 0 {
            key = key.wrapping_add(1);
            seqno = 1 + random(&mut seed) % 30;
        }
        let kind = kind_of(random(&mut seed));
        list.push(Ok(entry_of(alloc, key, seqno, kind, value.wrapping_add(place))?))?;
    }
    Ok(list)
}

// Two values, or the first error. It is generic, so that a proof looks at no part of them.
fn both<T: Drop>(one: Result<T, Error>, other: Result<T, Error>) -> Result<(T, T), Error> {
    let one = one?;
    let other = other?;
    Ok((one, other))
}

// A list, twice.
fn two_lists(alloc: Global, seed: u64, count: u8) -> Result<(Vec<IterItem>, Vec<IterItem>), Error> {
    both(
        list_of(alloc, seed, count, 0),
        list_of(alloc, seed, count, 0),
    )
}

// Whether the newest versions of a list are the same by value and borrowed.
fn newest_agree(alloc: Global, seed: u64, count: u8) -> Result<bool, Error> {
    let (list, lent) = two_lists(alloc, seed, count)?;
    let lending = LendingNewest::new(alloc, lent_list(lent));
    agree(
        MvccStream::new(list.into_iter()),
        lending,
        usize::from(count) + 2,
    )
}

// Whether a compaction of a list is the same by value and borrowed.
fn compactions_agree(alloc: Global, seed: u64, count: u8, rules: Rules) -> Result<bool, Error> {
    let (list, lent) = two_lists(alloc, seed, count)?;
    let lending = LendingCompaction::new(alloc, lent_list(lent), rules)?;
    let by_value = CompactionStream::new(list.into_iter(), rules.watermark)
        .evict_tombstones(rules.evict)
        .zero_seqnos(rules.zeroing);
    agree(by_value, lending, usize::from(count) + 2)
}

// A number of lists.
fn lists_of(alloc: Global, seed: u64, count: u8) -> Result<Vec<Vec<IterItem>>, Error> {
    let mut lists = Vec::new(alloc);
    for place in 0..count {
        let value = place.wrapping_mul(41);
        lists.push(list_of(alloc, seed.wrapping_add(u64::from(place)), 40, value)?)?;
    }
    Ok(lists)
}

fn merger_of(alloc: Global, lists: Vec<Vec<IterItem>>) -> Result<Merger<IntoIter<IterItem>>, Error>
    ensures can { let iter = ⟦<Merger<IntoIter<IterItem>> as Iterator>⟧ in
        IfOk result (CanYield iter.next_gives nowhere iter.can_next iter.can_next) }
{
    let mut sources = Vec::new(alloc);
    for list in lists {
        sources.push(list.into_iter())?;
    }
    Merger::new(alloc, sources)
}

fn lending_merger_of(
    alloc: Global,
    lists: Vec<Vec<IterItem>>,
) -> Result<LendingMerger<LentList>, Error>
    ensures can { IfOk result (CanYield ⟦<LendingMerger<LentList> as Lending>⟧.advances nowhere
        ⟦<LendingMerger<LentList> as Lending>⟧.can_advance
        ⟦<LendingMerger<LentList> as Lending>⟧.can_advance) }
{
    let mut sources = Vec::new(alloc);
    for list in lists {
        sources.push(lent_list(list))?;
    }
    LendingMerger::new(alloc, sources)
}

// Whether mergers of a number of lists yield the same by value and borrowed.
fn mergers_agree(alloc: Global, seed: u64, count: u8) -> Result<bool, Error> {
    let by_value = merger_of(alloc, lists_of(alloc, seed, count)?)?;
    let lending = lending_merger_of(alloc, lists_of(alloc, seed, count)?)?;
    agree(by_value, lending, 40 * usize::from(count) + 2)
}

// The lending iterator that is compared: the newest versions of a list, a merger of several lists,
// or a compaction of a list. A compaction has a watermark, and flags to evict tombstones and to
// zero sequence numbers.
#[derive(Clone, Copy)]
enum Kind {
    Newest,
    Compacted(u64, bool, bool),
    Merged,
}

// Whether the lending iterator yields the same as the one by value, over a number of entries or of
// lists.
fn kinds_agree(alloc: Global, kind: Kind, seed: u64, count: u8) -> Result<bool, Error> {
    match kind {
        Kind::Newest => newest_agree(alloc, seed, count),
        Kind::Compacted(watermark, evict, zeroing) => {
            let rules = Rules {
                watermark,
                evict,
                zeroing,
            };
            compactions_agree(alloc, seed, count, rules)
        }
        Kind::Merged => mergers_agree(alloc, seed, count),
    }
}

const AGREEING: &[(Kind, u8)] = &[
    (Kind::Newest, 0),
    (Kind::Newest, 1),
    (Kind::Newest, 2),
    (Kind::Newest, 7),
    (Kind::Newest, 60),
    (Kind::Compacted(0, false, false), 60),
    (Kind::Compacted(0, true, false), 60),
    (Kind::Compacted(0, false, true), 60),
    (Kind::Compacted(0, true, true), 60),
    (Kind::Compacted(8, false, false), 60),
    (Kind::Compacted(8, true, false), 60),
    (Kind::Compacted(8, false, true), 60),
    (Kind::Compacted(8, true, true), 60),
    (Kind::Compacted(16, false, false), 60),
    (Kind::Compacted(16, true, false), 60),
    (Kind::Compacted(16, false, true), 60),
    (Kind::Compacted(16, true, true), 60),
    (Kind::Compacted(40, false, false), 60),
    (Kind::Compacted(40, true, false), 60),
    (Kind::Compacted(40, false, true), 60),
    (Kind::Compacted(40, true, true), 60),
    (Kind::Merged, 0),
    (Kind::Merged, 1),
    (Kind::Merged, 2),
    (Kind::Merged, 3),
    (Kind::Merged, 8),
    (Kind::Merged, 33),
];

#[test]
fn what_lends_gives_what_is_given_by_value(rt: HostRuntime) {
    for &(kind, count) in AGREEING {
        for seed in 1..=8u64 {
            let agree = kinds_agree(rt.alloc(), kind, seed, count);
            assert!(rt; matches!(agree, Ok(true)), "{count} by {seed}");
        }
    }
}

// The lists of a text, each up to a `/`.
fn spelled(alloc: Global, text: &'static str) -> Result<Vec<Vec<IterItem>>, Error> {
    let mut lists = Vec::new(alloc);
    for part in text.split_terminator('/') {
        lists.push(results_of(alloc, part)?)?;
    }
    Ok(lists)
}

// Whether a lending merger of the sources of a text yields the wanted items.
fn merges(alloc: Global, text: &'static str, wanted: &str) -> Result<bool, Error> {
    let mut lending = lending_merger_of(alloc, spelled(alloc, text)?)?;
    Ok(lending.entry().is_none() && lends_so(&mut lending, wanted))
}

// Sources, and the items of their merger.
const LENT: &[(&str, &str)] = &[
    ("", ""),
    ("aV1 dV1 / bV1 / cV1 /", "aV1 bV1 cV1 dV1"),
    // An error is yielded right after the entry before it, and nothing follows it.
    ("aV1 dV1 !7 / bV1 / cV1 eV1 /", "aV1 bV1 cV1 dV1 !7"),
    ("aV1 dV1 / bV1 !7 fV1 / cV1 /", "aV1 bV1 !7"),
    ("aV1 cV1 !7 / bV1 !7 / eV1 /", "aV1 bV1 !7"),
    ("aV1 aV1 !7 / aV1 bV1 /", "aV1 aV1 !7"),
    ("aV1 bV1 / aV1 !7 /", "aV1 aV1 !7"),
    // At the front of a source it is the first item.
    ("aV1 / !7 bV1 / !7 /", "!7"),
];

#[test]
fn an_error_is_answered_right_behind_the_entry_before_it(rt: HostRuntime) {
    for &(text, wanted) in LENT {
        assert!(rt;
            matches!(merges(rt.alloc(), text, wanted), Ok(true)),
            "{text}"
        );
    }
}

// ---- below a bound

// A lending iterator over the results of a text, before its first step or after it.
fn source_of(alloc: Global, text: &'static str, is_lent: bool) -> Result<LentList, Error>
    ensures can { IfOk result (CanYield ⟦<LentList as Lending>⟧.advances nowhere
        ⟦<LentList as Lending>⟧.can_advance ⟦<LentList as Lending>⟧.can_advance) }
{
    let mut source = lent_list(results_of(alloc, text)?);
    if !is_lent {
        return Ok(source);
    }
    go_on(&mut source)?;
    Ok(source)
}

// A text, whether its source made a step already, and a bound. Then the entry borrowed before the
// first step, and the items of the steps.
type LentBelow = (&'static str, bool, SeqNo, &'static str, &'static str);

// Whether exactly the entries below the bound are borrowed.
fn lends_below(alloc: Global, case: &LentBelow) -> Result<bool, Error> {
    let &(text, is_lent, seqno, before, wanted) = case;
    let mut below = Below::lending(source_of(alloc, text, is_lent)?, seqno);
    let is_first = said_lent(&below) == said_by(before);
    Ok(lends_so(&mut below, wanted) && is_first)
}

const LENT_BELOW: &[LentBelow] = &[
    ("", false, 9, "-", ""),
    ("aV5 aV4 bT3", false, 5, "-", "aV4 bT3"),
    ("aV5 aV4 bT3", false, 6, "-", "aV5 aV4 bT3"),
    ("aV5 aV4 bT3", false, 3, "-", ""),
    ("aV5 aV4 bT3", false, 0, "-", ""),
    // Entries at the bound or above it, between others and before an error.
    ("aV1 bV7 cV5 dV2 eV5 !3", false, 5, "-", "aV1 dV2 !3"),
    // The source has a current entry before the first step. It is yielded only if it is below the
    // bound.
    ("aV4 bV3", true, 5, "aV4", "bV3"),
    ("aV5 bV3", true, 5, "-", "bV3"),
    ("aV6 bV3", true, 5, "-", "bV3"),
    ("aV6 bV5", true, 5, "-", ""),
    ("", true, 5, "-", ""),
];

#[test]
fn entries_at_a_bound_or_above_are_not_lent(rt: HostRuntime) {
    for case in LENT_BELOW {
        let lent = lends_below(rt.alloc(), case);
        assert!(rt; matches!(lent, Ok(true)), "{}", case.0);
    }
}
