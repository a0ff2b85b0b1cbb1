//! The number of comparisons of a merge through a queue, counted by the entries.
ghost use Rattle.std.specs.Prelude.{◌≡◌, ℕ};
ghost use Rattle.std.proofs.Common.{refl};
ghost use Rattle.std.specs.Cmp.{partial_order_from_total, partial_equiv_from_equiv};
ghost use Rattle.std.specs.Cmp.{eq_by_cmp_equiv, on_total, nat_cmp_total};
ghost use Rattle.std.specs.Ordering.{as_partial_cmp, eq_by_cmp, nat_cmp, on};

use crate::heaps::examples::{Example, first_wrong};
use lsm_sorted::LazyTournament;
use std::alloc::Global;
use std::cell::Cell;
use std::cmp::Ordering;
use std::marker::Model;

// An entry by its key, its source and its index in the source. It counts each comparison of two
// entries.
#[derive(Drop)]
struct Counted<'a> {
    key: u64,
    source: u64,
    place: u64,
    made: &'a Cell<u64>,
}

impl<'a> Ord for Counted<'a> {
    ghost cmp = { on (λ e. e.key) nat_cmp };

    ghost total = { on_total (λ e. e.key) nat_cmp_total };

    ghost matches_partial_cmp = { λ x y. refl };

    ghost matches_eq = { λ x y. refl };

    fn cmp(&self, other: &Counted<'a>) -> Ordering {
        self.made.set(self.made.get().saturating_add(1));
        self.key.cmp(&other.key)
    }
}

impl<'a> PartialOrd for Counted<'a> {
    ghost partial_cmp = { as_partial_cmp (on (λ e. e.key) nat_cmp) };

    ghost laws = { partial_order_from_total (on_total (λ e. e.key) nat_cmp_total) };

    fn partial_cmp(&self, other: &Counted<'a>) -> Option<Ordering> {
        Some(self.cmp(other))
    }
}

impl<'a> PartialEq for Counted<'a> {
    ghost eq = { eq_by_cmp (on (λ e. e.key) nat_cmp) };

    ghost laws = { partial_equiv_from_equiv
        (eq_by_cmp_equiv (on_total (λ e. e.key) nat_cmp_total)) };

    fn eq(&self, other: &Counted<'a>) -> bool {
        self.cmp(other).is_eq()
    }
}

impl<'a> Eq for Counted<'a> {
    ghost laws = { eq_by_cmp_equiv (on_total (λ e. e.key) nat_cmp_total) };
}

// The order of the entries of all sources. They come from each source in turn, always in the
// sources' order or in another one each time; or source after source.
enum Order {
    InTurn,
    Mixed,
    OneAfterAnother,
}

// A number of sources, a power of two, and the number of entries of each.
struct Sources {
    count: u64,
    each: u64,
    order: Order,
}

impl Sources {
    // The key of an entry. The keys of a source ascend, and all keys differ.
    fn key_of(&self, source: u64, place: u64) -> u64 {
        let turn = place.wrapping_mul(self.count);
        match self.order {
            Order::InTurn => turn.wrapping_add(source),
            Order::Mixed => {
                let mixed = source.wrapping_mul(5).wrapping_add(place.wrapping_mul(3));
                turn.wrapping_add(mixed & self.count.wrapping_sub(1))
            }
            Order::OneAfterAnother => source.wrapping_mul(self.each).wrapping_add(place),
        }
    }
}

// A merge of sources through a queue with room for two entries per source, like the queue of a
// merger.
#[derive(Drop)]
struct Merge<'a> {
    queue: LazyTournament<Counted<'a>>,
    room: usize,
    sources: &'a Sources,
    made: &'a Cell<u64>,
}

impl<'a> Model for Merge<'a> {
    ghost Value = { ℕ };

    ghost view = { λ m. m.room };

    ghost invariant = { λ m. m.queue.room ≡ m.room };
}

impl<'a> Merge<'a> {
    // Pushes an entry of a source, if the source has it.
    fn push(&mut self, source: u64, place: u64) {
        if place < self.sources.each && self.queue.len() < self.room {
            let key = self.sources.key_of(source, place);
            self.queue.push(Counted {
                key,
                source,
                place,
                made: self.made,
            });
        }
    }

    // Pops the least entry and pushes the next one of its source, as a merger does. Returns the
    // key.
    fn next(&mut self) -> u64 {
        match self.queue.pop_min() {
            Some(entry) => {
                self.push(entry.source, entry.place.wrapping_add(1));
                entry.key
            }
            None => 0,
        }
    }
}

// The outcome of a merge: the number of entries in key order, the number left in the queue, the
// comparisons made, and those that the queue counted.
fn merged(mut merge: Merge<'_>, entries: u64) -> (u64, usize, u64, u64) {
    for source in 0..merge.sources.count {
        merge.push(source, 0);
    }
    let mut ascended = 0u64;
    let mut least = 0;
    for _ in 0..entries {
        let key = merge.next();
        ascended = ascended.wrapping_add(u64::from(key >= least));
        least = key;
    }
    (
        ascended,
        merge.queue.len(),
        merge.made.get(),
        merge.queue.steps(),
    )
}

// Sources, the room of the queue, the most comparisons per entry, and the comparisons in all.
struct Compared(Sources, usize, u64, u64);

impl Example for Compared {
    // Whether all entries are in order, and the comparisons are those that the queue counts.
    fn is_so(&self, alloc: Global) -> bool {
        let Compared(sources, room, an_entry, comparisons) = self;
        let entries = sources.count.saturating_mul(sources.each);
        let made = Cell::new(0);
        match LazyTournament::with_capacity(alloc, *room) {
            Ok(queue) => {
                let merge = Merge {
                    queue,
                    room: *room,
                    sources,
                    made: &made,
                };
                merged(merge, entries) == (entries, 0, *comparisons, *comparisons)
                    && *comparisons <= entries.saturating_mul(*an_entry)
            }
            Err(_) => false,
        }
    }
}

// With n sources in twice as many slots, the first pop plays n - 1 matches. After that a push plays
// the h matches above its slot, 3 for 8 sources and 6 for 64, while all sources have entries.
//
// A source that ends leaves its matches to the others. One match fewer is played above its slot,
// and ever fewer as more sources end. If they end in the order of their slots, that makes 5 matches
// for 8 sources, and 129 for 64.
//
// If one source comes after another, a push plays only the matches against the later ones: half of
// them per source on average. In each row, h is the most comparisons per entry.
const COMPARISONS: &[Compared] = &[
    Compared(
        Sources {
            count: 8,
            each: 100,
            order: Order::InTurn,
        },
        16,
        3,
        // 7 + 3 * 792 + 5
        2388,
    ),
    Compared(
        Sources {
            count: 8,
            each: 100,
            order: Order::Mixed,
        },
        16,
        3,
        // The slots end in the order 3 0 5 2 7 4 1 6: 7 + 3 * 792 + 10.
        2393,
    ),
    Compared(
        Sources {
            count: 8,
            each: 100,
            order: Order::OneAfterAnother,
        },
        16,
        3,
        // 7 + 12 * 99 + 5
        1200,
    ),
    Compared(
        Sources {
            count: 64,
            each: 20,
            order: Order::InTurn,
        },
        128,
        6,
        // 63 + 6 * 1216 + 129
        7488,
    ),
    Compared(
        Sources {
            count: 64,
            each: 20,
            order: Order::OneAfterAnother,
        },
        128,
        6,
        // 63 + 192 * 19 + 129
        3840,
    ),
];

#[test]
fn an_entry_takes_as_many_comparisons_as_its_slot_has_matches(rt: HostRuntime) {
    let wrong = first_wrong(rt.alloc(), COMPARISONS);
    assert!(rt; wrong.is_none(), "{wrong:?}");
}
