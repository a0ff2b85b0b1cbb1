// Restoring the order of an interval heap after one item has changed.
ghost use Rattle.std.specs.Prelude.{◌≡◌, ◌⊎◌, ℕ, ◌+◌, ◌-◌, ◌*◌, ◌/◌, ◌%◌, ◌<◌, ◌≤◌, length, take};
ghost use Rattle.std.specs.Prelude.{IfNone, IfSome, IsPermutation};
ghost use Rattle.lsm_sorted.specs.Words as spec;

use crate::heap::order::is_before;
use sst_entries::Direction;

// The index of the root's end at this side, in a heap of `places` items.
pub(crate) fn root_end(side: Direction, places: usize) -> usize
    requires { 0 < places }
    ensures root { spec.IsRoot side places result }
    ensures within { result < places }
{
    match side {
        Direction::Front => 0,
        // A single item is both the least and the greatest.
        Direction::Back => (places - 1).min(1),
    }
}

// Moves the last item to its position. All others are in order.
pub(crate) fn order_last<T: Ord>(items: &mut [T])
    requires some { 0 < length items.old }
    requires others { spec.IsIntervalHeap T.cmp (take (length items.old - 1) items.old) }
    ensures items { IsPermutation items.old items.new }
    ensures heap { spec.IsIntervalHeap T.cmp items.new }
{
    let last = items.len() - 1;
    if last % 2 == 1 {
        order_second(items, last);
    } else if last > 0 {
        order_single(items, last);
    }
}

// Moves the last item, the second of its node, to its position. All others are in order.
fn order_second<T: Ord>(items: &mut [T], last: usize)
    requires last { length items.old ≡ last + 1 }
    requires others { spec.IsIntervalHeap T.cmp (take last items.old) }
    requires odd { last % 2 ≡ 1 }
    ensures items { IsPermutation items.old items.new }
    ensures heap { spec.IsIntervalHeap T.cmp items.new }
{
    let first = last - 1;
    if is_before(Direction::Front, &items[last], &items[first]) {
        items.swap(first, last);
        rise(items, Direction::Front, first);
    } else {
        rise(items, Direction::Back, last);
    }
}

// Moves the last item, alone in its node and not in the root, to its position. All others are in
// order.
fn order_single<T: Ord>(items: &mut [T], last: usize)
    requires last { length items.old ≡ last + 1 }
    requires others { spec.IsIntervalHeap T.cmp (take last items.old) }
    requires even { last % 2 ≡ 0 }
    requires some { 0 < last }
    ensures items { IsPermutation items.old items.new }
    ensures heap { spec.IsIntervalHeap T.cmp items.new }
{
    let above = place_above(Direction::Front, last);
    if is_before(Direction::Front, &items[last], &items[above]) {
        rise(items, Direction::Front, last);
    } else {
        rise(items, Direction::Back, last);
    }
}

// The index of the end at this side of the parent node.
fn place_above(side: Direction, place: usize) -> usize
    requires { 2 ≤ place }
    ensures { result ≡ spec.above_of side place }
{
    let node = (place - 2) / 4;
    match side {
        Direction::Front => 2 * node,
        Direction::Back => 2 * node + 1,
    }
}

// Moves an item toward the root while it comes before the one above it.
fn rise<T: Ord>(items: &mut [T], side: Direction, mut place: usize)
    requires { spec.IsRisingAt side T.cmp items.old place }
    ensures items { IsPermutation items.old items.new }
    ensures heap { spec.IsIntervalHeap T.cmp items.new }
{
    while place > 1 {
        let above = place_above(side, place);
        if !is_before(side, &items[place], &items[above]) {
            return;
        }
        items.swap(above, place);
        place = above;
    }
}

// Moves an item away from the root while it comes after one below it.
pub(crate) fn sink<T: Ord>(items: &mut [T], side: Direction, mut place: usize)
    requires { spec.SinksFrom side T.cmp items.old place }
    ensures items { IsPermutation items.old items.new }
    ensures heap { spec.IsIntervalHeap T.cmp items.new }
{
    if place >= items.len() {
        return;
    }
    loop {
        order_node(items, side, place);
        let Some(child) = first_child(items, side, place) else {
            return;
        };
        if !is_before(side, &items[child], &items[place]) {
            return;
        }
        items.swap(place, child);
        place = child;
    }
}

// Orders the two ends of a node.
fn order_node<T: Ord>(items: &mut [T], side: Direction, place: usize)
    requires { spec.IsSinkingAt side T.cmp items.old place }
    ensures items { IsPermutation items.old items.new }
    ensures sinking { spec.IsSinkingAt side T.cmp items.new place }
    ensures ordered { (b : ℕ) → spec.PrecedesOn side (length items.new) place b →
        b / 2 ≡ place / 2 → spec.InOrder side T.cmp items.new place b }
{
    let other = if place % 2 == 0 { place + 1 } else { place - 1 };
    if other < items.len() && is_before(side, &items[other], &items[place]) {
        items.swap(place, other);
    }
}

// The index of the first in order among the child nodes' ends at this side.
fn first_child<T: Ord>(items: &[T], side: Direction, place: usize) -> Option<usize>
    requires within { place < length items.now }
    requires end { spec.IsEnd side (length items.now) place }
    ensures none { IfNone result ((b : ℕ) → spec.IsChildEnd side (length items.now) place b → ⊥) }
    ensures some { IfSome result (λ c. spec.IsChildEnd side (length items.now) place c) }
    ensures first { IfSome result (λ c. (b : ℕ) → spec.IsChildEnd side (length items.now) place b →
        spec.InOrder side T.cmp items.now c b) }
{
    let child = place / 2 * 2 + 1;
    let left = end_of(side, child, items.len())?;
    let Some(right) = end_of(side, child + 1, items.len()) else {
        return Some(left);
    };
    if is_before(side, &items[right], &items[left]) {
        Some(right)
    } else {
        Some(left)
    }
}

// The index of a node's end at this side, in a heap of `places` items.
fn end_of(side: Direction, node: usize, places: usize) -> Option<usize>
    requires { 0 < places }
    ensures none { IfNone result (places ≤ 2 * node) }
    ensures node { IfSome result (λ k. k / 2 ≡ node) }
    ensures within { IfSome result (λ k. k < places) }
    ensures end { IfSome result (λ k. spec.IsEnd side places k) }
{
    let last = places - 1;
    if node > last / 2 {
        return None;
    }
    Some(match side {
        Direction::Front => 2 * node,
        Direction::Back => last.min(2 * node + 1),
    })
}
