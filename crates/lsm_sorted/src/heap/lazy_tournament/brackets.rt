// Two tournaments over the same slots, one that the least item wins and one that the greatest wins.
ghost use Rattle.std.specs.Prelude.{◌≡◌, ◌⊎◌, ℕ, ◌+◌, ◌-◌, ◌^◌, ◌<◌, ◌≤◌, length, min, true, false};
ghost use Rattle.std.specs.Prelude.{if◌then◌else◌, IfOk};
ghost use Rattle.lsm_sorted.specs.Words as spec;

use crate::heap::order::is_before;
use sst_entries::Direction;
use std::alloc::{AllocError, Allocator};

// A full binary tree whose leaves are the slots. Each inner node names the winner of its two
// children. Node 1 is the root, and the children of node n are 2n and 2n + 1. Before the matches
// are first played, the inner nodes may name any slots.
#[derive(Drop)]
pub struct Bracket<A: Allocator> {
    pub(crate) end: Direction,
    pub(crate) nodes: Vec<usize, A>,
    pub(crate) is_played: bool,
}

#[derive(Drop)]
pub struct Brackets<A: Allocator> {
    pub(crate) front: Bracket<A>,
    pub(crate) back: Bracket<A>,
    // The slot that the last pop emptied. The matches above it are still to be played.
    pub(crate) emptied: Option<usize>,
    pub(crate) steps: u64,
}

impl<A: Allocator + Clone> Brackets<A> {
    // Two tournaments over `leaves` empty slots.
    pub(crate) fn new(alloc: A, leaves: usize, is_played: bool) -> Result<Self, AllocError>
        requires { 0 < leaves }
        ensures front { IfOk result (λ b. spec.IsUnplayed leaves b.front) }
        ensures back { IfOk result (λ b. spec.IsUnplayed leaves b.back) }
        ensures front_end { IfOk result (λ b. b.front.end ≡ spec.Front) }
        ensures back_end { IfOk result (λ b. b.back.end ≡ spec.Back) }
        ensures front_played { IfOk result (λ b. b.front.is_played ≡ is_played) }
        ensures back_played { IfOk result (λ b. b.back.is_played ≡ is_played) }
        ensures emptied { IfOk result (λ b. b.emptied ≡ None) }
        ensures steps { IfOk result (λ b. b.steps ≡ 0) }
    {
        let front = Bracket::new(alloc.clone()?, Direction::Front, leaves, is_played)?;
        Ok(Brackets {
            front,
            back: Bracket::new(alloc, Direction::Back, leaves, is_played)?,
            emptied: None,
            steps: 0,
        })
    }
}

impl<A: Allocator> Brackets<A> {
    // The slot that wins at an end, once the matches that are left are played.
    pub(crate) fn winner<T: Ord>(&mut self, slots: &[Option<T>], end: Direction) -> usize
        requires some { 0 < length slots.now }
        requires kept { spec.AreKept self.old.emptied T.cmp slots.now self.old }
        ensures within { result < length slots.now }
        ensures wins { spec.IsUnbeaten (spec.toward end T.cmp) slots.now result }
        ensures kept { spec.AreKept None T.cmp slots.now self.new }
        ensures emptied { self.new.emptied ≡ None }
        ensures plays { spec.PlaysEnd end self.old self.new }
        ensures rises { self.old.steps ≤ self.new.steps }
        ensures bound { (h : ℕ) → length slots.now ≡ 2 ^ h →
            self.new.steps ≤ spec.most_steps end self.old (length slots.now) h }
    {
        self.settle(slots);
        match end {
            Direction::Front => self.front.winner(slots, &mut self.steps),
            Direction::Back => self.back.winner(slots, &mut self.steps),
        }
    }

    // Plays the matches above the slot that was emptied last.
    fn settle<T: Ord>(&mut self, slots: &[Option<T>])
        requires { spec.AreKept self.old.emptied T.cmp slots.now self.old }
        ensures kept { spec.AreKept None T.cmp slots.now self.new }
        ensures emptied { self.new.emptied ≡ None }
        ensures front { self.new.front.is_played ≡ self.old.front.is_played }
        ensures back { self.new.back.is_played ≡ self.old.back.is_played }
        ensures rises { self.old.steps ≤ self.new.steps }
        ensures bound { (h : ℕ) → length slots.now ≡ 2 ^ h → self.new.steps ≤ self.old.steps
            + spec.total_height self.old.front.is_played self.old.back.is_played h }
    {
        match self.emptied {
            Some(slot) => {
                self.emptied = None;
                self.follow(slots, slot);
            }
            None => (),
        }
    }

    // Plays the matches above a slot again, after its item has changed.
    pub(crate) fn follow<T: Ord>(&mut self, slots: &[Option<T>], slot: usize)
        requires { spec.AreKept (Some slot) T.cmp slots.now self.old }
        ensures kept { spec.AreKept None T.cmp slots.now self.new }
        ensures emptied { self.new.emptied ≡ self.old.emptied }
        ensures front { self.new.front.is_played ≡ self.old.front.is_played }
        ensures back { self.new.back.is_played ≡ self.old.back.is_played }
        ensures rises { self.old.steps ≤ self.new.steps }
        ensures bound { (h : ℕ) → length slots.now ≡ 2 ^ h → self.new.steps ≤ self.old.steps
            + spec.total_height self.old.front.is_played self.old.back.is_played h }
    {
        self.front.follow(slots, slot, &mut self.steps);
        self.back.follow(slots, slot, &mut self.steps);
    }
}

impl<A: Allocator> Bracket<A> {
    // A tournament over empty slots: of two, the first wins.
    fn new(alloc: A, end: Direction, leaves: usize, is_played: bool) -> Result<Self, AllocError>
        requires { 0 < leaves }
        ensures unplayed { IfOk result (λ b. spec.IsUnplayed leaves b) }
        ensures end { IfOk result (λ b. b.end ≡ end) }
        ensures played { IfOk result (λ b. b.is_played ≡ is_played) }
    {
        let Some(size) = leaves.checked_mul(2) else {
            return Err(AllocError);
        };
        let mut nodes = vec![in alloc; 0; size]?;
        for node in (1..size).rev() {
            nodes[node] = if node < leaves {
                nodes[2 * node]
            } else {
                node - leaves
            };
        }
        Ok(Bracket {
            end,
            nodes,
            is_played,
        })
    }

    // The slot that wins. From this call on, its matches are played.
    fn winner<T: Ord>(&mut self, slots: &[Option<T>], steps: &mut u64) -> usize
        requires some { 0 < length slots.now }
        requires kept { spec.IsKept None T.cmp slots.now self.old }
        ensures within { result < length slots.now }
        ensures wins { spec.IsUnbeaten (spec.toward self.old.end T.cmp) slots.now result }
        ensures kept { spec.IsKept None T.cmp slots.now self.new }
        ensures end { self.new.end ≡ self.old.end }
        ensures played { self.new.is_played ≡ true }
        ensures rises { steps.old ≤ steps.new }
        ensures bound { steps.new ≤ steps.old
            + (if self.old.is_played then 0 else length slots.now - 1) }
    {
        self.keep(slots, steps);
        self.nodes[1]
    }

    // Plays the matches, if they were not played yet.
    fn keep<T: Ord>(&mut self, slots: &[Option<T>], steps: &mut u64)
        requires some { 0 < length slots.now }
        requires kept { spec.IsKept None T.cmp slots.now self.old }
        ensures won { spec.IsWon T.cmp slots.now self.new }
        ensures end { self.new.end ≡ self.old.end }
        ensures played { self.new.is_played ≡ true }
        ensures rises { steps.old ≤ steps.new }
        ensures bound { steps.new ≤ steps.old
            + (if self.old.is_played then 0 else length slots.now - 1) }
    {
        if !self.is_played {
            self.play(slots, steps);
        }
    }

    // Plays each match, those of the leaves first.
    fn play<T: Ord>(&mut self, slots: &[Option<T>], steps: &mut u64)
        requires some { 0 < length slots.now }
        requires nodes { spec.IsBracket (length slots.now) self.old.nodes.items }
        ensures won { spec.IsWon T.cmp slots.now self.new }
        ensures end { self.new.end ≡ self.old.end }
        ensures played { self.new.is_played ≡ true }
        ensures rises { steps.old ≤ steps.new }
        ensures bound { steps.new + 1 ≤ steps.old + length slots.now }
    {
        for node in (1..slots.len()).rev() {
            let (first, second) = (self.nodes[2 * node], self.nodes[2 * node + 1]);
            self.nodes[node] = winner_of(slots, self.end, first, second, steps);
        }
        self.is_played = true;
    }

    // Plays the matches above a slot again after its item has changed, unless none were played yet.
    fn follow<T: Ord>(&mut self, slots: &[Option<T>], slot: usize, steps: &mut u64)
        requires { spec.IsKept (Some slot) T.cmp slots.now self.old }
        ensures kept { spec.IsKept None T.cmp slots.now self.new }
        ensures end { self.new.end ≡ self.old.end }
        ensures played { self.new.is_played ≡ self.old.is_played }
        ensures rises { steps.old ≤ steps.new }
        ensures bound { (h : ℕ) → length slots.now ≡ 2 ^ h →
            steps.new ≤ steps.old + (if self.old.is_played then h else 0) }
    {
        if self.is_played {
            self.replay(slots, slot, steps);
        }
    }

    // Plays the matches above a slot again. It stops at a match whose winner stays and is another
    // slot, since the matches above do not change.
    fn replay<T: Ord>(&mut self, slots: &[Option<T>], slot: usize, steps: &mut u64)
        requires { spec.WasWon T.cmp slots.now slot self.old }
        ensures won { spec.IsWon T.cmp slots.now self.new }
        ensures end { self.new.end ≡ self.old.end }
        ensures played { self.new.is_played ≡ self.old.is_played }
        ensures rises { steps.old ≤ steps.new }
        ensures bound { (h : ℕ) → length slots.now ≡ 2 ^ h → steps.new ≤ steps.old + h }
    {
        let mut node = self.nodes.len() / 2 + slot;
        while node > 1 {
            node /= 2;
            let (first, second) = (self.nodes[2 * node], self.nodes[2 * node + 1]);
            let winner = winner_of(slots, self.end, first, second, steps);
            if winner == self.nodes[node] && winner != slot {
                return;
            }
            self.nodes[node] = winner;
        }
    }
}

// The winner of two slots. An empty slot loses, and of equal items the first wins.
#[inline(always)]
fn winner_of<T: Ord>(
    slots: &[Option<T>],
    end: Direction,
    first: usize,
    second: usize,
    steps: &mut u64,
) -> usize
    requires first { first < length slots.now }
    requires second { second < length slots.now }
    ensures from { (result ≡ first) ⊎ (result ≡ second) }
    ensures first { spec.is_beaten (spec.toward end T.cmp) (spec.slot_at slots.now result)
        (spec.slot_at slots.now first) ≡ false }
    ensures second { spec.is_beaten (spec.toward end T.cmp) (spec.slot_at slots.now result)
        (spec.slot_at slots.now second) ≡ false }
    ensures rises { steps.old ≤ steps.new }
    ensures bound { steps.new ≤ steps.old + 1 }
{
    match (&slots[first], &slots[second]) {
        (Some(x), Some(y)) => {
            if beats(end, y, x, steps) {
                second
            } else {
                first
            }
        }
        (None, Some(_)) => second,
        _ => first,
    }
}

// Whether `y` comes before `x` at this end. Each comparison of two items is made and counted here.
#[inline(always)]
fn beats<T: Ord>(end: Direction, y: &T, x: &T, steps: &mut u64) -> bool
    ensures value { result ≡ spec.is_gt (spec.toward end T.cmp x.now y.now) }
    ensures counted { steps.new ≡ min (steps.old + 1) (2 ^ 64 - 1) }
    ensures rises { steps.old ≤ steps.new }
{
    *steps = steps.saturating_add(1);
    is_before(end, y, x)
}
