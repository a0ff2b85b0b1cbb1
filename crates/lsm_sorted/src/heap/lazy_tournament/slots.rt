// Slots for items, with a list of the free ones.
ghost use Rattle.std.specs.Prelude.{◌≡◌, ℕ, ◌+◌, ◌<◌, ◌≤◌, [], ◌∷◌, ◌++◌, IfSome, length};
ghost use Rattle.std.specs.Prelude.{replicate, slice_index, slice_set, IfOk};
ghost use Rattle.lsm_sorted.specs.Words as spec;

use std::alloc::{AllocError, Allocator};
use std::marker::Model;

#[derive(Drop)]
pub struct Slots<T, A: Allocator> {
    places: Vec<Option<T>, A>,
    free: Vec<usize, A>,
}

impl<T, A: Allocator> Model for Slots<T, A> {
    ghost use Rattle.std.specs.Vec.{vec_capacity};
    ghost use Rattle.lsm_sorted.specs.merge.Slots.{Places, IsFreeList};

    ghost Value = { Places T };

    ghost view = { λ s. record {
      places = s.places.items;
      room = vec_capacity s.free;
      free = s.free.items;
    } };

    ghost invariant = { λ s. IsFreeList s.places.items s.free.items (vec_capacity s.free) };
}

impl<T, A: Allocator + Clone> Slots<T, A> {
    // Creates `places` empty slots, of which `room` may be taken.
    pub(crate) fn new(alloc: A, room: usize, places: usize) -> Result<Self, AllocError>
        requires { room ≤ places }
        ensures places { IfOk result (λ s. s.places ≡ replicate places None) }
        ensures room { IfOk result (λ s. s.room ≡ room) }
    {
        let free = first_slots(alloc.clone()?, room)?;
        Ok(Slots {
            places: empty_places(alloc, places)?,
            free,
        })
    }
}

impl<T, A: Allocator> Slots<T, A> {
    pub(crate) fn len(&self) -> usize
        ensures { result ≡ length (spec.occupants self.now.places) }
    {
        self.free.capacity() - self.free.len()
    }

    pub(crate) fn as_slice(&self) -> &[Option<T>]
        ensures { result.now ≡ self.now.places }
    {
        self.places.as_slice()
    }

    // Puts an item into an empty slot, and returns the slot.
    pub(crate) fn insert(&mut self, item: T) -> usize
        requires { length (spec.occupants self.old.places) < self.old.room }
        ensures within { result < length self.old.places }
        ensures empty { spec.slot_at self.old.places result ≡ None }
        ensures places { self.new.places ≡ slice_set self.old.places result (Some item) }
        ensures room { self.new.room ≡ self.old.room }
        ensures last { self.old.free ≡ self.new.free ++ result ∷ [] }
    {
        let Some(slot) = self.free.pop() else {
            unreachable!()
        };
        match self.places[slot].replace(item) {
            None => slot,
            Some(_) => unreachable!(),
        }
    }

    // Empties a slot.
    pub(crate) fn remove(&mut self, slot: usize) -> Option<T>
        requires { slot < length self.old.places }
        ensures value { result ≡ spec.slot_at self.old.places slot }
        ensures places { self.new.places ≡ slice_set self.old.places slot None }
        ensures room { self.new.room ≡ self.old.room }
        ensures last { IfSome result (λ _. self.new.free ≡ self.old.free ++ slot ∷ []) }
    {
        let item = self.places[slot].take()?;
        self.free.push_reserved(slot);
        Some(item)
    }
}

// The slots below `count`, the lowest last.
fn first_slots<A: Allocator>(alloc: A, count: usize) -> Result<Vec<usize, A>, AllocError>
    ensures room { IfOk result (λ v. spec.vec_capacity v ≡ count) }
    ensures count { IfOk result (λ v. length v.items ≡ count) }
    ensures each { IfOk result (λ v. (i : ℕ) → i < count → slice_index v.items i + i + 1 ≡ count) }
{
    let mut free = Vec::with_capacity(alloc, count)?;
    for slot in (0..count).rev() {
        free.push_reserved(slot);
    }
    Ok(free)
}

fn empty_places<T, A: Allocator>(alloc: A, count: usize) -> Result<Vec<Option<T>, A>, AllocError>
    ensures { IfOk result (λ v. v.items ≡ replicate count None) }
{
    let mut places = Vec::with_capacity(alloc, count)?;
    for _ in 0..count {
        places.push_reserved(None);
    }
    Ok(places)
}
