//! The slots that an arena is made from, and the steps of making it. Each free slot has to be named
//! once: a slot that is linked already or isn't free is refused, and at the end none may be left.
ghost use Rattle.std.specs.Prelude.{◌≡◌, ℕ, ◌+◌, ◌^◌, ◌<◌, ◌++◌, ◌∷◌, [], length, map, count_by};
ghost use Rattle.std.specs.Prelude.{slice_set, slice_index_or, true, IsTrue, ◌↔◌};
ghost use Rattle.std.specs.Prelude.{IfOk, IfErr, OnOk, OnErr};
ghost use Rattle.arena.specs.Arena.{IsSound, plain};
ghost use Rattle.arena_slot.specs.Slot.{IsBorn, is_occupied, slot_read};
ghost use Rattle.arena_slot.specs.Entry.{slot_of};
ghost use Rattle.arena.specs.Made.{AreCounted, IsLinking, entry_at};
ghost use Rattle.arena_slot.specs.Entry.{unlinked_of, is_unlinked, linked_to};
ghost use Rattle.arena.specs.Row.{row};
ghost use Rattle.arena_slot.specs.declared.Slot.TheVariants as slot;
ghost use Rattle.arena.specs.declared.ArenaError.TheVariants.{Shape};

use crate::ArenaError;
use crate::store::Store;
use arena_slot::{Entry, FIRST_GENERATION, Slot};
use std::alloc::{AllocError, Global};
use std::marker::Model;

/// The slots that an arena is made from, in order of their numbers, at most as many as
/// [`Slots::new`] was given. They are already in the places that they will have in the arena.
pub struct Slots<T> {
    // None of them is linked yet.
    entries: Store<Entry<T>>,
    occupied: u32,
    vacant: u32,
    // Whether each generation is at least the first.
    born: bool,
}

// Written out, so that the crates above don't have to prove again how each field is dropped.
impl<T: Drop> Drop for Slots<T> {
    fn drop(self) {
        let Slots {
            entries: _,
            occupied: _,
            vacant: _,
            born: _,
        } = self;
    }
}

impl<T> Model for Slots<T> {
    ghost use Rattle.arena.specs.Row.{Row, row};
    ghost use Rattle.arena_slot.specs.declared.Slot.{Slot};

    ghost Value = { Row (Slot T) };

    ghost use Rattle.std.specs.Prelude.{map};
    ghost use Rattle.arena_slot.specs.Entry.{slot_of};
    ghost use Rattle.arena.specs.Made.{AreCounted};

    ghost view = { λ s. row (map slot_of s.entries.items) s.entries.capacity };

    ghost invariant = { λ s. AreCounted s.entries s.occupied s.vacant s.born };
}

impl<T> Slots<T> {
    /// Makes an empty list of at most `most` slots. It allocates nothing yet.
    pub fn new(alloc: Global, most: u32) -> Self
        ensures { result ≡ row [] most }
    {
        Slots {
            entries: Store::new(alloc, most as usize),
            occupied: 0,
            vacant: 0,
            born: true,
        }
    }

    /// The entries of the slots, the number of occupied and of free ones, and whether each
    /// generation is at least the first.
    pub(crate) fn parts(self) -> (Store<Entry<T>>, u32, u32, bool)
        ensures seen { row (map slot_of result.0.items) result.0.capacity ≡ self }
        ensures counted { AreCounted result.0 result.1 result.2 result.3 }
    {
        let Slots {
            entries,
            occupied,
            vacant,
            born,
        } = self;
        (entries, occupied, vacant, born)
    }

    /// The number of slots.
    pub fn len(&self) -> usize
        ensures { result ≡ length self.now.items }
    {
        self.entries.len()
    }

    /// What the slot with this number holds.
    pub fn slot(&self, number: usize) -> Slot<&T>
        requires { number < length self.now.items }
        ensures { slot_read result ≡ slice_index_or self.now.items number slot.Retired }
    {
        self.entries.get(number).slot()
    }

    /// Adds a slot behind the others, which have to be fewer than allowed.
    ///
    /// It fails with [`AllocError`] if there is no memory for it. The slots are then as they were,
    /// and this one is dropped.
    pub fn push(&mut self, slot: Slot<T>) -> Result<(), AllocError>
    where
        T: Drop,
        requires { length self.old.items < self.old.capacity }
        ensures done { OnOk result
            (self.new ≡ row (self.old.items ++ slot ∷ []) self.old.capacity) }
        ensures unchanged { OnErr result (self.new ≡ self.old) }
    {
        let (free, occupied, born) = (is_free(&slot), is_occupied(&slot), is_born(&slot));
        let Ok(()) = self.entries.push(Entry::unlinked(slot)) else {
            return Err(AllocError);
        };
        self.vacant += u32::from(free);
        self.occupied += u32::from(occupied);
        self.born &= born;
        Ok(())
    }
}

// Whether the generation of a slot, if there is one, is at least the first.
fn is_born<T>(slot: &Slot<T>) -> bool
    ensures { IsTrue result ↔ IsBorn slot.now }
{
    match slot {
        Slot::Free(generation) => *generation >= FIRST_GENERATION,
        Slot::Occupied(generation, _) => *generation >= FIRST_GENERATION,
        Slot::Retired => true,
    }
}

fn is_free<T>(slot: &Slot<T>) -> bool
    ensures { result ≡ is_unlinked (unlinked_of slot.now) }
{
    matches!(slot, Slot::Free(_))
}

fn is_occupied<T>(slot: &Slot<T>) -> bool
    ensures { result ≡ is_occupied slot.now }
{
    matches!(slot, Slot::Occupied(_, _))
}

/// Links the slots that `free` names, in its order, and returns the first one. If `free` is empty,
/// there is no first one.
///
/// It fails with [`ArenaError::Shape`] if one of them isn't free, was never used, or is named
/// twice.
pub(crate) fn link<T>(entries: &mut Store<Entry<T>>, free: &[u32]) -> Result<u32, ArenaError>
    requires unlinked { IsLinking entries.old.items [] 0 }
    requires short { length entries.old.items < 2 ^ 32 }
    ensures linked { IfOk result (IsLinking entries.new.items free.now) }
    ensures slots { OnOk result
        (map slot_of entries.new.items ≡ map slot_of entries.old.items) }
    ensures capacity { OnOk result (entries.new.capacity ≡ entries.old.capacity) }
    ensures counted { OnOk result (count_by is_unlinked entries.new.items + length free.now
        ≡ count_by is_unlinked entries.old.items) }
    ensures refused { IfErr result (λ f. (f ≡ Shape) × ((limit : ℕ)
        → IsSound (plain (map slot_of entries.old.items) free.now limit) → ⊥)) }
{
    let mut first = 0;
    let mut left = free.len();
    while left > 0 {
        left -= 1;
        if !link_one(entries, free[left], first) {
            return Err(ArenaError::Shape);
        }
        first = free[left];
    }
    Ok(first)
}

// Links a slot before the first one, if it is free and isn't linked yet, and returns whether it
// was.
fn link_one<T>(entries: &mut Store<Entry<T>>, slot: u32, first: u32) -> bool
    ensures answer { result ≡ is_unlinked (entry_at entries.old.items slot) }
    ensures done { result ≡ true
        → entries.new
        ≡ row (slice_set entries.old.items slot
        (linked_to (entry_at entries.old.items slot) first)) entries.old.capacity }
{
    if slot as usize >= entries.len() || !entries.get(slot as usize).is_unlinked() {
        return false;
    }
    entries.get_mut(slot as usize).link(first);
    true
}
