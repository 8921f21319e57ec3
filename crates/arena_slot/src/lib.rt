//! One slot of an arena: what it holds, and how it lies in memory; the slots together, with their
//! free list, are in `arena`.
//!
//! A [`Slot`] is what an arena shows. An [`Entry`] is the slot in memory. A free one names the free
//! slot to be used after it, in the place that a value would take. So the free list needs no memory
//! of its own.
#![tactic(auto)]

ghost use Rattle.std.specs.Prelude.{◌≡◌, ◌+◌, ◌<◌, IsSome, Some, option_copied};
ghost use Rattle.std.specs.Borrow.{Lends, sem};
ghost use Rattle.arena_slot.specs.Slot.{IsFree, value_in, value_of, generation_of, generation_in};
ghost use Rattle.arena_slot.specs.Slot.{slot_generation, slot_read};
ghost use Rattle.arena_slot.specs.Entry.{slot_of, held_by, next_of, occupied_by};
ghost use Rattle.arena_slot.specs.Entry.{unlinked_of, is_unlinked, linked_to};
ghost use Rattle.ids.specs.declared.limits.TheConstants.{GREATEST_GENERATION};

use ids::Generation;
use std::mem;

/// The generation of the first value of a slot.
pub const FIRST_GENERATION: Generation = 1;

/// What a slot of an arena holds.
#[derive(Debug, PartialEq, Eq, Drop)]
pub enum Slot<T> {
    /// No value; the next one will have this generation.
    Free(Generation),
    /// A value, and its generation.
    Occupied(Generation, T),
    /// No value, ever again.
    Retired,
}

/// A slot in memory: like [`Slot`], but a free one also names the free slot that is used after it.
#[derive(Drop)]
pub enum Entry<T> {
    Free(Generation, u32),
    Occupied(Generation, T),
    Retired,
}

/// What a free slot names until it is linked; no slot has this number.
pub const UNLINKED: u32 = 4_294_967_295;

impl<T> Entry<T> {
    ghost use Rattle.arena_slot.specs.contracts.Entry.{the_row};

    /// The value, if there is one and it has this generation.
    pub fn value(&self, generation: Generation) -> Option<&T>
        ensures { option_copied result ≡ value_of (slot_of self.now) generation }
    {
        match self {
            Entry::Occupied(own, value) => {
                if *own == generation {
                    Some(value)
                } else {
                    None
                }
            }
            _ => None,
        }
    }

    /// The value, whatever its generation, if there is one.
    pub fn held(&self) -> Option<&T>
        ensures { option_copied result ≡ value_in (slot_of self.now) }
    {
        match self {
            Entry::Occupied(_, value) => Some(value),
            _ => None,
        }
    }

    /// The generation of the value, if there is one.
    pub fn generation(&self) -> Option<Generation>
        ensures { result ≡ generation_in (slot_of self.now) }
    {
        match self {
            Entry::Occupied(generation, _) => Some(*generation),
            _ => None,
        }
    }

    /// The generation of the value, or of the next one if the slot is free.
    pub fn slot_generation(&self) -> Option<Generation>
        ensures { result ≡ slot_generation (slot_of self.now) }
    {
        match self {
            Entry::Free(generation, _) => Some(*generation),
            Entry::Occupied(generation, _) => Some(*generation),
            Entry::Retired => None,
        }
    }

    /// The slot, with its value borrowed.
    pub fn slot(&self) -> Slot<&T>
        ensures { slot_read result ≡ slot_of self.now }
    {
        match self {
            Entry::Free(generation, _) => Slot::Free(*generation),
            Entry::Occupied(generation, value) => Slot::Occupied(*generation, value),
            Entry::Retired => Slot::Retired,
        }
    }

    /// The free slot that is used after this one, which must be free.
    pub fn next(&self) -> u32
        requires { IsFree (slot_of self.now) }
        ensures { result ≡ next_of self.now }
    {
        match self {
            Entry::Free(_, next) => *next,
            _ => unreachable!(),
        }
    }

    /// The entry of a slot, which isn't linked yet.
    pub fn unlinked(slot: Slot<T>) -> Entry<T>
        ensures { result ≡ unlinked_of slot }
    {
        match slot {
            Slot::Free(generation) => Entry::Free(generation, UNLINKED),
            Slot::Occupied(generation, value) => Entry::Occupied(generation, value),
            Slot::Retired => Entry::Retired,
        }
    }

    /// Whether the slot is free and isn't linked yet.
    pub fn is_unlinked(&self) -> bool
        ensures { result ≡ is_unlinked self.now }
    {
        match self {
            Entry::Free(_, next) => *next == UNLINKED,
            _ => false,
        }
    }

    /// Makes this slot name the free slot that is used after it, if this one is free.
    pub fn link(&mut self, slot: u32)
        ensures { self.new ≡ linked_to self.old slot }
    {
        if let Entry::Free(_, next) = self {
            *next = slot;
        }
    }

    /// The value for writing. The slot must have one.
    pub fn value_mut(&mut self) -> &mut T
        requires { IsSome (held_by self.old) }
        ensures* writes_back { sem 𝓛
            (Lends (the_row T.row) T.row self.entry result (λ x. occupied_by self.old x)) }
        ensures value { self.old ≡ occupied_by self.old result.now }
    {
        match self {
            Entry::Occupied(_, value) => value,
            _ => unreachable!(),
        }
    }

    /// The value. The slot must have one.
    pub fn into_value(self) -> T
        requires { IsSome (held_by self) }
        ensures { held_by self ≡ Some result }
    {
        match self {
            Entry::Occupied(_, value) => value,
            _ => unreachable!(),
        }
    }

    /// Drops the value of a slot, which must have one, and not of the last generation. The slot is
    /// then free, under the next generation, and names the free slot that is used after it.
    pub fn free(&mut self, next: u32)
    where
        T: Drop,
        requires held { IsSome (held_by self.old) }
        requires more { generation_of (slot_of self.old) < GREATEST_GENERATION }
        ensures { self.new ≡ Entry.Free (generation_of (slot_of self.old) + 1) next }
    {
        let generation = match self {
            Entry::Occupied(generation, _) => *generation,
            _ => unreachable!(),
        };
        *self = Entry::Free(generation + 1, next);
    }

    /// Drops the value of a slot, if it has one. The slot is never used again.
    pub fn retire(&mut self)
    where
        T: Drop,
        ensures { self.new ≡ Entry.Retired }
    {
        *self = Entry::Retired;
    }

    /// Puts a value into a free slot, under the generation that the slot has for it. It returns
    /// that generation and the free slot that was named.
    pub fn occupy(&mut self, value: T) -> (Generation, u32)
        requires { IsFree (slot_of self.old) }
        ensures generation { result.0 ≡ generation_of (slot_of self.old) }
        ensures next { result.1 ≡ next_of self.old }
        ensures done { self.new ≡ Entry.Occupied (generation_of (slot_of self.old)) value }
    {
        let (generation, next) = match self {
            Entry::Free(generation, next) => (*generation, *next),
            _ => unreachable!(),
        };
        match mem::replace(self, Entry::Occupied(generation, value)) {
            Entry::Free(_, _) => {}
            _ => unreachable!(),
        }
        (generation, next)
    }
}
