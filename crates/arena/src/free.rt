//! The list of the free slots, read in order. It is threaded through the slots, so it is followed
//! rather than searched.
ghost use Rattle.std.specs.Prelude.{◌≡◌, ℕ};
ghost use Rattle.arena.specs.Arena.{Has};
ghost use Rattle.arena_slot.specs.Slot.{IsFree};
ghost use Rattle.arena.specs.Entry.{chain};
ghost use Rattle.arena_slot.specs.Entry.{slot_of};
ghost use Rattle.arena.specs.Made.{entry_at};

use crate::store::Store;
use arena_slot::Entry;
use std::marker::Model;

/// An iterator over the free slots of an [`Arena`](crate::Arena), in order of next use.
#[derive(Drop)]
pub struct FreeSlots<'a, T> {
    entries: &'a Store<Entry<T>>,
    next: u32,
    left: u32,
}

impl<'a, T> Model for FreeSlots<'a, T> {
    ghost use Rattle.std.specs.Prelude.{ℕ, List};
    ghost use Rattle.arena.specs.Arena.{Has};
    ghost use Rattle.arena_slot.specs.Slot.{IsFree};
    ghost use Rattle.arena.specs.Entry.{chain};
    ghost use Rattle.arena_slot.specs.Entry.{slot_of};
    ghost use Rattle.arena.specs.Made.{entry_at};

    ghost Value = { List ℕ };

    ghost view = { λ s. chain s.entries.now.items s.left s.next };

    ghost invariant = { λ s. (i : ℕ) → Has (chain s.entries.now.items s.left s.next) i
        → IsFree (slot_of (entry_at s.entries.now.items i)) };
}

impl<'a, T> FreeSlots<'a, T> {
    /// The linked free slots, `left` of them, from this one on.
    pub(crate) fn new(entries: &'a Store<Entry<T>>, next: u32, left: u32) -> Self
        requires { (i : ℕ) → Has (chain entries.now.items left next) i
            → IsFree (slot_of (entry_at entries.now.items i)) }
        ensures { result ≡ chain entries.now.items left next }
    {
        FreeSlots {
            entries,
            next,
            left,
        }
    }
}

impl<'a, T> Iterator for FreeSlots<'a, T> {
    ghost use Rattle.std.specs.Iterator.{YieldsFirst, item_count};

    type Item = u32;

    ghost next_gives = { YieldsFirst (λ s. s) };

    ghost remaining = { item_count (λ s. s) };

    fn next(&mut self) -> Option<u32> {
        if self.left == 0 {
            return None;
        }
        let slot = self.next;
        self.next = self.entries.get(slot as usize).next();
        self.left -= 1;
        Some(slot)
    }
}
