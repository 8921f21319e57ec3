//! A row of items of fixed capacity, in one block, which never moves. It is filled at its end. It
//! is emptied only when it is dropped or moves its items into a larger block.
ghost use Rattle.std.specs.Prelude.{◌≡◌, ◌+◌, ◌<◌, ◌≤◌, ◌++◌, ◌∷◌, [], length};
ghost use Rattle.std.specs.Prelude.{slice_index_or, nat_le, IfOk, OnOk, OnErr};
ghost use Rattle.std.specs.Borrow.{sem};
ghost use Rattle.arena.specs.Row.{row};

use crate::block::{Block, Title, release, reserve};
use std::alloc::{AllocError, Global};
use std::marker::Model;
use std::mem;
use std_alloc::room::may_hold;

/// A row with at most `capacity` items, numbered from 0 in the order in which they were added. When
/// it is dropped, the items that it still has are dropped and its block is deallocated.
pub(crate) struct Chunk<T> {
    block: Block<T>,
    title: Title<T, Global>,
    len: usize,
    capacity: usize,
    alloc: Global,
}

impl<T> Model for Chunk<T> {
    ghost use Rattle.arena.specs.Row.{Row, row};

    ghost Value = { Row T };

    ghost use Rattle.arena.specs.Laid.{IsLaid};

    ghost view = { λ c. row c.block.values c.capacity };

    ghost invariant = { λ c. IsLaid c.block c.title c.len c.capacity c.alloc };
}

impl<T> Chunk<T> {
    ghost use Rattle.arena.specs.LendsItem.{lends_chunk_item};

    /// Makes a chunk without items.
    pub(crate) fn with_capacity(alloc: Global, capacity: usize) -> Result<Self, AllocError>
        ensures { IfOk result (λ c. c ≡ row [] capacity) }
    {
        if !may_hold::<T>(capacity) {
            return Err(AllocError);
        }
        let (block, title) = reserve(&alloc, capacity)?;
        Ok(Chunk {
            block,
            title,
            len: 0,
            capacity,
            alloc,
        })
    }

    /// Whether there is no room for another item.
    pub(crate) fn is_full(&self) -> bool
        ensures value { result ≡ nat_le self.now.capacity (length self.now.items) }
        ensures sound { length self.now.items ≤ self.now.capacity }
    {
        self.len >= self.capacity
    }

    /// The item with this number.
    pub(crate) fn get(&self, index: usize) -> &T
        requires { index < length self.now.items }
        ensures { result.now ≡ slice_index_or self.now.items index result.now }
    {
        self.block.get(index)
    }

    /// The item with this number, for writing.
    pub(crate) fn get_mut(&mut self, index: usize) -> &mut T
        requires { index < length self.old.items }
        ensures* writes_back { sem 𝓛 (lends_chunk_item T.row self.entry index result) }
        ensures value { result.now ≡ slice_index_or self.old.items index result.now }
    {
        self.block.get_mut(index)
    }

    /// Adds an item at the end.
    pub(crate) fn push(&mut self, item: T)
        requires { length self.old.items < self.old.capacity }
        ensures { self.new ≡ row (self.old.items ++ item ∷ []) self.old.capacity }
    {
        self.block.fill(self.len, item);
        self.len += 1;
    }

    /// Moves all items into a larger block. If there is no memory for it, nothing happens.
    pub(crate) fn grow(&mut self) -> Result<(), AllocError>
        ensures items { self.new.items ≡ self.old.items }
        ensures larger { OnOk result (self.old.capacity < self.new.capacity) }
        ensures unchanged { OnErr result (self.new ≡ self.old) }
    {
        let larger = Chunk::with_capacity(self.alloc, self.capacity.max(2) * 2)?;
        let before = mem::replace(self, larger);
        before.move_into(self);
        Ok(())
    }

    // Moves all items behind those of another chunk, and deallocates the block.
    fn move_into(self, other: &mut Chunk<T>)
        requires { length other.old.items + length self.items ≤ other.old.capacity }
        ensures { other.new ≡ row (other.old.items ++ self.items) other.old.capacity }
    {
        let Chunk {
            mut block,
            title,
            len,
            capacity: places,
            alloc,
        } = self;
        for index in 0..len {
            other.push(block.take(index));
        }
        release(&alloc, places, block, title);
    }
}

impl<T: Drop> Drop for Chunk<T> {
    fn drop(self) {
        let Chunk {
            mut block,
            title,
            len,
            capacity,
            alloc,
        } = self;
        for place in 0..len {
            drop(block.take(place));
        }
        release(&alloc, capacity, block, title);
    }
}
