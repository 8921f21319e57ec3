//! A row of items that grows at its end, in chunks that never move. No other file of the crate
//! knows how the items are laid out in memory.
ghost use Rattle.std.specs.Prelude.{◌≡◌, ◌<◌, ◌%◌, ◌++◌, ◌∷◌, [], length, slice_index_or};
ghost use Rattle.std.specs.Prelude.{OnOk, OnErr, IfErr};
ghost use Rattle.std.specs.Borrow.{sem};
ghost use Rattle.arena.specs.Row.{row};
ghost use Rattle.arena.specs.declared.root.TheConstants.{CHUNK};

use crate::root::{CHUNK, Root, add_chunk};
use std::alloc::Global;
use std::marker::Model;

/// A row with at most `capacity` items, numbered from 0 in the order in which they were added.
/// Every chunk except the last is full, and none is empty. Growing allocates one chunk, and now and
/// then a root of twice the size, into which the pointers to the chunks are moved, but no item.
#[derive(Drop)]
pub(crate) struct Store<E> {
    root: Root<E>,
    len: usize,
    capacity: usize,
    alloc: Global,
}

impl<E> Model for Store<E> {
    ghost use Rattle.arena.specs.Row.{Row, row};

    ghost Value = { Row E };

    ghost use Rattle.arena.specs.Chunked.{IsPacked, flat, chunks_of};
    ghost use Rattle.std.specs.Prelude.{length, ◌≡◌};

    ghost view = { λ s. row (flat (chunks_of s.root)) s.capacity };

    ghost invariant = { λ s. (s.len ≡ length (flat (chunks_of s.root)))
        × IsPacked (chunks_of s.root) };
}

impl<E> Store<E> {
    ghost use Rattle.arena.specs.LendsItem.{lends_item};

    /// Makes a store without items, which allocates nothing yet.
    pub(crate) fn new(alloc: Global, capacity: usize) -> Self
        ensures { result ≡ row [] capacity }
    {
        Store {
            root: Root::Absent,
            len: 0,
            capacity,
            alloc,
        }
    }

    /// The store with room for `capacity` items.
    pub(crate) fn limited(self, capacity: usize) -> Self
        ensures { result ≡ row self.items capacity }
    {
        let mut store = self;
        store.capacity = capacity;
        store
    }

    /// How many items there may be.
    pub(crate) fn capacity(&self) -> usize
        ensures { result ≡ self.now.capacity }
    {
        self.capacity
    }

    /// The number of items.
    pub(crate) fn len(&self) -> usize
        ensures { result ≡ length self.now.items }
    {
        self.len
    }

    /// The item with this number.
    pub(crate) fn get(&self, index: usize) -> &E
        requires { index < length self.now.items }
        ensures { result.now ≡ slice_index_or self.now.items index result.now }
    {
        let chunks = self.root.chunks();
        let chunk = chunks.get(index / CHUNK);
        chunk.get(index % CHUNK)
    }

    /// The item with this number, for writing.
    pub(crate) fn get_mut(&mut self, index: usize) -> &mut E
        requires { index < length self.old.items }
        ensures* writes_back { sem 𝓛 (lends_item E.row self.entry index result) }
        ensures value { result.now ≡ slice_index_or self.old.items index result.now }
    {
        let chunks = self.root.chunks_mut();
        let chunk = chunks.get_mut(index / CHUNK);
        chunk.get_mut(index % CHUNK)
    }

    /// Adds an item at the end. If there is no memory for it, it is returned, and the store is as
    /// it was.
    pub(crate) fn push(&mut self, item: E) -> Result<(), E>
        requires { length self.old.items < self.old.capacity }
        ensures done { OnOk result
            (self.new ≡ row (self.old.items ++ item ∷ []) self.old.capacity) }
        ensures back { IfErr result (λ e. e ≡ item) }
        ensures unchanged { OnErr result (self.new ≡ self.old) }
    {
        if self.len % CHUNK == 0 {
            return self.push_chunk(item);
        }
        let chunks = self.root.chunks_mut();
        let chunk = chunks.get_mut(self.len / CHUNK);
        chunk.push(item);
        self.len += 1;
        Ok(())
    }

    // Adds an item at the end when all chunks are full, so into a new chunk.
    #[cold]
    fn push_chunk(&mut self, item: E) -> Result<(), E>
        requires { length self.old.items % CHUNK ≡ 0 }
        ensures done { OnOk result
            (self.new ≡ row (self.old.items ++ item ∷ []) self.old.capacity) }
        ensures back { IfErr result (λ e. e ≡ item) }
        ensures unchanged { OnErr result (self.new ≡ self.old) }
    {
        if self.root.make_room(self.alloc).is_err() {
            return Err(item);
        }
        add_chunk(self.root.chunks_mut(), self.alloc, item)?;
        self.len += 1;
        Ok(())
    }
}
