//! The chunks of a row, in a block of their own, which grows with them. Then only the pointers to
//! the chunks move, never a value.
ghost use Rattle.std.specs.Prelude.{◌≡◌, ◌<◌, ◌++◌, ◌∷◌, [], length};
ghost use Rattle.std.specs.Prelude.{OnOk, OnErr, IfErr};
ghost use Rattle.std.specs.Borrow.{sem};
ghost use Rattle.arena.specs.Row.{row};
ghost use Rattle.arena.specs.declared.root.Root.TheVariants.{Present};
ghost use Rattle.arena.specs.declared.root.TheConstants.{CHUNK};
ghost use Rattle.arena.specs.Chunked.{IsPresent, HasRoom, chunks_of};
ghost use Rattle.arena.specs.LendsChunks.{lends_chunks};

use crate::chunk::Chunk;
use std::alloc::{AllocError, Global};
use std::mem;

/// How many items a chunk has room for.
pub(crate) const CHUNK: usize = 1_024;

/// How many chunks the first block has room for.
pub(crate) const FIRST_ROOT: usize = 4;

/// The chunks, once there was one.
#[derive(Drop)]
pub(crate) enum Root<E> {
    Absent,
    Present(Chunk<Chunk<E>>),
}

impl<E> Root<E> {
    /// The chunks.
    pub(crate) fn chunks(&self) -> &Chunk<Chunk<E>>
        requires { IsPresent self.now }
        ensures { self.now ≡ Present result.now }
    {
        match self {
            Root::Present(chunks) => chunks,
            _ => unreachable!(),
        }
    }

    /// The chunks, for writing.
    pub(crate) fn chunks_mut(&mut self) -> &mut Chunk<Chunk<E>>
        requires { IsPresent self.old }
        ensures* writes_back { sem 𝓛 (lends_chunks E.row self.entry result) }
        ensures value { self.old ≡ Present result.now }
    {
        match self {
            Root::Present(chunks) => chunks,
            _ => unreachable!(),
        }
    }

    /// Makes room for another chunk.
    pub(crate) fn make_room(&mut self, alloc: Global) -> Result<(), AllocError>
        ensures done { OnOk result (HasRoom self.new (chunks_of self.old)) }
        ensures unchanged { OnErr result (self.new ≡ self.old) }
    {
        if let Root::Present(chunks) = self {
            if chunks.is_full() {
                chunks.grow()?;
            }
            return Ok(());
        }
        let chunks = Chunk::with_capacity(alloc, FIRST_ROOT)?;
        match mem::replace(self, Root::Present(chunks)) {
            Root::Absent => Ok(()),
            _ => unreachable!(),
        }
    }
}

/// Adds a chunk with this item. If there is no memory for it, the item is returned, and the chunks
/// are as they were.
pub(crate) fn add_chunk<E>(chunks: &mut Chunk<Chunk<E>>, alloc: Global, item: E) -> Result<(), E>
    requires { length chunks.old.items < chunks.old.capacity }
    ensures done { OnOk result (chunks.new
        ≡ row (chunks.old.items ++ row (item ∷ []) CHUNK ∷ []) chunks.old.capacity) }
    ensures back { IfErr result (λ e. e ≡ item) }
    ensures unchanged { OnErr result (chunks.new ≡ chunks.old) }
{
    match Chunk::with_capacity(alloc, CHUNK) {
        Ok(mut chunk) => {
            chunk.push(item);
            chunks.push(chunk);
            Ok(())
        }
        Err(_) => Err(item),
    }
}
