//! Raw memory: a block of places for values of one type, filled from the first place on and emptied
//! from the first place on. No other file of the crate follows a pointer.
ghost use Rattle.std.specs.Prelude.{◌≡◌, ℕ, ◌+◌, ◌<◌, ◌++◌, ◌∷◌, [], List, length};
ghost use Rattle.std.specs.Prelude.{slice_index_or, IfOk};
ghost use Rattle.std.specs.Borrow.{sem};
ghost use Rattle.std.specs.Vec.Ownership.{FitsInBlock};
ghost use base.Fml.{ftrue};
ghost use denote.RawPtr.{Ptr};
ghost use Rattle.arena.specs.Block.{block_owns, block_lent, title_owns};

use std::alloc::{AllocError, Allocator};
use std::marker::{Model, PhantomData, Send, Sync};
use std::mem::{align_of, size_of};

/// A block, with the values in it. It can't be dropped: only [`release`] consumes it.
pub(crate) struct Block<T> {
    start: *mut T,
    // The number of emptied places, the values in the places after them, and the number of places
    // behind those that were never filled.
    ghost emptied: { ℕ },
    ghost values: { List T },
    ghost unused: { ℕ },
}

impl<T> Model for Block<T> {
    ghost also_owns = { λ b. block_owns T.row b.start b.emptied b.values b.unused };

    ghost also_shares = { λ b _ κ. block_lent T.row b.start b.emptied b.values b.unused κ };
}

unsafe impl<T: Send> Send for Block<T> {}

unsafe impl<T: Sync> Sync for Block<T> {}

/// The right to deallocate a block. It has no bytes, and can't be dropped either.
pub(crate) struct Title<T, A: Allocator> {
    mark: PhantomData<*const (T, A)>,
    ghost start: { Ptr },
    ghost places: { ℕ },
    ghost owner: { A },
}

impl<T, A: Allocator> Model for Title<T, A> {
    ghost also_owns = { λ t. title_owns T.row (A.dealloc_token t.owner) t.start t.places };

    ghost also_shares = { λ _ _ _. ftrue };
}

unsafe impl<T, A: Allocator + Send> Send for Title<T, A> {}

// Nothing can be done with a `&` to it.
unsafe impl<T, A: Allocator> Sync for Title<T, A> {}

/// Allocates a new block, and returns it with the right to deallocate it.
pub(crate) fn reserve<T, A: Allocator>(
    alloc: &A,
    places: usize,
) -> Result<(Block<T>, Title<T, A>), AllocError>
    requires { FitsInBlock T.row places }
    ensures { IfOk result (λ r. (r.0.emptied ≡ 0) × (r.0.values ≡ []) × (r.0.unused ≡ places)
        × (r.1.start ≡ r.0.start) × (r.1.places ≡ places) × (r.1.owner ≡ alloc.now)) }
{
    match alloc.allocate(places * size_of::<T>(), align_of::<T>()) {
        Ok(bytes) => {
            let block = Block {
                start: bytes as *mut T,
            };
            Ok((block, Title { mark: PhantomData }))
        }
        Err(refused) => Err(refused),
    }
}

/// Deallocates a block that holds no value.
pub(crate) fn release<T, A: Allocator>(
    alloc: &A,
    places: usize,
    block: Block<T>,
    title: Title<T, A>,
)
    requires { (block.values ≡ []) × (block.emptied + block.unused ≡ places)
        × (title.start ≡ block.start) × (title.places ≡ places) × (title.owner ≡ alloc.now) }
{
    let Block { start } = block;
    let Title { mark: _ } = title;
    unsafe {
        alloc.deallocate(start as *mut u8, places * size_of::<T>(), align_of::<T>());
    }
}

impl<T> Block<T> {
    ghost use Rattle.arena.specs.LendsPlace.{lends_place};

    /// Puts a value into the first place that was never filled.
    pub(crate) fn fill(&mut self, count: usize, value: T)
        requires { (self.old.emptied ≡ 0) × (count ≡ length self.old.values)
            × (0 < self.old.unused) }
        ensures { (self.new.start ≡ self.old.start) × (self.new.emptied ≡ 0)
            × (self.new.values ≡ self.old.values ++ value ∷ [])
            × (self.new.unused + 1 ≡ self.old.unused) }
    {
        unsafe { self.start.add(count).write(value) }
    }

    /// Takes the first value out. Its place stays empty.
    pub(crate) fn take(&mut self, index: usize) -> T
        requires { (index ≡ self.old.emptied) × (0 < length self.old.values) }
        ensures { (self.old.values ≡ result ∷ self.new.values)
            × (self.new.start ≡ self.old.start) × (self.new.emptied ≡ self.old.emptied + 1)
            × (self.new.unused ≡ self.old.unused) }
    {
        unsafe { self.start.add(index).read() }
    }

    /// The value in a place, while no place was emptied.
    pub(crate) fn get(&self, index: usize) -> &T
        requires { (self.now.emptied ≡ 0) × (index < length self.now.values) }
        ensures { result.now ≡ slice_index_or self.now.values index result.now }
    {
        unsafe { &*self.start.add(index) }
    }

    /// The value in a place for writing, while no place was emptied.
    pub(crate) fn get_mut(&mut self, index: usize) -> &mut T
        requires { (self.old.emptied ≡ 0) × (index < length self.old.values) }
        ensures* writes_back { sem 𝓛 (lends_place T.row self.entry index result) }
        ensures value { result.now ≡ slice_index_or self.old.values index result.now }
    {
        unsafe { &mut *self.start.add(index) }
    }
}
