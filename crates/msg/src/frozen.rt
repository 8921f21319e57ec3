//! Values that no longer change. Copies share them, so a copy of a message takes no memory.
ghost use Rattle.std.specs.Prelude.{◌≡◌, [], List, length, IfOk, Option};
ghost use Rattle.msg.specs.Frozen.{frozen};

use std::alloc::{AllocError, Global};
use std::marker::Model;
use std::sync::ArcSlice;

/// A list of values that no longer change, shared by its copies. An empty one allocates nothing.
pub struct Frozen<T> {
    items: Option<ArcSlice<T, Global>>,
}

// Written out, since most lists are empty: only a test for that is inlined.
impl<T: Drop> Drop for Frozen<T> {
    #[inline(always)]
    fn drop(self) {
        let Frozen { items } = self;
        match items {
            Some(items) => release(items),
            None => {}
        }
    }
}

#[cold]
#[inline(never)]
fn release<T: Drop>(_items: ArcSlice<T, Global>) {}

impl<T> Model for Frozen<T> {
    ghost Value = { List T };

    ghost view = { λ f. frozen f.items };
}

impl<T: Copy> Frozen<T> {
    /// No values.
    pub fn empty() -> Frozen<T>
        ensures { result ≡ [] }
    {
        Frozen { items: None }
    }

    /// These values. It fails if an allocation fails.
    pub fn new(alloc: Global, items: &[T]) -> Result<Frozen<T>, AllocError>
        ensures { IfOk result (λ f. f ≡ items.now) }
    {
        if items.is_empty() {
            return Ok(Frozen { items: None });
        }
        let items = ArcSlice::from_slice(alloc, items)?;
        Ok(Frozen { items: Some(items) })
    }

    /// The same values once more, in the same memory. It fails if they are shared by as many
    /// copies as a `usize` can count.
    pub fn share(&self) -> Result<Frozen<T>, AllocError>
        ensures { IfOk result (λ f. f ≡ self.now) }
    {
        match &self.items {
            None => Ok(Frozen { items: None }),
            Some(items) => {
                let items = items.clone()?;
                Ok(Frozen { items: Some(items) })
            }
        }
    }

    /// The values.
    pub fn as_slice(&self) -> &[T]
        ensures { result.now ≡ self.now }
    {
        match &self.items {
            None => &[],
            Some(items) => items.as_slice(),
        }
    }

    /// How many there are.
    pub fn len(&self) -> usize
        ensures { result ≡ length self.now }
    {
        self.as_slice().len()
    }
}
