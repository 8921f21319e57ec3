//! References in the order in which they were added, each once.
ghost use Rattle.std.specs.Prelude.{◌≡◌, ◌-◌, false, [], ◌∷◌, ◌++◌, cond, not, length, take, IfOk, OnErr};
ghost use Rattle.model.specs.Shading.{is_in};

use ids::Ref;
use std::alloc::{AllocError, Global};
use std::collections::BTreeSet;
use std::marker::Model;

/// A set of references that keeps the order in which they were added. A B-tree beside the list
/// answers whether a reference is in the set. So a look-up takes time logarithmic in their number,
/// whatever the references are.
#[derive(Drop)]
pub struct RefSet {
    order: Vec<Ref>,
    sorted: BTreeSet<Ref>,
}

impl Model for RefSet {
    ghost use Rattle.remote_marks.specs.RefSet.{RefSetView, IsIndexed};

    ghost Value = { RefSetView };

    ghost view = { λ s. record { keys = s.order.items } };

    ghost invariant = { λ s. IsIndexed s.sorted.keys s.order.items };
}

impl RefSet {
    /// Makes the empty set.
    pub fn new(alloc: Global) -> RefSet
        ensures empty { result.keys ≡ [] }
    {
        RefSet {
            order: Vec::new(alloc),
            sorted: BTreeSet::new(alloc),
        }
    }

    /// The allocator that its memory comes from.
    pub fn allocator(&self) -> Global {
        *self.order.allocator()
    }

    /// The number of references.
    pub fn len(&self) -> usize
        ensures len { result ≡ length self.now.keys }
    {
        self.order.len()
    }

    /// All of them, the oldest first.
    pub fn as_slice(&self) -> &[Ref]
        ensures keys { result.now ≡ self.now.keys }
    {
        self.order.as_slice()
    }

    /// Adds the reference as the last one unless it is there, and returns whether it was added. The
    /// allocation can fail only if the reference wasn't there, and then everything is as it was.
    pub fn insert(&mut self, reference: Ref) -> Result<bool, AllocError>
        ensures added { IfOk result (λ added. added ≡ not (is_in reference self.old.keys)) }
        ensures keys { IfOk result (λ added. self.new.keys
            ≡ cond added (self.old.keys ++ reference ∷ []) self.old.keys) }
        ensures unchanged { OnErr result (self.new.keys ≡ self.old.keys) }
        ensures absent { OnErr result (is_in reference self.old.keys ≡ false) }
    {
        if !self.sorted.insert(reference)? {
            return Ok(false);
        }
        if self.order.push(reference).is_err() {
            self.sorted.remove(&reference);
            return Err(AllocError);
        }
        Ok(true)
    }

    // Removes the newest reference, if there is one. It needs no memory.
    fn pop(&mut self)
        ensures { self.new.keys ≡ take (length self.old.keys - 1) self.old.keys }
    {
        if let Some(reference) = self.order.pop() {
            self.sorted.remove(&reference);
        }
    }

    /// Removes the newest references until at most `len` are left. It needs no memory.
    pub fn truncate(&mut self, len: usize)
        ensures { self.new.keys ≡ take len self.old.keys }
    {
        while self.len() > len {
            self.pop();
        }
    }
}
