//! Ages: what a Reclaim has left is old, and what was made since then is recent. A recent object is
//! young until an old object may name it; then it is remembered.
ghost use Rattle.std.specs.Prelude.{◌≡◌, ℕ, cond, false};
ghost use Rattle.model.specs.State.{slot_at};
ghost use Rattle.model.specs.Heaps.{object_at, is_old_object, remember, remembering, with_rewritten};
ghost use Rattle.model.specs.Reclaiming.{is_recent};
ghost use Rattle.heap.specs.Heap.{aged_at};

use super::Heap;
use super::objects::key;
use ids::Ref;

impl Heap {
    // A place of this object is written, which then names this value. If the object is old, the
    // node's own object that the value names is remembered.
    #[inline(always)]
    pub(super) fn note_write(&mut self, own: u8, object: Ref, value: Option<Ref>)
        ensures { let h = self.old.heap in self.new ≡ record self.old {
          heap = cond (is_old_object (object_at h object)) (remember own h value) h;
        } }
    {
        if !self.recent.is_empty() && self.is_old(object) {
            self.remember(own, value);
        }
    }

    // Whether there is an object in the slot that isn't old.
    pub(super) fn is_recent(&self, slot: u32) -> bool
        ensures { result ≡ is_recent (slot_at self.now.heap slot) }
    {
        match self.stored(slot) {
            Some(object) => !object.is_old(),
            None => false,
        }
    }

    // The object in a slot becomes old, if there is one. It isn't read if its block has no recent
    // object.
    #[inline(always)]
    pub(super) fn grow_old(&mut self, slot: u32)
        ensures { self.new ≡ record self.old { heap = aged_at self.old.heap slot } }
    {
        if self.recent.has(slot) {
            self.grow_old_in(slot);
        }
    }

    // The object in a slot becomes old, if there is one.
    #[inline(always)]
    fn grow_old_in(&mut self, slot: u32)
        ensures { self.new ≡ record self.old { heap = aged_at self.old.heap slot } }
    {
        if let Some(key) = self.objects.key_at(slot) {
            if let Some(object) = self.objects.get_mut(key) {
                object.grow_old();
            }
        }
    }

    // No object is recent any more.
    pub(super) fn forget_recent(&mut self)
        requires { (k : ℕ) → is_recent (slot_at self.old.heap k) ≡ false }
        ensures { self.new ≡ self.old }
    {
        self.recent.clear(*self.registers.allocator());
    }

    // Whether an object of this heap is there, and old.
    fn is_old(&self, object: Ref) -> bool
        ensures { result ≡ is_old_object (object_at self.now.heap object) }
    {
        match self.object(object) {
            Some(object) => object.is_old(),
            None => false,
        }
    }

    // The node's own object that the reference names is remembered, if it was young.
    #[inline(never)]
    fn remember(&mut self, own: u8, reference: Option<Ref>)
        ensures { self.new ≡ record self.old { heap = remember own self.old.heap reference } }
    {
        if let Some(reference) = reference {
            if reference.node == own {
                self.remember_one(reference);
            }
        }
    }

    // The object of a reference to this heap's node is remembered, if it was young.
    fn remember_one(&mut self, object: Ref)
        ensures { self.new ≡ record self.old {
          heap = with_rewritten self.old.heap object remembering;
        } }
    {
        match self.objects.get_mut(key(object)) {
            Some(object) => object.remember(),
            None => {}
        }
    }
}
