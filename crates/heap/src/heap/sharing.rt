//! Shared and private objects. Other nodes may know an object that is shared, and never one that is
//! private. An object becomes shared when its reference is sent, and stays so.
ghost use Rattle.std.specs.Prelude.{◌≡◌, option_to_list};
ghost use Rattle.std.specs.List.{list_any};
ghost use Rattle.model.specs.State.{slot_at};
ghost use Rattle.model.specs.Heaps.{share_all, sharing, with_rewritten};
ghost use Rattle.model.specs.Reclaiming.{is_private, is_shared};
ghost use Rattle.model.specs.Shading.{filled};

use super::Heap;
use super::objects::key;
use ids::Ref;

impl Heap {
    /// The object of the reference becomes shared, if there is a reference, and it names an object
    /// of this node that is there. Otherwise nothing changes. `own` is the node's number. It
    /// allocates nothing.
    pub fn share(&mut self, own: u8, reference: Option<Ref>)
        ensures { self.new ≡ record self.old {
          heap = share_all own self.old.heap (option_to_list reference);
        } }
    {
        if let Some(reference) = reference {
            if reference.node == own {
                self.share_one(reference);
            }
        }
    }

    /// The same for each of these references.
    #[inline(never)]
    pub fn share_each(&mut self, own: u8, references: &[Option<Ref>])
        ensures { self.new ≡ record self.old {
          heap = share_all own self.old.heap (filled references.now);
        } }
    {
        for reference in references {
            self.share(own, *reference);
        }
    }

    /// Whether an object is private. The slots are read up to the first such object.
    pub fn has_private(&self) -> bool
        ensures { result ≡ list_any is_private self.now.heap.slots }
    {
        for slot in 0..self.slots() {
            if self.is_private(slot) {
                return true;
            }
        }
        false
    }

    // The object of a reference to this heap's node becomes shared, if it is there.
    fn share_one(&mut self, object: Ref)
        ensures { self.new ≡ record self.old {
          heap = with_rewritten self.old.heap object sharing;
        } }
    {
        match self.objects.get_mut(key(object)) {
            Some(stored) => {
                if !stored.is_shared() {
                    stored.share();
                    self.shared.note(object.slot);
                }
            }
            None => {}
        }
    }

    // Whether there is a private object in the slot.
    fn is_private(&self, slot: u32) -> bool
        ensures { result ≡ is_private (slot_at self.now.heap slot) }
    {
        match self.stored(slot) {
            Some(object) => !object.is_shared(),
            None => false,
        }
    }

    // Whether there is a shared object in the slot.
    pub(super) fn is_shared(&self, slot: u32) -> bool
        ensures { result ≡ is_shared (slot_at self.now.heap slot) }
    {
        match self.stored(slot) {
            Some(object) => object.is_shared(),
            None => false,
        }
    }
}
