//! The heap as a search goes through it. If only young objects are within the scope of a Reclaim,
//! its search passes over old ones, and all remembered ones count as shared.
ghost use Rattle.std.specs.Prelude.{◌≡◌, ℕ, ◌<◌, ◌≤◌, true, false, is_some};
ghost use Rattle.model.specs.declared.age.Scope.TheVariants.{Young};
ghost use Rattle.model.specs.State.{slot_at};
ghost use Rattle.model.specs.Heaps.{object_at};
ghost use Rattle.model.specs.Collecting.{places_in};
ghost use Rattle.model.specs.Reclaiming.{is_occupied, is_shared};
ghost use Rattle.model.specs.Searching.{sought, is_sought};

use super::Heap;
use ids::Ref;
use model::Scope;

impl Heap {
    // The first slot from `slot` on whose block may have a shared object, as the search sees it, or
    // `end`.
    #[inline(always)]
    pub(super) fn next_shared(&self, scope: Scope, slot: u32, end: u32) -> u32
        requires { slot ≤ end }
        ensures bounds { (slot ≤ result) × (result ≤ end) }
        ensures skips { (k : ℕ) → slot ≤ k → k < result
            → is_shared (slot_at (sought scope self.now.heap) k) ≡ false }
    {
        match scope {
            Scope::All => self.shared.next(slot, end),
            Scope::Young => self.recent.next(slot, end),
        }
    }

    // Whether there is a shared object in the slot, as the search sees it.
    #[inline(always)]
    pub(super) fn is_sought_shared(&self, scope: Scope, slot: u32) -> bool
        ensures { result ≡ is_shared (slot_at (sought scope self.now.heap) slot) }
    {
        match scope {
            Scope::All => self.is_shared(slot),
            Scope::Young => self.is_known(slot),
        }
    }

    /// The first slot from `slot` on whose block may have an object that a search of this scope
    /// goes through, or `end`.
    #[inline(always)]
    pub fn next_sought(&self, scope: Scope, slot: u32, end: u32) -> u32
        requires { slot ≤ end }
        ensures bounds { (slot ≤ result) × (result ≤ end) }
        ensures skips { (k : ℕ) → slot ≤ k → k < result
            → is_sought scope (slot_at self.now.heap k) ≡ false }
    {
        match scope {
            Scope::All => slot,
            Scope::Young => self.recent.next(slot, end),
        }
    }

    // Whether the search goes through the object in the slot, if there is one.
    #[inline(always)]
    pub(super) fn is_sought(&self, scope: Scope, slot: u32) -> bool
        ensures through { result ≡ true → is_sought scope (slot_at self.now.heap slot)
            ≡ is_occupied (slot_at self.now.heap slot) }
        ensures over { result ≡ false → is_sought scope (slot_at self.now.heap slot) ≡ false }
    {
        match scope {
            Scope::All => true,
            Scope::Young => self.is_recent(slot),
        }
    }

    // Whether the reference names an object of this heap that the search goes through. Its node
    // isn't checked.
    #[inline(always)]
    pub(super) fn is_sought_live(&self, scope: Scope, reference: Ref) -> bool
        ensures { result ≡ is_some (object_at (sought scope self.now.heap) reference) }
    {
        match scope {
            Scope::All => self.is_live(reference),
            Scope::Young => self.is_recent_live(reference),
        }
    }

    // What the places of the object in a slot hold, if the search goes through it.
    #[inline(always)]
    pub(super) fn places_sought(&self, scope: Scope, slot: u32) -> &[Option<Ref>]
        ensures { result.now ≡ places_in (slot_at (sought scope self.now.heap) slot) }
    {
        match scope {
            Scope::All => self.places(slot),
            Scope::Young => self.recent_places(slot),
        }
    }

    // Whether there is an object in the slot that isn't old, but shared or remembered.
    #[inline(always)]
    fn is_known(&self, slot: u32) -> bool
        ensures { result ≡ is_shared (slot_at (sought Young self.now.heap) slot) }
    {
        match self.stored(slot) {
            Some(object) => !object.is_old() && (object.is_shared() || !object.is_young()),
            None => false,
        }
    }

    // Whether the reference names an object of this heap that isn't old. The object isn't read if
    // its block has none of these.
    #[inline(always)]
    fn is_recent_live(&self, reference: Ref) -> bool
        ensures { result ≡ is_some (object_at (sought Young self.now.heap) reference) }
    {
        self.recent.has(reference.slot) && self.is_recent_at(reference)
    }

    #[inline(always)]
    fn is_recent_at(&self, reference: Ref) -> bool
        ensures { result ≡ is_some (object_at (sought Young self.now.heap) reference) }
    {
        match self.object(reference) {
            Some(object) => !object.is_old(),
            None => false,
        }
    }

    // What the places of the object in a slot hold, if it isn't old.
    #[inline(always)]
    fn recent_places(&self, slot: u32) -> &[Option<Ref>]
        ensures { result.now ≡ places_in (slot_at (sought Young self.now.heap) slot) }
    {
        match self.stored(slot) {
            Some(object) if !object.is_old() => object.contents(),
            _ => &[],
        }
    }
}
