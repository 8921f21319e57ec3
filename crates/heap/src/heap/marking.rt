//! Marking: the room that it needs, shading, the roots, and the grey objects. Making room can fail
//! and comes first; after that, marking can't fail.
ghost use Rattle.std.specs.Prelude.{◌≡◌, ℕ, ◌+◌, ◌^◌, ◌<◌, ◌≤◌, ◌↔◌, length, slice_index_or};
ghost use Rattle.std.specs.Prelude.{None, false, is_none, option_to_list, IsOk, IsSome, IsTrue};
ghost use Rattle.std.specs.Prelude.{IfSome, IfErr, OnOk};
ghost use Rattle.std.specs.List.{list_any};
ghost use Rattle.ids.specs.declared.limits.TheConstants.{GREATEST_PLACES};
ghost use Rattle.ids.specs.declared.refusal.Refusal.TheVariants.{Memory};
ghost use Rattle.model.specs.State.{slot_at};
ghost use Rattle.model.specs.Heaps.{object_at};
ghost use Rattle.model.specs.Shading.{is_unmarked, wakes, make_grey, make_all_grey};
ghost use Rattle.model.specs.Shading.{filled, roots, is_calm};
ghost use Rattle.model.specs.Shading.{last_grey, without_last_grey};
ghost use Rattle.model.specs.Collecting.{places_in};
ghost use Rattle.model.specs.Reclaiming.{reference_in};
ghost use Rattle.heap.specs.Heap.{Holds, HasRoom, KeepsRoom, Became};
ghost use Rattle.heap.specs.Heap.{IsSimple, are_own, next_held, scanned_own};

use super::Heap;
use super::objects::key;
use ids::{Ref, Refusal};

impl Heap {
    /// Makes room for this many grey objects and letters, so that they need no allocation later.
    /// Nothing else changes. If there is room for them already, it allocates nothing and never
    /// fails. Otherwise the list of grey objects or the queue of letters is moved and its room
    /// doubled.
    ///
    /// It fails with [`Refusal::Memory`] if an allocation fails. There may then be more room than
    /// before, and never less.
    pub fn make_room(&mut self, greys: usize, letters: usize) -> Result<(), Refusal>
        ensures room { OnOk result (HasRoom self.new greys letters) }
        ensures same { Holds self.new self.old.heap self.old.limit }
        ensures keeps { KeepsRoom self.old self.new }
        ensures spared { HasRoom self.old greys letters → IsOk result }
        ensures refused { IfErr result (λ e. e ≡ Memory) }
    {
        self.grey.reserve(greys)?;
        self.letters.reserve(letters)?;
        Ok(())
    }

    /// Shades those of the references that are this node's. Each object that is there and isn't
    /// marked by `cycle` yet is marked, and its slot comes last among the grey ones. References to
    /// other nodes' objects, and to objects that aren't there any more, change nothing. `own` is
    /// the node's number. It allocates nothing: the room for all the references was made by
    /// [`Heap::make_room`].
    #[inline(always)]
    pub fn shade(&mut self, own: u8, cycle: u64, references: &[Option<Ref>])
        requires { length references.now ≤ self.old.room }
        ensures { Became self.old self.new
            (make_all_grey own cycle self.old.heap (filled references.now))
            (length references.now) }
    {
        for reference in references {
            self.shade_one(own, cycle, *reference);
        }
    }

    /// Shades what the program holds, as [`Heap::shade`] does: the registers in order, then the
    /// letters, oldest first. It allocates nothing: the room for all [`Heap::root_count`] of them
    /// was made by [`Heap::make_room`].
    pub fn shade_roots(&mut self, own: u8, cycle: u64)
        requires { length (roots self.old.heap) ≤ self.old.room }
        ensures { Became self.old self.new
            (make_all_grey own cycle self.old.heap (filled (roots self.old.heap)))
            (length (roots self.old.heap)) }
    {
        let count = self.root_count();
        for number in 0..count {
            let reference = self.root(number);
            self.shade_one(own, cycle, reference);
        }
    }

    /// The number of roots: registers and letters, also those that hold no reference. There are
    /// fewer than 2^16 registers and fewer than 2^63 letters.
    pub fn root_count(&self) -> usize
        ensures count { result ≡ length (roots self.now.heap) }
        ensures within { result < 2 ^ 63 + 2 ^ 16 }
    {
        self.registers.len() + self.letters.len()
    }

    /// What the root with this number holds. Registers come first, in order, and then letters,
    /// oldest first. `None` if it holds no reference or there is no such root. Only this root is
    /// read.
    pub fn root(&self, number: usize) -> Option<Ref>
        ensures { result ≡ slice_index_or (roots self.now.heap) number None }
    {
        if number < self.registers.len() {
            return self.registers[number];
        }
        match self.letters.get(number - self.registers.len()) {
            Some(letter) => letter.reference,
            None => None,
        }
    }

    /// Whether shading the roots in this cycle would turn an object grey. `own` is the node's
    /// number. The roots are read up to the first such one.
    pub fn wakes_root(&self, own: u8, cycle: u64) -> bool
        ensures { result
            ≡ list_any (wakes own cycle self.now.heap) (filled (roots self.now.heap)) }
    {
        for number in 0..self.root_count() {
            if self.wakes(own, cycle, self.root(number)) {
                return true;
            }
        }
        false
    }

    /// The number of marked objects that are still to be scanned.
    pub fn grey(&self) -> usize
        ensures { result ≡ length self.now.heap.grey }
    {
        self.grey.len()
    }

    /// The slot of the grey object that is to be scanned next, which is the one that turned grey
    /// last. `None` if no object is grey.
    pub fn last_grey(&self) -> Option<u32>
        ensures none { is_none result ≡ is_calm self.now.heap }
        ensures value { IfSome result (λ slot. slot ≡ last_grey self.now.heap) }
    {
        self.grey.last().copied()
    }

    /// Removes the object that is to be scanned next from the list of the grey ones. It stays
    /// marked. If no object is grey, nothing changes.
    pub fn pop_grey(&mut self)
        ensures { Became self.old self.new (without_last_grey self.old.heap) 0 }
    {
        self.grey.pop();
    }

    /// Scans the object that turned grey last: it leaves the list of grey ones, and what its places
    /// name is shaded. That is done only if the object has at most two places, they name no object
    /// of another node, and there is room for two grey objects. Returns whether it was done;
    /// otherwise nothing changes. `own` is the node's number. It allocates nothing.
    #[inline(always)]
    pub fn scan_own(&mut self, own: u8, cycle: u64) -> bool
        ensures can { IsTrue result ↔ IsSimple own self.old }
        ensures done { IsTrue result
            → Became self.old self.new (scanned_own own cycle self.old.heap) 2 }
        ensures unchanged { result ≡ false → self.new ≡ self.old }
    {
        let Some(held) = self.simple_held(own) else {
            return false;
        };
        self.pop_grey();
        self.shade_one(own, cycle, held[0]);
        self.shade_one(own, cycle, held[1]);
        true
    }

    // What the places of the object hold that is scanned next, if `scan_own` may scan it.
    #[inline(always)]
    fn simple_held(&self, own: u8) -> Option<[Option<Ref>; 2]>
        ensures can { IsSome result ↔ IsSimple own self.now }
        ensures held { IfSome result (λ held. filled held ≡ filled (next_held self.now.heap)) }
    {
        let Some(slot) = self.last_grey() else {
            return None;
        };
        let Some(held) = pair_of(self.places(slot)) else {
            return None;
        };
        let is_own = is_own(own, held[0]) && is_own(own, held[1]);
        if is_own && self.grey.capacity() - self.grey.len() >= 2 {
            Some(held)
        } else {
            None
        }
    }

    /// The reference to what is in a slot, by the generation that the slot has. This is the
    /// generation of its object, or of the next one if the slot is free, or 0 if it is retired or
    /// was never used. `own` is the node's number.
    pub fn reference_at(&self, own: u8, slot: u32) -> Ref
        ensures { result ≡ reference_in own self.now.heap slot }
    {
        Ref {
            node: own,
            slot,
            generation: self.objects.generation_at(slot).unwrap_or(0),
        }
    }

    /// What the places of the object in a slot hold, in order; empty if the slot has no object.
    pub fn places(&self, slot: u32) -> &[Option<Ref>]
        ensures value { result.now ≡ places_in (slot_at self.now.heap slot) }
        ensures few { length result.now ≤ GREATEST_PLACES }
    {
        match self.stored(slot) {
            Some(object) => object.contents(),
            None => &[],
        }
    }

    // Shades the object of this reference, if there is one and it is this node's.
    #[inline(always)]
    fn shade_one(&mut self, own: u8, cycle: u64, reference: Option<Ref>)
        requires { 0 < self.old.room }
        ensures { Became self.old self.new
            (make_all_grey own cycle self.old.heap (option_to_list reference)) 1 }
    {
        if let Some(reference) = reference {
            if reference.node == own {
                self.make_grey(cycle, reference);
            }
        }
    }

    // Marks an object of this heap, if it is there and isn't marked yet.
    #[inline(always)]
    fn make_grey(&mut self, cycle: u64, object: Ref)
        requires { 0 < self.old.room }
        ensures { Became self.old self.new (make_grey cycle self.old.heap object) 1 }
    {
        let marked = match self.objects.get_mut(key(object)) {
            Some(object) => object.mark(cycle),
            None => false,
        };
        if marked {
            self.grey.push_reserved(object.slot);
        }
    }

    // Whether shading this reference would turn an object grey.
    fn wakes(&self, own: u8, cycle: u64, reference: Option<Ref>) -> bool
        ensures { result
            ≡ list_any (wakes own cycle self.now.heap) (option_to_list reference) }
    {
        match reference {
            Some(reference) => reference.node == own && self.is_unmarked(cycle, reference),
            None => false,
        }
    }

    // Whether an object of this heap is there, and isn't marked by this cycle.
    fn is_unmarked(&self, cycle: u64, reference: Ref) -> bool
        ensures { result ≡ is_unmarked cycle (object_at self.now.heap reference) }
    {
        match self.object(reference) {
            Some(object) => !object.is_marked(cycle),
            None => false,
        }
    }
}

// What two places hold. If there are fewer, others that are empty follow. `None` if there are more.
#[inline(always)]
fn pair_of(places: &[Option<Ref>]) -> Option<[Option<Ref>; 2]>
    ensures few { IsSome result ↔ length places.now ≤ 2 }
    ensures held { IfSome result (λ held. filled held ≡ filled places.now) }
{
    match places {
        [] => Some([None, None]),
        [one] => Some([*one, None]),
        [one, two] => Some([*one, *two]),
        _ => None,
    }
}

// Whether the reference, if there is one, is to an object of this node.
#[inline(always)]
fn is_own(own: u8, reference: Option<Ref>) -> bool
    ensures { result ≡ are_own own (option_to_list reference) }
{
    match reference {
        Some(reference) => reference.node == own,
        None => true,
    }
}
