//! Reads of a node from outside: the roots of its program, its objects, and how many messages it
//! has received. Nothing here allocates memory or changes the node.
ghost use Rattle.std.specs.Prelude.{◌≡◌, ℕ, ◌<◌, length, slice_index_or, is_some, None};
ghost use Rattle.std.specs.Prelude.{Ok, Err, IfOk, IfErr, option_copied};
ghost use Rattle.model.specs.State.{got_from, slot_at};
ghost use Rattle.model.specs.Heaps.{object_at, heap_bytes, heap_bytes_len};
ghost use Rattle.model.specs.Shading.{roots};
ghost use Rattle.model.specs.Collecting.{places_in};
ghost use Rattle.model.specs.View.{link_to, message_of};
ghost use Rattle.node.specs.Invariant.{links_of};

use super::Core;
use cycles::{Phases, Ring};
use heap::Heap;
use ids::{Ref, Refusal};
use link::Links;
use msg::Message;
use std::alloc::Global;

impl Core {
    /// The number of roots, which are what the program holds: its registers and the letters that
    /// wait, also those that hold no reference.
    pub fn root_count(&self) -> usize
        ensures { result ≡ length (roots self.now.local.heap) }
    {
        self.heap.root_count()
    }

    /// What the root with this number holds. Registers come first, in order, and then letters,
    /// oldest first. `None` if it holds no reference or there is no such root.
    pub fn root(&self, number: usize) -> Option<Ref>
        ensures { result ≡ slice_index_or (roots self.now.local.heap) number None }
    {
        self.heap.root(number)
    }

    /// Whether an object of this node is still there. The reference's node isn't checked.
    pub fn is_live(&self, object: Ref) -> bool
        ensures { result ≡ is_some (object_at self.now.local.heap object) }
    {
        self.heap.is_live(object)
    }

    /// What the places of the object in a slot hold, in order; empty if the slot has no object.
    pub fn places(&self, slot: u32) -> &[Option<Ref>]
        ensures { result.now ≡ places_in (slot_at self.now.local.heap slot) }
    {
        self.heap.places(slot)
    }

    /// The bytes of the object that the register `object` names, `count` of them from `offset` on.
    ///
    /// It fails with [`Refusal::NoRegister`] if there is no such register, and with
    /// [`Refusal::EmptyRegister`] if it is empty. It fails with [`Refusal::Remote`] if it names an
    /// object of another node, with [`Refusal::NoField`] if the object isn't there, and with
    /// [`Refusal::NoBytes`] if the object doesn't have all of these bytes.
    pub fn bytes(&self, object: u16, offset: u32, count: u32) -> Result<&[u8], Refusal>
        ensures value { let p = self.now.local in
            IfOk result (λ b. heap_bytes p.own p.heap object offset count ≡ Ok b.now) }
        ensures refused { let p = self.now.local in
            IfErr result (λ e. heap_bytes p.own p.heap object offset count ≡ Err e) }
    {
        self.heap.bytes(self.own, object, offset, count)
    }

    /// How many bytes the object has that the register `object` names. It fails as [`Core::bytes`]
    /// does, except with [`Refusal::NoBytes`].
    pub fn bytes_len(&self, object: u16) -> Result<u32, Refusal>
        ensures { let p = self.now.local in result ≡ heap_bytes_len p.own p.heap object }
    {
        self.heap.bytes_len(self.own, object)
    }

    /// What allocates memory for the node.
    pub fn allocator(&self) -> Global {
        self.asked.allocator()
    }

    /// The number of messages received from the node `from`; 0 if there is no such node.
    pub fn taken_from(&self, from: u8) -> u64
        ensures { result ≡ got_from self.now.local from }
    {
        if from < self.shape.nodes() {
            self.links.taken(from)
        } else {
            0
        }
    }

    /// The message with this number for the node `to`, released or not, while the node keeps it.
    /// `None` if the node keeps no such message, or if there is no such node.
    pub fn message(&self, to: u8, number: u64) -> Option<&Message>
        ensures { option_copied result ≡ message_of (link_to self.now to) number }
    {
        if to < self.shape.nodes() {
            self.links.message(to, number)
        } else {
            None
        }
    }

    /// The node's heap, which may use as many slots as the shape has.
    pub fn heap(&self) -> &Heap
        ensures value { result.now.heap ≡ self.now.local.heap }
        ensures limit { result.now.limit ≡ self.now.local.shape.slots }
    {
        &self.heap
    }

    /// The references of other nodes that were asked or vouched for in the node's cycle, in order.
    pub fn asked(&self) -> &[Ref]
        ensures { result.now ≡ self.now.local.asked }
    {
        self.asked.as_slice()
    }

    /// How far the node is in the collection cycles.
    pub fn phases(&self) -> &Phases
        ensures { result.now ≡ self.now.local.phases }
    {
        &self.phases
    }

    /// The node's part of the ring.
    pub fn ring(&self) -> Ring
        ensures { result ≡ self.now.local.ring }
    {
        self.ring
    }

    /// What the node holds of the links between it and each node of the space.
    pub fn links(&self) -> &Links
        ensures { result.now ≡ links_of self.now }
    {
        &self.links
    }
}
