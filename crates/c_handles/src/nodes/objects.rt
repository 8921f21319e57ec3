//! Reads of a node's objects by their slots.
ghost use Rattle.std.specs.Prelude.{◌≡◌, Ok};
ghost use Rattle.c_handles.specs.Objects.{bytes_at, object_of, place_at, slots_of};
ghost use Rattle.c_values.specs.Bytes.{WroteIf};
ghost use Rattle.c_values.specs.Faults.{read};

use super::NodeHandle;
use c_values::{CObject, Fault};
use ids::Ref;
use std::alloc::Global;

impl NodeHandle {
    /// How many slots were ever used; see [`LoneNode::slots`].
    pub fn slots(&mut self, alloc: Global) -> Result<u32, Fault>
        ensures same { self.new.held ≡ self.old.held }
        ensures value { result ≡ read (λ n. Ok (slots_of n.node.core.local)) self.old.held }
    {
        let node = self.take(alloc).ok_or(Fault::NoHandle)?;
        let slots = node.slots();
        self.put(alloc, node);
        Ok(slots)
    }

    /// The object in a slot; see [`LoneNode::object`].
    pub fn object(&mut self, alloc: Global, slot: u32) -> Result<CObject, Fault>
        ensures same { self.new.held ≡ self.old.held }
        ensures value { result ≡ read (λ n. object_of n.node.core.local slot) self.old.held }
    {
        let node = self.take(alloc).ok_or(Fault::NoHandle)?;
        let found = node.object(slot);
        self.put(alloc, node);
        found
    }

    /// What a place of the object in a slot holds; see [`LoneNode::place`].
    pub fn place(&mut self, alloc: Global, slot: u32, place: u8) -> Result<Option<Ref>, Fault>
        ensures same { self.new.held ≡ self.old.held }
        ensures value { result
            ≡ read (λ n. place_at n.node.core.local slot place) self.old.held }
    {
        let node = self.take(alloc).ok_or(Fault::NoHandle)?;
        let found = node.place(slot, place);
        self.put(alloc, node);
        found
    }

    /// Writes bytes of the object in a slot; see [`LoneNode::bytes_at`].
    pub fn bytes_at(
        &mut self,
        alloc: Global,
        slot: u32,
        offset: u32,
        count: u32,
        buffer: &mut [u8],
        needed: &mut usize,
    ) -> Result<(), Fault>
        ensures same { self.new.held ≡ self.old.held }
        ensures wrote { WroteIf
            (read (λ n. bytes_at n.node.core.local slot offset count) self.old.held) result
            buffer.old buffer.new needed.old needed.new }
    {
        let node = self.take(alloc).ok_or(Fault::NoHandle)?;
        let wrote = node.bytes_at(slot, offset, count, buffer, needed);
        self.put(alloc, node);
        wrote
    }
}
