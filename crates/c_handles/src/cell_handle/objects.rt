//! Reads of a cell's objects by their slots.
ghost use Rattle.std.specs.Prelude.{◌≡◌, Ok};
ghost use Rattle.c_handles.specs.Objects.{bytes_at, object_of, place_at, slots_of};
ghost use Rattle.c_values.specs.Bytes.{WroteIf};
ghost use Rattle.c_values.specs.Faults.{read};

use super::CellHandle;
use c_values::{CObject, Fault};
use ids::Ref;
use std::alloc::Global;

impl CellHandle {
    /// How many slots were ever used; see [`SeatedCell::slots`].
    pub fn slots(&mut self, alloc: Global) -> Result<u32, Fault>
        ensures same { self.new.held ≡ self.old.held }
        ensures value { result ≡ read (λ c. Ok (slots_of c.cell.node.core.local)) self.old.held }
    {
        let cell = self.take(alloc).ok_or(Fault::NoHandle)?;
        let slots = cell.slots();
        self.put(alloc, cell);
        Ok(slots)
    }

    /// The object in a slot; see [`SeatedCell::object`].
    pub fn object(&mut self, alloc: Global, slot: u32) -> Result<CObject, Fault>
        ensures same { self.new.held ≡ self.old.held }
        ensures value { result ≡ read (λ c. object_of c.cell.node.core.local slot) self.old.held }
    {
        let cell = self.take(alloc).ok_or(Fault::NoHandle)?;
        let found = cell.object(slot);
        self.put(alloc, cell);
        found
    }

    /// What a place of the object in a slot holds; see [`SeatedCell::place`].
    pub fn place(&mut self, alloc: Global, slot: u32, place: u8) -> Result<Option<Ref>, Fault>
        ensures same { self.new.held ≡ self.old.held }
        ensures value { result
            ≡ read (λ c. place_at c.cell.node.core.local slot place) self.old.held }
    {
        let cell = self.take(alloc).ok_or(Fault::NoHandle)?;
        let found = cell.place(slot, place);
        self.put(alloc, cell);
        found
    }

    /// Writes bytes of the object in a slot; see [`SeatedCell::bytes_at`].
    pub fn bytes_at(
        &mut self,
        alloc: Global,
        slot: u32,
        offset: u32,
        count: u32,
        buffer: &mut [u8],
        needed: &mut usize,
    ) -> Result<(), Fault>
        ensures same { self.new.held ≡ self.old.held }
        ensures wrote { WroteIf
            (read (λ c. bytes_at c.cell.node.core.local slot offset count) self.old.held) result
            buffer.old buffer.new needed.old needed.new }
    {
        let cell = self.take(alloc).ok_or(Fault::NoHandle)?;
        let wrote = cell.bytes_at(slot, offset, count, buffer, needed);
        self.put(alloc, cell);
        wrote
    }
}
