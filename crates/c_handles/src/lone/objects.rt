//! Reads of a node's objects by their slots. They change nothing and take no memory.
ghost use Rattle.std.specs.Prelude.{◌≡◌};
ghost use Rattle.c_handles.specs.Objects.{bytes_at, object_of, place_at, slots_of};
ghost use Rattle.c_values.specs.Bytes.{WroteIf};

use super::LoneNode;
use crate::objects::{bytes_at, object_of, place_at, slots_of};
use c_values::{CObject, Fault};
use ids::Ref;

impl LoneNode {
    /// How many slots were ever used. All objects are in slots below that.
    pub fn slots(&self) -> u32
        ensures { result ≡ slots_of self.now.node.core.local }
    {
        slots_of(self.logged.node.core())
    }

    /// The object in a slot. Fails with `Nothing` if it has none.
    pub fn object(&self, slot: u32) -> Result<CObject, Fault>
        ensures { result ≡ object_of self.now.node.core.local slot }
    {
        object_of(self.logged.node.core(), slot)
    }

    /// What a place of the object in a slot holds, a reference or nothing. Fails with `Nothing` if
    /// there is no object, and with `NoField` if it has no such place.
    pub fn place(&self, slot: u32, place: u8) -> Result<Option<Ref>, Fault>
        ensures { result ≡ place_at self.now.node.core.local slot place }
    {
        place_at(self.logged.node.core(), slot, place)
    }

    /// Writes `count` bytes of the object in a slot, from `offset` on. Fails with `Nothing` if
    /// there is no object, with `NoBytes` if it doesn't have all of these bytes, and with
    /// `ShortBuffer`.
    pub fn bytes_at(
        &self,
        slot: u32,
        offset: u32,
        count: u32,
        buffer: &mut [u8],
        needed: &mut usize,
    ) -> Result<(), Fault>
        ensures { WroteIf (bytes_at self.now.node.core.local slot offset count) result
            buffer.old buffer.new needed.old needed.new }
    {
        bytes_at(self.logged.node.core(), slot, offset, count, buffer, needed)
    }
}
