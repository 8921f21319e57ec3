//! The oldest letter of a cell, before the program accepts it.
ghost use Rattle.std.specs.Prelude.{◌≡◌};
ghost use Rattle.c_handles.specs.Reads.{letter_bytes, letter_of};
ghost use Rattle.c_values.specs.Bytes.{WroteIf};
ghost use Rattle.c_values.specs.Faults.{read};

use super::CellHandle;
use c_values::Fault;
use model::Accepted;
use std::alloc::Global;

impl CellHandle {
    /// What the program will be told of the oldest letter; see [`SeatedCell::letter`].
    pub fn letter(&mut self, alloc: Global) -> Result<Accepted, Fault>
        ensures same { self.new.held ≡ self.old.held }
        ensures value { result ≡ read (λ x. letter_of x.cell.node.core.local) self.old.held }
    {
        let cell = self.take(alloc).ok_or(Fault::NoHandle)?;
        let letter = cell.letter();
        self.put(alloc, cell);
        letter
    }

    /// Writes the bytes of the oldest letter; see [`SeatedCell::letter_bytes`].
    pub fn letter_bytes(
        &mut self,
        alloc: Global,
        buffer: &mut [u8],
        needed: &mut usize,
    ) -> Result<(), Fault>
        ensures same { self.new.held ≡ self.old.held }
        ensures wrote { WroteIf (read (λ x. letter_bytes x.cell.node.core.local) self.old.held)
            result buffer.old buffer.new needed.old needed.new }
    {
        let cell = self.take(alloc).ok_or(Fault::NoHandle)?;
        let wrote = cell.letter_bytes(buffer, needed);
        self.put(alloc, cell);
        wrote
    }
}
