//! What a cell's events freed.
ghost use Rattle.std.specs.Prelude.{◌≡◌};
ghost use Rattle.c_handles.specs.Cells.{CellHandsOut, CellTracks};
ghost use Rattle.c_handles.specs.Gone.{HandsOutIf};
ghost use Rattle.c_values.specs.Faults.{Through};

use super::CellHandle;
use c_values::{CFreed, Fault};
use std::alloc::Global;

impl CellHandle {
    /// Keeps a list of the objects that go from now on, or none; see [`SeatedCell::track`].
    pub fn track_freed(&mut self, alloc: Global, on: bool) -> Result<(), Fault>
        ensures { Through (CellTracks on) self.old.held self.new.held result }
    {
        let mut cell = self.take(alloc).ok_or(Fault::NoHandle)?;
        cell.track(on);
        self.put(alloc, cell);
        Ok(())
    }

    /// Hands out objects that are gone; see [`SeatedCell::freed`].
    pub fn freed(&mut self, alloc: Global, buffer: &mut [CFreed]) -> Result<usize, Fault>
        ensures { HandsOutIf CellHandsOut self.old.held self.new.held result buffer.old buffer.new }
    {
        let mut cell = self.take(alloc).ok_or(Fault::NoHandle)?;
        let count = cell.freed(buffer);
        self.put(alloc, cell);
        Ok(count)
    }
}
