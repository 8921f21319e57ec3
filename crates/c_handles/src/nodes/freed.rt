//! What a node's events freed.
ghost use Rattle.std.specs.Prelude.{◌≡◌};
ghost use Rattle.c_handles.specs.Gone.{HandsOutIf};
ghost use Rattle.c_handles.specs.Lone.{HandedOut, Tracks};
ghost use Rattle.c_values.specs.Faults.{Through};

use super::NodeHandle;
use c_values::{CFreed, Fault};
use std::alloc::Global;

impl NodeHandle {
    /// Keeps a list of the objects that go from now on, or none; see [`LoneNode::track`].
    pub fn track_freed(&mut self, alloc: Global, on: bool) -> Result<(), Fault>
        ensures { Through (Tracks on) self.old.held self.new.held result }
    {
        let mut node = self.take(alloc).ok_or(Fault::NoHandle)?;
        node.track(on);
        self.put(alloc, node);
        Ok(())
    }

    /// Hands out objects that are gone; see [`LoneNode::freed`].
    pub fn freed(&mut self, alloc: Global, buffer: &mut [CFreed]) -> Result<usize, Fault>
        ensures { HandsOutIf HandedOut self.old.held self.new.held result buffer.old buffer.new }
    {
        let mut node = self.take(alloc).ok_or(Fault::NoHandle)?;
        let count = node.freed(buffer);
        self.put(alloc, node);
        Ok(count)
    }
}
