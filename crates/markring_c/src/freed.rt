//! The objects that are gone from a node, or from the node of a cell.
ghost use Rattle.std.specs.Prelude.{◌≡◌, ◌==◌, not};
ghost use Rattle.c_values.specs.Faults.{Through};
ghost use Rattle.c_handles.specs.Cells.{CellHandsOut, CellTracks};
ghost use Rattle.c_handles.specs.Gone.{HandsOutIf};
ghost use Rattle.c_handles.specs.Lone.{HandedOut, Tracks};
ghost use Rattle.markring_c.specs.Calls.{Finished, Numbered};

use c_handles::{CellHandle, NodeHandle};
use c_values::{CFreed, status, written};
use std::alloc::Global;

/// Keeps a list of the objects that go from now on, or none.
#[unsafe(no_mangle)]
pub extern "C" fn markring_node_track_freed(alloc: Global, node: &mut NodeHandle, on: u8) -> i32
    ensures { Finished (Through (Tracks (not (on == 0)))) node.old.held node.new.held result }
{
    status(node.track_freed(alloc, on != 0))
}

/// Hands out objects that are gone from the node, and from the kept one.
#[unsafe(no_mangle)]
pub extern "C" fn markring_node_freed(
    alloc: Global,
    node: &mut NodeHandle,
    buffer: &mut [CFreed],
    count: &mut usize,
) -> i32
    ensures { Numbered
        (λ r. HandsOutIf HandedOut node.old.held node.new.held r buffer.old buffer.new)
        result count.old count.new }
{
    written(node.freed(alloc, buffer), count)
}

/// Keeps a list of the objects that go from now on, or none.
#[unsafe(no_mangle)]
pub extern "C" fn markring_cell_track_freed(alloc: Global, cell: &mut CellHandle, on: u8) -> i32
    ensures { Finished (Through (CellTracks (not (on == 0)))) cell.old.held cell.new.held result }
{
    status(cell.track_freed(alloc, on != 0))
}

/// Hands out objects that are gone from the cell's node, and from the saved one.
#[unsafe(no_mangle)]
pub extern "C" fn markring_cell_freed(
    alloc: Global,
    cell: &mut CellHandle,
    buffer: &mut [CFreed],
    count: &mut usize,
) -> i32
    ensures { Numbered (λ r. HandsOutIf CellHandsOut cell.old.held cell.new.held r buffer.old
        buffer.new) result count.old count.new }
{
    written(cell.freed(alloc, buffer), count)
}
