//! Spaces and watches.
ghost use Rattle.std.specs.Prelude.{Some};
ghost use Rattle.c_values.specs.Faults.{Filled, Freed, Through};
ghost use Rattle.c_values.specs.Fields.{described};
ghost use Rattle.ids.specs.Limits.{plain_shape};
ghost use Rattle.c_handles.specs.Spaces.{Given, Made, Moved, Opens, TakesCell, TakesWatch};
ghost use Rattle.c_handles.specs.Watches.{Looks};
ghost use Rattle.c_handles.specs.Collecting.{helds};
ghost use Rattle.c_handles.specs.Garbage.{Collected};
ghost use Rattle.markring_c.specs.Calls.{Finished, Finishes, Flagged, Numbered, OpenedOr};

use c_handles::{CellHandle, SpaceHandle, WatchHandle, collect};
use c_values::{CShape, Fault, OK, flagged, status, written};
use std::alloc::Global;

/// Makes a plain space that isn't open yet.
#[unsafe(no_mangle)]
pub extern "C" fn markring_space_new(
    alloc: Global,
    space: &mut SpaceHandle,
    nodes: u8,
    registers: u16,
    slots: u32,
    watches: u8,
) -> i32
    ensures { Finished (Filled (Made (Some (plain_shape nodes registers slots)) watches))
        space.old.held space.new.held result }
{
    let shape = CShape::plain(nodes, registers, slots);
    status(space.fill_new(alloc, &shape, watches))
}

/// Makes a space whose sizes and kind the fields describe, and that isn't open yet.
#[unsafe(no_mangle)]
pub extern "C" fn markring_space_make(
    alloc: Global,
    space: &mut SpaceHandle,
    shape: &CShape,
    watches: u8,
) -> i32
    ensures { Finished (Filled (Made (described shape.now) watches)) space.old.held space.new.held
        result }
{
    status(space.fill_new(alloc, shape, watches))
}

/// Gives the space the image of a node.
#[unsafe(no_mangle)]
pub extern "C" fn markring_space_disk(
    alloc: Global,
    space: &mut SpaceHandle,
    node: u8,
    image: &[u8],
) -> i32
    ensures { Finished (Through (Given node image.now)) space.old.held space.new.held result }
{
    status(space.give(alloc, node, image))
}

/// Opens the space. If the images of two nodes are not of one moment, it writes their numbers.
#[unsafe(no_mangle)]
pub extern "C" fn markring_space_open(
    alloc: Global,
    space: &mut SpaceHandle,
    sender: &mut u8,
    receiver: &mut u8,
) -> i32
    ensures { OpenedOr (Through Opens) space.old.held space.new.held result sender.old sender.new
        receiver.old receiver.new }
{
    match space.open(alloc) {
        Ok(()) => OK,
        Err(fault) => {
            if let Fault::Ages {
                sender: from,
                receiver: to,
            } = fault
            {
                *sender = from;
                *receiver = to;
            }
            fault.status()
        }
    }
}

/// Moves the cell of a node into an empty handle.
#[unsafe(no_mangle)]
pub extern "C" fn markring_space_cell(
    alloc: Global,
    space: &mut SpaceHandle,
    node: u8,
    cell: &mut CellHandle,
) -> i32
    ensures { Finishes (Moved (TakesCell node) space.old.held space.new.held cell.old.held
        cell.new.held) result }
{
    status(space.cell(alloc, node, cell))
}

/// Moves a watch into an empty handle.
#[unsafe(no_mangle)]
pub extern "C" fn markring_space_watch(
    alloc: Global,
    space: &mut SpaceHandle,
    watch: &mut WatchHandle,
) -> i32
    ensures { Finishes (Moved TakesWatch space.old.held space.new.held watch.old.held
        watch.new.held) result }
{
    status(space.watch(alloc, watch))
}

/// Frees the space.
#[unsafe(no_mangle)]
pub extern "C" fn markring_space_free(alloc: Global, space: &mut SpaceHandle) -> i32
    ensures { Finished Freed space.old.held space.new.held result }
{
    status(space.free(alloc))
}

/// The last cycle that node 0 has shown.
#[unsafe(no_mangle)]
pub extern "C" fn markring_watch_look(
    alloc: Global,
    watch: &mut WatchHandle,
    cycle: &mut u64,
) -> i32
    ensures { Numbered (Through Looks watch.old.held watch.new.held) result cycle.old cycle.new }
{
    written(watch.look(alloc), cycle)
}

/// Frees the watch.
#[unsafe(no_mangle)]
pub extern "C" fn markring_watch_free(alloc: Global, watch: &mut WatchHandle) -> i32
    ensures { Finished Freed watch.old.held watch.new.held result }
{
    status(watch.free(alloc))
}

/// Collects until cells have to be saved, or each node has swept the cycle.
#[unsafe(no_mangle)]
pub extern "C" fn markring_space_collect(
    alloc: Global,
    cells: &mut [CellHandle],
    cycle: u64,
    done: &mut u8,
) -> i32
    ensures { Flagged (Collected cycle (helds cells.old) (helds cells.new)) result done.old
        done.new }
{
    flagged(collect(alloc, cells, cycle), done)
}
