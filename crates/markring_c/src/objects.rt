//! The objects of nodes and of cells, by their slots.
ghost use Rattle.std.specs.Prelude.{◌≡◌, Ok};
ghost use Rattle.c_values.specs.Bytes.{WroteIf};
ghost use Rattle.c_values.specs.Faults.{read, status, written};
ghost use Rattle.c_values.specs.Fields.{optional_fields};
ghost use Rattle.c_handles.specs.Objects.{bytes_at, object_of, place_at, slots_of};
ghost use Rattle.markring_c.specs.Calls.{Finishes, Reads};

use c_handles::{CellHandle, NodeHandle};
use c_values::{CObject, CRef, Fault, OK, status, written};
use ids::Ref;
use std::alloc::Global;

// Writes a reference or nothing, and returns the status.
fn referred(found: Result<Option<Ref>, Fault>, reference: &mut CRef) -> i32
    ensures status { result ≡ status found }
    ensures written { reference.new ≡ written optional_fields found reference.old }
{
    match found {
        Ok(it) => {
            *reference = CRef::of_optional(it);
            OK
        }
        Err(fault) => fault.status(),
    }
}

/// How many slots of the node were ever used.
#[unsafe(no_mangle)]
pub extern "C" fn markring_node_slots(alloc: Global, node: &mut NodeHandle, slots: &mut u32) -> i32
    ensures { Reads (λ n. Ok (slots_of n.node.core.local)) (λ x. x)
        node.old.held node.new.held result slots.old slots.new }
{
    written(node.slots(alloc), slots)
}

/// The object in a slot of the node.
#[unsafe(no_mangle)]
pub extern "C" fn markring_node_object(
    alloc: Global,
    node: &mut NodeHandle,
    slot: u32,
    object: &mut CObject,
) -> i32
    ensures { Reads (λ n. object_of n.node.core.local slot) (λ x. x)
        node.old.held node.new.held result object.old object.new }
{
    written(node.object(alloc, slot), object)
}

/// What a place of the object in a slot of the node holds.
#[unsafe(no_mangle)]
pub extern "C" fn markring_node_place(
    alloc: Global,
    node: &mut NodeHandle,
    slot: u32,
    place: u8,
    reference: &mut CRef,
) -> i32
    ensures { Reads (λ n. place_at n.node.core.local slot place) optional_fields
        node.old.held node.new.held result reference.old reference.new }
{
    referred(node.place(alloc, slot, place), reference)
}

/// Writes this many bytes of the object in a slot of the node, from this offset on.
#[unsafe(no_mangle)]
pub extern "C" fn markring_node_bytes_at(
    alloc: Global,
    node: &mut NodeHandle,
    slot: u32,
    offset: u32,
    count: u32,
    buffer: &mut [u8],
    needed: &mut usize,
) -> i32
    ensures same { node.new.held ≡ node.old.held }
    ensures wrote { Finishes (λ r. WroteIf
        (read (λ n. bytes_at n.node.core.local slot offset count) node.old.held) r buffer.old
        buffer.new needed.old needed.new) result }
{
    status(node.bytes_at(alloc, slot, offset, count, buffer, needed))
}

/// How many slots of the cell's node were ever used.
#[unsafe(no_mangle)]
pub extern "C" fn markring_cell_slots(alloc: Global, cell: &mut CellHandle, slots: &mut u32) -> i32
    ensures { Reads (λ c. Ok (slots_of c.cell.node.core.local)) (λ x. x)
        cell.old.held cell.new.held result slots.old slots.new }
{
    written(cell.slots(alloc), slots)
}

/// The object in a slot of the cell's node.
#[unsafe(no_mangle)]
pub extern "C" fn markring_cell_object(
    alloc: Global,
    cell: &mut CellHandle,
    slot: u32,
    object: &mut CObject,
) -> i32
    ensures { Reads (λ c. object_of c.cell.node.core.local slot) (λ x. x)
        cell.old.held cell.new.held result object.old object.new }
{
    written(cell.object(alloc, slot), object)
}

/// What a place of the object in a slot of the cell's node holds.
#[unsafe(no_mangle)]
pub extern "C" fn markring_cell_place(
    alloc: Global,
    cell: &mut CellHandle,
    slot: u32,
    place: u8,
    reference: &mut CRef,
) -> i32
    ensures { Reads (λ c. place_at c.cell.node.core.local slot place) optional_fields
        cell.old.held cell.new.held result reference.old reference.new }
{
    referred(cell.place(alloc, slot, place), reference)
}

/// Writes this many bytes of the object in a slot of the cell's node, from this offset on.
#[unsafe(no_mangle)]
pub extern "C" fn markring_cell_bytes_at(
    alloc: Global,
    cell: &mut CellHandle,
    slot: u32,
    offset: u32,
    count: u32,
    buffer: &mut [u8],
    needed: &mut usize,
) -> i32
    ensures same { cell.new.held ≡ cell.old.held }
    ensures wrote { Finishes (λ r. WroteIf
        (read (λ c. bytes_at c.cell.node.core.local slot offset count) cell.old.held) r buffer.old
        buffer.new needed.old needed.new) result }
{
    status(cell.bytes_at(alloc, slot, offset, count, buffer, needed))
}
