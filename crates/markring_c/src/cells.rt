//! Cells, except for the events of their nodes one by one.
ghost use Rattle.std.specs.Prelude.{◌≡◌, Ok};
ghost use Rattle.node.specs.Summaries.{summary_of};
ghost use Rattle.c_values.specs.Faults.{Freed, Through, read, status, written};
ghost use Rattle.c_values.specs.Fields.{bit, event_of, reference_fields, state_fields};
ghost use Rattle.c_handles.specs.Reads.{link_of, object_bytes, object_len, register_of};
ghost use Rattle.c_values.specs.Bytes.{WroteIf};
ghost use Rattle.c_handles.specs.Cells.{HandleImaged, Raised, Received, Reopened, Saved, Sent};
ghost use Rattle.c_handles.specs.Cells.{SizedSame};
ghost use Rattle.markring_c.specs.Calls.{Answered, CellActed, Finished, Finishes, Flagged, Numbered, Reads};

use c_handles::CellHandle;
use c_values::{
    CAnswer, CEvent, CLink, CRef, CState, Fault, OK, answered, flagged, status, written,
};
use std::alloc::Global;

/// Frees the cell.
#[unsafe(no_mangle)]
pub extern "C" fn markring_cell_free(alloc: Global, cell: &mut CellHandle) -> i32
    ensures { Finished Freed cell.old.held cell.new.held result }
{
    status(cell.free(alloc))
}

/// Gives the cell's node the event that the fields describe.
#[unsafe(no_mangle)]
pub extern "C" fn markring_cell_act(
    alloc: Global,
    cell: &mut CellHandle,
    event: &CEvent,
    answer: &mut CAnswer,
) -> i32
    ensures { CellActed (event_of event.now) cell.old.held cell.new.held result answer.old
        answer.new }
{
    match event.event() {
        Some(it) => answered(cell.act(alloc, it), answer),
        None => Fault::BadArgument.status(),
    }
}

/// Receives from another node.
#[unsafe(no_mangle)]
pub extern "C" fn markring_cell_receive(
    alloc: Global,
    cell: &mut CellHandle,
    from: u8,
    answer: &mut CAnswer,
) -> i32
    ensures { Answered (Through (Received from)) cell.old.held cell.new.held result answer.old
        answer.new }
{
    answered(cell.receive(alloc, from), answer)
}

/// Sends to another node.
#[unsafe(no_mangle)]
pub extern "C" fn markring_cell_send(
    alloc: Global,
    cell: &mut CellHandle,
    to: u8,
    sent: &mut u8,
) -> i32
    ensures { Flagged (Through (Sent to) cell.old.held cell.new.held) result sent.old sent.new }
{
    flagged(cell.send(alloc, to), sent)
}

/// The number of bytes of the image of the cell's node.
#[unsafe(no_mangle)]
pub extern "C" fn markring_cell_image_size(
    alloc: Global,
    cell: &mut CellHandle,
    size: &mut usize,
) -> i32
    ensures { Numbered (Through SizedSame cell.old.held cell.new.held) result size.old size.new }
{
    written(cell.image_size(alloc), size)
}

/// Writes the image of the cell's node.
#[unsafe(no_mangle)]
pub extern "C" fn markring_cell_image(
    alloc: Global,
    cell: &mut CellHandle,
    buffer: &mut [u8],
    needed: &mut usize,
    mark: &mut u64,
) -> i32
    ensures { Numbered (λ r. HandleImaged cell.old.held cell.new.held r buffer.old buffer.new
        needed.old needed.new) result mark.old mark.new }
{
    written(cell.image(alloc, buffer, needed), mark)
}

/// Saves the cell, whose image with this mark is stored.
#[unsafe(no_mangle)]
pub extern "C" fn markring_cell_save(alloc: Global, cell: &mut CellHandle, mark: u64) -> i32
    ensures { Finished (Through (Saved mark)) cell.old.held cell.new.held result }
{
    status(cell.save(alloc, mark))
}

/// Goes back to the cell as it was last saved.
#[unsafe(no_mangle)]
pub extern "C" fn markring_cell_reopen(alloc: Global, cell: &mut CellHandle) -> i32
    ensures { Finished (Through Reopened) cell.old.held cell.new.held result }
{
    status(cell.reopen(alloc))
}

/// Shows to the watches the last cycle that the saved node 0 knows to have ended.
#[unsafe(no_mangle)]
pub extern "C" fn markring_cell_raise(alloc: Global, cell: &mut CellHandle, cycle: &mut u64) -> i32
    ensures { Numbered (Through Raised cell.old.held cell.new.held) result cycle.old cycle.new }
{
    written(cell.raise(alloc), cycle)
}

/// The cell's node in numbers.
#[unsafe(no_mangle)]
pub extern "C" fn markring_cell_state(
    alloc: Global,
    cell: &mut CellHandle,
    state: &mut CState,
) -> i32
    ensures { Reads (λ c. Ok (summary_of c.cell.node.core.local)) state_fields
        cell.old.held cell.new.held result state.old state.new }
{
    match cell.state(alloc) {
        Ok(it) => {
            *state = CState::of(it);
            OK
        }
        Err(fault) => fault.status(),
    }
}

/// The links between the cell's node and another one.
#[unsafe(no_mangle)]
pub extern "C" fn markring_cell_link(
    alloc: Global,
    cell: &mut CellHandle,
    peer: u8,
    link: &mut CLink,
) -> i32
    ensures { Reads (λ c. link_of c.cell.node.core peer) (λ x. x)
        cell.old.held cell.new.held result link.old link.new }
{
    written(cell.link(alloc, peer), link)
}

/// The reference in a register.
#[unsafe(no_mangle)]
pub extern "C" fn markring_cell_register(
    alloc: Global,
    cell: &mut CellHandle,
    register: u16,
    reference: &mut CRef,
) -> i32
    ensures { Reads (λ c. register_of c.cell.node.core.local register) reference_fields
        cell.old.held cell.new.held result reference.old reference.new }
{
    match cell.register(alloc, register) {
        Ok(it) => {
            *reference = CRef::of(it);
            OK
        }
        Err(fault) => fault.status(),
    }
}

/// Writes this many bytes of an object, from this offset on.
#[unsafe(no_mangle)]
pub extern "C" fn markring_cell_bytes(
    alloc: Global,
    cell: &mut CellHandle,
    object: u16,
    offset: u32,
    count: u32,
    buffer: &mut [u8],
    needed: &mut usize,
) -> i32
    ensures same { cell.new.held ≡ cell.old.held }
    ensures wrote { Finishes (λ r. WroteIf
        (read (λ c. object_bytes c.cell.node.core.local object offset count) cell.old.held) r
        buffer.old buffer.new needed.old needed.new) result }
{
    status(cell.bytes(alloc, object, offset, count, buffer, needed))
}

/// How many bytes an object has.
#[unsafe(no_mangle)]
pub extern "C" fn markring_cell_bytes_length(
    alloc: Global,
    cell: &mut CellHandle,
    object: u16,
    length: &mut u32,
) -> i32
    ensures { Reads (λ c. object_len c.cell.node.core.local object) (λ x. x)
        cell.old.held cell.new.held result length.old length.new }
{
    written(cell.bytes_len(alloc, object), length)
}

/// Whether an event has changed the node since the last save or reopening.
#[unsafe(no_mangle)]
pub extern "C" fn markring_cell_unsaved(alloc: Global, cell: &mut CellHandle, flag: &mut u8) -> i32
    ensures { Reads (λ c. Ok c.cell.unsaved) bit
        cell.old.held cell.new.held result flag.old flag.new }
{
    flagged(cell.is_unsaved(alloc), flag)
}
