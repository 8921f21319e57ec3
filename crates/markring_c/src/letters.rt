//! Letters with references and bytes, of nodes and of cells.
ghost use Rattle.std.specs.Prelude.{◌≡◌};
ghost use Rattle.model.specs.declared.event.Event.TheVariants as event;
ghost use Rattle.c_values.specs.Bytes.{WroteIf};
ghost use Rattle.c_values.specs.Faults.{read, status, written};
ghost use Rattle.c_values.specs.Fields.{letter_fields};
ghost use Rattle.c_handles.specs.Reads.{letter_bytes, letter_of};
ghost use Rattle.markring_c.specs.Calls.{CellCalled, Finishes, NodeCalled, Reads};
ghost use Rattle.markring_c.specs.Letters.{AcceptsInto};

use crate::node_events;
use c_handles::{CellHandle, NodeHandle};
use c_values::{CAnswer, Fault, OK, answered, status};
use model::{Accepted, Answer, Event};
use std::alloc::Global;

// Writes what a letter is, and returns the status.
fn told(found: Result<Accepted, Fault>, letter: &mut CAnswer) -> i32
    ensures status { result ≡ status found }
    ensures written { letter.new ≡ written letter_fields found letter.old }
{
    match found {
        Ok(it) => {
            *letter = CAnswer::of(Answer::Letter(it));
            OK
        }
        Err(fault) => fault.status(),
    }
}

/// Sends a letter with the references of some registers, and bytes, to another node.
#[unsafe(no_mangle)]
pub extern "C" fn markring_node_post(
    alloc: Global,
    node: &mut NodeHandle,
    to: u8,
    label: u32,
    first: u16,
    count: u8,
    bytes: &[u8],
    answer: &mut CAnswer,
) -> i32
    ensures { NodeCalled (event.Post to label first count bytes.entry) node.old.held
        node.new.held result answer.old answer.new }
{
    let event = Event::Post {
        to,
        label,
        first,
        count,
        bytes,
    };
    node_events::act(alloc, node, event, answer)
}

/// Asks the owner of another node's object for its word and some of its bytes.
#[unsafe(no_mangle)]
pub extern "C" fn markring_node_fetch(
    alloc: Global,
    node: &mut NodeHandle,
    object: u16,
    label: u32,
    offset: u32,
    count: u32,
    answer: &mut CAnswer,
) -> i32
    ensures { NodeCalled (event.Fetch object label offset count) node.old.held node.new.held
        result answer.old answer.new }
{
    let event = Event::Fetch {
        object,
        label,
        offset,
        count,
    };
    node_events::act(alloc, node, event, answer)
}

/// What Accept would answer to the oldest letter.
#[unsafe(no_mangle)]
pub extern "C" fn markring_node_letter(
    alloc: Global,
    node: &mut NodeHandle,
    letter: &mut CAnswer,
) -> i32
    ensures { Reads (λ x. letter_of x.node.core.local) letter_fields
        node.old.held node.new.held result letter.old letter.new }
{
    told(node.letter(alloc), letter)
}

/// Writes the bytes of the oldest letter.
#[unsafe(no_mangle)]
pub extern "C" fn markring_node_letter_bytes(
    alloc: Global,
    node: &mut NodeHandle,
    buffer: &mut [u8],
    needed: &mut usize,
) -> i32
    ensures same { node.new.held ≡ node.old.held }
    ensures wrote { Finishes (λ r. WroteIf (read (λ x. letter_bytes x.node.core.local)
        node.old.held) r buffer.old buffer.new needed.old needed.new) result }
{
    status(node.letter_bytes(alloc, buffer, needed))
}

/// Writes the bytes of the oldest letter, and accepts it.
#[unsafe(no_mangle)]
pub extern "C" fn markring_node_accept_into(
    alloc: Global,
    node: &mut NodeHandle,
    register: u16,
    buffer: &mut [u8],
    needed: &mut usize,
    answer: &mut CAnswer,
) -> i32
    ensures { AcceptsInto (read (λ x. letter_bytes x.node.core.local) node.old.held)
        (record
        { before = buffer.old; after = buffer.new; needed = needed.old; needs = needed.new })
        (NodeCalled (event.Accept register)) node.old.held node.new.held result answer.old
        answer.new }
{
    match node.letter_bytes(alloc, buffer, needed) {
        Ok(()) => node_events::act(alloc, node, Event::Accept { register }, answer),
        Err(fault) => fault.status(),
    }
}

/// Sends a letter with the references of some registers, and bytes, to another node.
#[unsafe(no_mangle)]
pub extern "C" fn markring_cell_post(
    alloc: Global,
    cell: &mut CellHandle,
    to: u8,
    label: u32,
    first: u16,
    count: u8,
    bytes: &[u8],
    answer: &mut CAnswer,
) -> i32
    ensures { CellCalled (event.Post to label first count bytes.entry) cell.old.held
        cell.new.held result answer.old answer.new }
{
    let event = Event::Post {
        to,
        label,
        first,
        count,
        bytes,
    };
    answered(cell.act(alloc, event), answer)
}

/// Asks the owner of another node's object for its word and some of its bytes.
#[unsafe(no_mangle)]
pub extern "C" fn markring_cell_fetch(
    alloc: Global,
    cell: &mut CellHandle,
    object: u16,
    label: u32,
    offset: u32,
    count: u32,
    answer: &mut CAnswer,
) -> i32
    ensures { CellCalled (event.Fetch object label offset count) cell.old.held cell.new.held
        result answer.old answer.new }
{
    let event = Event::Fetch {
        object,
        label,
        offset,
        count,
    };
    answered(cell.act(alloc, event), answer)
}

/// What Accept would answer to the oldest letter.
#[unsafe(no_mangle)]
pub extern "C" fn markring_cell_letter(
    alloc: Global,
    cell: &mut CellHandle,
    letter: &mut CAnswer,
) -> i32
    ensures { Reads (λ x. letter_of x.cell.node.core.local) letter_fields
        cell.old.held cell.new.held result letter.old letter.new }
{
    told(cell.letter(alloc), letter)
}

/// Writes the bytes of the oldest letter.
#[unsafe(no_mangle)]
pub extern "C" fn markring_cell_letter_bytes(
    alloc: Global,
    cell: &mut CellHandle,
    buffer: &mut [u8],
    needed: &mut usize,
) -> i32
    ensures same { cell.new.held ≡ cell.old.held }
    ensures wrote { Finishes (λ r. WroteIf (read (λ x. letter_bytes x.cell.node.core.local)
        cell.old.held) r buffer.old buffer.new needed.old needed.new) result }
{
    status(cell.letter_bytes(alloc, buffer, needed))
}

/// Writes the bytes of the oldest letter, and accepts it.
#[unsafe(no_mangle)]
pub extern "C" fn markring_cell_accept_into(
    alloc: Global,
    cell: &mut CellHandle,
    register: u16,
    buffer: &mut [u8],
    needed: &mut usize,
    answer: &mut CAnswer,
) -> i32
    ensures { AcceptsInto (read (λ x. letter_bytes x.cell.node.core.local) cell.old.held)
        (record
        { before = buffer.old; after = buffer.new; needed = needed.old; needs = needed.new })
        (CellCalled (event.Accept register)) cell.old.held cell.new.held result answer.old
        answer.new }
{
    match cell.letter_bytes(alloc, buffer, needed) {
        Ok(()) => answered(cell.act(alloc, Event::Accept { register }), answer),
        Err(fault) => fault.status(),
    }
}
