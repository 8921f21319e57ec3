//! Nodes, except for their events one by one.
ghost use Rattle.std.specs.Prelude.{◌≡◌, ◌==◌, not, Ok, Some};
ghost use Rattle.ids.specs.Limits.{plain_shape};
ghost use Rattle.node.specs.Summaries.{summary_of};
ghost use Rattle.c_values.specs.Faults.{read, status, written};
ghost use Rattle.c_values.specs.Fields.{bit, described, event_of, reference_fields, state_fields};
ghost use Rattle.c_handles.specs.Lone.{Made, Read, TookIn};
ghost use Rattle.c_values.specs.Bytes.{WroteIf};
ghost use Rattle.c_values.specs.Faults.{Filled, Freed, Through};
ghost use Rattle.c_handles.specs.Frames.{HandleFrame, HandlePacks, ack_bytes};
ghost use Rattle.c_handles.specs.Batches.{HandleBatched, Reopened, batch_of, size_of};
ghost use Rattle.c_handles.specs.Images.{HandleImaged, Kept, Logs, Released, SizedSame};
ghost use Rattle.c_handles.specs.Reads.{link_of, object_bytes, object_len, register_of, waiting_number};
ghost use Rattle.markring_c.specs.Calls.{Answered, Finished, Finishes, NodeActed, Numbered, Reads};

use crate::node_events::act_any;
use c_handles::NodeHandle;
use c_values::{
    CAnswer, CEvent, CLink, CRef, CShape, CState, Fault, OK, answered, flagged, status, written,
};
use std::alloc::Global;

/// Makes a new node of a plain space.
#[unsafe(no_mangle)]
pub extern "C" fn markring_node_new(
    alloc: Global,
    node: &mut NodeHandle,
    nodes: u8,
    registers: u16,
    slots: u32,
    own: u8,
    limit: u64,
) -> i32
    ensures { Finished (Filled (Made (Some (plain_shape nodes registers slots)) own limit))
        node.old.held node.new.held result }
{
    let shape = CShape::plain(nodes, registers, slots);
    status(node.fill_new(alloc, &shape, own, limit))
}

/// Makes a new node of a space whose sizes and kind the fields describe.
#[unsafe(no_mangle)]
pub extern "C" fn markring_node_make(
    alloc: Global,
    node: &mut NodeHandle,
    shape: &CShape,
    own: u8,
    limit: u64,
) -> i32
    ensures { Finished (Filled (Made (described shape.now) own limit)) node.old.held node.new.held
        result }
{
    status(node.fill_new(alloc, shape, own, limit))
}

/// Frees the node.
#[unsafe(no_mangle)]
pub extern "C" fn markring_node_free(alloc: Global, node: &mut NodeHandle) -> i32
    ensures { Finished Freed node.old.held node.new.held result }
{
    status(node.free(alloc))
}

/// Gives the node the event that the fields describe.
#[unsafe(no_mangle)]
pub extern "C" fn markring_node_act(
    alloc: Global,
    node: &mut NodeHandle,
    event: &CEvent,
    answer: &mut CAnswer,
) -> i32
    ensures { NodeActed (event_of event.now) node.old.held node.new.held result answer.old
        answer.new }
{
    match event.event() {
        Some(it) => act_any(alloc, node, it, answer),
        None => Fault::BadArgument.status(),
    }
}

/// Gives the node a frame.
#[unsafe(no_mangle)]
pub extern "C" fn markring_node_take(
    alloc: Global,
    node: &mut NodeHandle,
    bytes: &[u8],
    answer: &mut CAnswer,
) -> i32
    ensures { Answered (Through (TookIn bytes.now)) node.old.held node.new.held result answer.old
        answer.new }
{
    answered(node.take_frame(alloc, bytes), answer)
}

/// Makes the node of an image.
#[unsafe(no_mangle)]
pub extern "C" fn markring_node_from_image(
    alloc: Global,
    node: &mut NodeHandle,
    bytes: &[u8],
    limit: u64,
) -> i32
    ensures { Finished (Filled (Read bytes.now limit)) node.old.held node.new.held result }
{
    status(node.fill_read(alloc, bytes, limit))
}

/// Makes the node of an image and of the batches that follow it.
#[unsafe(no_mangle)]
pub extern "C" fn markring_node_from_batches(
    alloc: Global,
    node: &mut NodeHandle,
    image: &[u8],
    batches: &[u8],
    limit: u64,
) -> i32
    ensures { Finished (Filled (Reopened image.now batches.now limit)) node.old.held node.new.held
        result }
{
    status(node.fill_reopened(alloc, image, batches, limit))
}

/// The node in numbers.
#[unsafe(no_mangle)]
pub extern "C" fn markring_node_state(
    alloc: Global,
    node: &mut NodeHandle,
    state: &mut CState,
) -> i32
    ensures { Reads (λ n. Ok (summary_of n.node.core.local)) state_fields
        node.old.held node.new.held result state.old state.new }
{
    match node.state(alloc) {
        Ok(it) => {
            *state = CState::of(it);
            OK
        }
        Err(fault) => fault.status(),
    }
}

/// The links between the node and another one.
#[unsafe(no_mangle)]
pub extern "C" fn markring_node_link(
    alloc: Global,
    node: &mut NodeHandle,
    peer: u8,
    link: &mut CLink,
) -> i32
    ensures { Reads (λ n. link_of n.node.core peer) (λ x. x)
        node.old.held node.new.held result link.old link.new }
{
    written(node.link(alloc, peer), link)
}

/// The reference in a register.
#[unsafe(no_mangle)]
pub extern "C" fn markring_node_register(
    alloc: Global,
    node: &mut NodeHandle,
    register: u16,
    reference: &mut CRef,
) -> i32
    ensures { Reads (λ n. register_of n.node.core.local register) reference_fields
        node.old.held node.new.held result reference.old reference.new }
{
    match node.register(alloc, register) {
        Ok(it) => {
            *reference = CRef::of(it);
            OK
        }
        Err(fault) => fault.status(),
    }
}

/// Writes this many bytes of an object, from this offset on.
#[unsafe(no_mangle)]
pub extern "C" fn markring_node_bytes(
    alloc: Global,
    node: &mut NodeHandle,
    object: u16,
    offset: u32,
    count: u32,
    buffer: &mut [u8],
    needed: &mut usize,
) -> i32
    ensures same { node.new.held ≡ node.old.held }
    ensures wrote { Finishes (λ r. WroteIf
        (read (λ n. object_bytes n.node.core.local object offset count) node.old.held) r buffer.old
        buffer.new needed.old needed.new) result }
{
    status(node.bytes(alloc, object, offset, count, buffer, needed))
}

/// How many bytes an object has.
#[unsafe(no_mangle)]
pub extern "C" fn markring_node_bytes_length(
    alloc: Global,
    node: &mut NodeHandle,
    object: u16,
    length: &mut u32,
) -> i32
    ensures { Reads (λ n. object_len n.node.core.local object) (λ x. x)
        node.old.held node.new.held result length.old length.new }
{
    written(node.bytes_len(alloc, object), length)
}

/// Whether an event has changed the node since the image that was kept last.
#[unsafe(no_mangle)]
pub extern "C" fn markring_node_unsaved(alloc: Global, node: &mut NodeHandle, flag: &mut u8) -> i32
    ensures { Reads (λ n. Ok n.is_unsaved) bit
        node.old.held node.new.held result flag.old flag.new }
{
    flagged(node.is_unsaved(alloc), flag)
}

/// The number of the message that waits from another node.
#[unsafe(no_mangle)]
pub extern "C" fn markring_node_waiting(
    alloc: Global,
    node: &mut NodeHandle,
    from: u8,
    number: &mut u64,
) -> i32
    ensures { Reads (λ n. waiting_number n.node from) (λ x. x)
        node.old.held node.new.held result number.old number.new }
{
    written(node.waiting(alloc, from), number)
}

/// Writes the frame in this place of the window to another node.
#[unsafe(no_mangle)]
pub extern "C" fn markring_node_frame_at(
    alloc: Global,
    node: &mut NodeHandle,
    to: u8,
    place: u8,
    buffer: &mut [u8],
    needed: &mut usize,
) -> i32
    ensures same { node.new.held ≡ node.old.held }
    ensures wrote { Finishes (λ r. HandleFrame node.old.held to place r buffer.old buffer.new
        needed.old needed.new) result }
{
    status(node.frame_at(alloc, to, place, buffer, needed))
}

/// Writes the acknowledgement to another node.
#[unsafe(no_mangle)]
pub extern "C" fn markring_node_ack_for(
    alloc: Global,
    node: &mut NodeHandle,
    from: u8,
    buffer: &mut [u8],
    needed: &mut usize,
) -> i32
    ensures same { node.new.held ≡ node.old.held }
    ensures wrote { Finishes (λ r. WroteIf (read (λ n. ack_bytes n.node.core from) node.old.held) r
        buffer.old buffer.new needed.old needed.new) result }
{
    status(node.ack_for(alloc, from, buffer, needed))
}

/// Writes the frames in the window to another node with numbers above this one.
#[unsafe(no_mangle)]
pub extern "C" fn markring_node_frames(
    alloc: Global,
    node: &mut NodeHandle,
    to: u8,
    after: u64,
    buffer: &mut [u8],
    count: &mut usize,
    needed: &mut usize,
) -> i32
    ensures same { node.new.held ≡ node.old.held }
    ensures packs { Numbered (λ r. HandlePacks node.old.held to after r buffer.old buffer.new
        needed.old needed.new) result count.old count.new }
{
    written(node.frames(alloc, to, after, buffer, needed), count)
}

/// The number of bytes of the node's image.
#[unsafe(no_mangle)]
pub extern "C" fn markring_node_image_size(
    alloc: Global,
    node: &mut NodeHandle,
    size: &mut usize,
) -> i32
    ensures { Numbered (Through SizedSame node.old.held node.new.held) result size.old size.new }
{
    written(node.image_size(alloc), size)
}

/// Writes the node's image.
#[unsafe(no_mangle)]
pub extern "C" fn markring_node_image(
    alloc: Global,
    node: &mut NodeHandle,
    buffer: &mut [u8],
    needed: &mut usize,
    mark: &mut u64,
) -> i32
    ensures { Numbered (λ r. HandleImaged node.old.held node.new.held r buffer.old buffer.new
        needed.old needed.new) result mark.old mark.new }
{
    written(node.image(alloc, buffer, needed), mark)
}

/// Keeps a log of the node's events from the next image on, or no more.
#[unsafe(no_mangle)]
pub extern "C" fn markring_node_log(alloc: Global, node: &mut NodeHandle, on: u8) -> i32
    ensures { Finished (Through (Logs (not (on == 0)))) node.old.held node.new.held result }
{
    status(node.log(alloc, on != 0))
}

/// The number of bytes of the next batch.
#[unsafe(no_mangle)]
pub extern "C" fn markring_node_batch_size(
    alloc: Global,
    node: &mut NodeHandle,
    size: &mut usize,
) -> i32
    ensures { Reads (λ n. size_of (batch_of n)) (λ x. x)
        node.old.held node.new.held result size.old size.new }
{
    written(node.batch_size(alloc), size)
}

/// Writes the events since the last image or batch, as a batch.
#[unsafe(no_mangle)]
pub extern "C" fn markring_node_batch(
    alloc: Global,
    node: &mut NodeHandle,
    buffer: &mut [u8],
    needed: &mut usize,
    mark: &mut u64,
) -> i32
    ensures { Numbered (λ r. HandleBatched node.old.held node.new.held r buffer.old buffer.new
        needed.old needed.new) result mark.old mark.new }
{
    written(node.batch(alloc, buffer, needed), mark)
}

/// Counts as saved what the image or batch with this mark holds.
#[unsafe(no_mangle)]
pub extern "C" fn markring_node_kept(alloc: Global, node: &mut NodeHandle, mark: u64) -> i32
    ensures { Finished (Through (Kept mark)) node.old.held node.new.held result }
{
    status(node.kept(alloc, mark))
}

/// Counts everything as saved, without an image.
#[unsafe(no_mangle)]
pub extern "C" fn markring_node_release(alloc: Global, node: &mut NodeHandle) -> i32
    ensures { Finished (Through Released) node.old.held node.new.held result }
{
    status(node.release(alloc))
}
