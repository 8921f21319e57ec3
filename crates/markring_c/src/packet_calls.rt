//! The calls of `include/markring_packets.h`: what travels between processes, as bytes. What they
//! do is in the crate `packets`.
ghost use Rattle.std.specs.Prelude.{◌≡◌};
ghost use Rattle.packets.specs.Formats.{event_format, freed_format, head_format, length_format};
ghost use Rattle.packets.specs.Formats.{object_format, packet_format, reference_format};
ghost use Rattle.packets.specs.Formats.{request_format, result_format};
ghost use Rattle.packets.specs.Laying.{Laid};
ghost use Rattle.markring_c.specs.Packets.{FrameInto, Gave, ReadInto};

use c_values::{CAnswer, CEvent, CFreed, CObject, CRef};
use packets::{AnswerHead, PacketHead, RequestHead};

// Writes a value, if there is one, and returns whether there is.
fn give<T: Copy>(found: Option<T>, to: &mut T) -> i32
    ensures { Gave found to.old to.new result }
{
    match found {
        Some(value) => {
            *to = value;
            1
        }
        None => 0,
    }
}

/// The head of the packet that the bytes begin with.
#[unsafe(no_mangle)]
pub extern "C" fn markring_packets_read_head(bytes: &[u8], head: &mut PacketHead) -> i32
    ensures { ReadInto packet_format bytes.now head.old head.new result }
{
    give(packets::packet_head(bytes), head)
}

/// Puts the head of a packet at the front of bytes.
#[unsafe(no_mangle)]
pub extern "C" fn markring_packets_put_head(to: &mut [u8], head: &PacketHead) -> usize
    ensures { Laid (packet_format.spell head.now) to.old to.new result }
{
    packets::put_packet_head(to, head)
}

/// The place of the frame that the bytes begin with.
#[unsafe(no_mangle)]
pub extern "C" fn markring_packets_frame(bytes: &[u8], start: &mut usize) -> usize
    ensures { FrameInto bytes.now start.old start.new result }
{
    match packets::frame(bytes) {
        Some(found) => {
            *start = found.start;
            found.end
        }
        None => 0,
    }
}

/// Puts the length of a frame at the front of bytes.
#[unsafe(no_mangle)]
pub extern "C" fn markring_packets_put_length(to: &mut [u8], size: u32) -> usize
    ensures { Laid (length_format.spell size) to.old to.new result }
{
    packets::put_frame_length(to, size)
}

/// The head of the request that the bytes begin with.
#[unsafe(no_mangle)]
pub extern "C" fn markring_packets_read_request(bytes: &[u8], head: &mut RequestHead) -> i32
    ensures { ReadInto request_format bytes.now head.old head.new result }
{
    give(packets::request_head(bytes), head)
}

/// The event that the bytes begin with.
#[unsafe(no_mangle)]
pub extern "C" fn markring_packets_read_event(bytes: &[u8], event: &mut CEvent) -> i32
    ensures { ReadInto event_format bytes.now event.old event.new result }
{
    give(packets::event(bytes), event)
}

/// The reference that the bytes begin with.
#[unsafe(no_mangle)]
pub extern "C" fn markring_packets_read_reference(bytes: &[u8], reference: &mut CRef) -> i32
    ensures { ReadInto reference_format bytes.now reference.old reference.new result }
{
    give(packets::reference(bytes), reference)
}

/// Puts the head of an answer at the front of bytes.
#[unsafe(no_mangle)]
pub extern "C" fn markring_packets_put_answer(to: &mut [u8], head: &AnswerHead) -> usize
    ensures { Laid (head_format.spell head.now) to.old to.new result }
{
    packets::put_answer_head(to, head)
}

/// Puts the result of an event at the front of bytes.
#[unsafe(no_mangle)]
pub extern "C" fn markring_packets_put_result(to: &mut [u8], status: u16, answer: &CAnswer) -> usize
    ensures { Laid (result_format.spell (status, answer.now)) to.old to.new result }
{
    packets::put_result(to, status, answer)
}

/// Puts a reference at the front of bytes.
#[unsafe(no_mangle)]
pub extern "C" fn markring_packets_put_reference(to: &mut [u8], reference: &CRef) -> usize
    ensures { Laid (reference_format.spell reference.now) to.old to.new result }
{
    packets::put_reference(to, reference)
}

/// Puts an object that was freed at the front of bytes.
#[unsafe(no_mangle)]
pub extern "C" fn markring_packets_put_freed(to: &mut [u8], freed: &CFreed) -> usize
    ensures { Laid (freed_format.spell freed.now) to.old to.new result }
{
    packets::put_freed(to, freed)
}

/// Puts an object at the front of bytes.
#[unsafe(no_mangle)]
pub extern "C" fn markring_packets_put_object(to: &mut [u8], object: &CObject) -> usize
    ensures { Laid (object_format.spell object.now) to.old to.new result }
{
    packets::put_object(to, object)
}
