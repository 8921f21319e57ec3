//! What travels between the processes of a space, and between a process and its programs, as
//! bytes: heads of packets, of requests and of answers, and the records behind them. Whoever sends
//! bytes may be hostile: what is read is exactly what they spell.
//!
//! docs/FORMATS.md ("Packets") has the tables. A value has one spelling, and none is a prefix of
//! another one ([`spellings`]).
#![tactic(auto)]

mod frames;
mod heads;
mod laying;
mod records;

ghost use Rattle.codec.specs.Reading.{IsSound};
ghost use Rattle.packets.specs.Formats.{event_format, freed_format, head_format, length_format, object_format};
ghost use Rattle.packets.specs.Formats.{packet_format, reference_format, request_format, result_format};

pub use frames::{Framed, LONG, frame, put_frame_length};
pub use heads::{
    ANSWER, AnswerHead, PACKET, PacketHead, REQUEST, RequestHead, packet_head, put_answer_head,
    put_packet_head, request_head,
};
pub use records::{event, put_freed, put_object, put_reference, put_result, reference};

/// Each value has one spelling, and is read from it, whatever follows. The function does nothing;
/// its contract states the law.
#[tactic(auto, using(crate::proofs::Sound::sounds))]
pub fn spellings()
    ensures packet_head { IsSound packet_format }
    ensures request_head { IsSound request_format }
    ensures answer_head { IsSound head_format }
    ensures event { IsSound event_format }
    ensures result { IsSound result_format }
    ensures reference { IsSound reference_format }
    ensures freed { IsSound freed_format }
    ensures object { IsSound object_format }
{}
