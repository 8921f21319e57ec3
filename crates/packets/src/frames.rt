//! The frames in a packet, each behind its length.
ghost use Rattle.std.specs.Prelude.{◌≡◌, ◌==◌, ◌+◌, ◌≤◌, ◌<◌, ◌^◌, [], length, nat_le, IfSome, None, Some};
ghost use Rattle.codec.specs.Formats.{Fits};
ghost use Rattle.codec.specs.Pieces.{Adds};
ghost use Rattle.codec.specs.Readers.{Reads};
ghost use Rattle.codec.specs.declared.piece.TheConstants.{GREATEST_PIECE};
ghost use Rattle.packets.specs.Formats.{behind_short, length_format};
ghost use Rattle.packets.specs.Laying.{HasNoFrame, IsFramed, Laid};

use crate::laying::lay;
use codec::{Piece, Reader};

/// What two bytes say before a length that has four.
pub const LONG: u16 = 0xFFFF;

/// The place of a frame in the bytes that begin with its length: from `start` up to `end`.
#[derive(Clone, Copy)]
pub struct Framed {
    pub start: usize,
    pub end: usize,
}

// The number that follows the first two bytes of a length.
fn take_behind(reader: &mut Reader, short: u16) -> u32
    ensures { Reads (behind_short short) reader.old reader.new result }
{
    if short != LONG {
        return u32::from(short);
    }
    let long = reader.u32();
    reader.check(u32::from(LONG) <= long);
    long
}

#[tactic(auto, unfolding(crate::specs::Formats::length_format), using(crate::proofs::Joins::joined_read, crate::proofs::Joins::made))]
fn take_length(reader: &mut Reader) -> u32
    ensures { Reads length_format reader.old reader.new result }
{
    let short = reader.u16();
    take_behind(reader, short)
}

// How many bytes the length of a frame has.
#[tactic(auto, using(crate::proofs::Joins::long_size, crate::proofs::Joins::short_size))]
fn start_of(size: u32) -> usize
    ensures value { result ≡ length (length_format.spell size) }
    ensures few { result ≤ 6 }
{
    if size < u32::from(LONG) { 2 } else { 6 }
}

/// The frame that these bytes begin with, behind its length. None if they begin with no length, or
/// if there are fewer behind it.
pub fn frame(bytes: &[u8]) -> Option<Framed>
    ensures there { IfSome result (λ f. IsFramed bytes.now f.start f.end) }
    ensures none { result ≡ None → HasNoFrame bytes.now }
{
    let mut reader = Reader::new(bytes);
    let size = take_length(&mut reader);
    let start = start_of(size);
    let end = start + size as usize;
    if !reader.is_open() || end > bytes.len() {
        return None;
    }
    Some(Framed { start, end })
}

#[tactic(auto, unfolding(crate::specs::Formats::length_format), using(crate::proofs::Joins::gained))]
fn add_length(piece: &mut Piece, size: u32)
    requires { length piece.old + 6 ≤ GREATEST_PIECE }
    ensures { Adds length_format 6 piece.old piece.new size }
{
    piece.u16(size.min(u32::from(LONG)) as u16);
    if size >= u32::from(LONG) {
        piece.u32(size);
    }
}

/// Puts the length of a frame at the front of these bytes, and returns how many it has. Without
/// room for it, nothing changes, and the result is 0.
pub fn put_frame_length(to: &mut [u8], size: u32) -> usize
    ensures { Laid (length_format.spell size) to.old to.new result }
{
    let mut piece = Piece::new();
    add_length(&mut piece, size);
    lay(to, &piece)
}
