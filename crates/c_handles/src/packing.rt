//! Frames that are put one after another into a buffer of the caller's, each after its length and
//! its number.
ghost use Rattle.std.specs.Prelude.{◌≡◌, ◌+◌, ◌<◌, ◌≤◌, ◌^◌, List, ℕ, length, true, false, IfErr, IfOk, OnOk};
ghost use Rattle.std.specs.Option.{option_map};
ghost use Rattle.msg.specs.Frames.{plain_ref};
ghost use Rattle.frames.specs.Grammar.{is_letter, spelling};
ghost use Rattle.ids.specs.declared.refusal.Refusal.TheVariants.{Memory};
ghost use Rattle.c_handles.specs.Frames.{Holds, IsLetter, Packed, number_of, pack, pack_above, packed};
ghost use Rattle.c_handles.specs.declared.packing.TheConstants.{MOST_PACKED};

use codec::Piece;
use frames::encode;
use frames::writing::{add_frame, is_short};
use ids::Refusal;
use msg::FrameRef;
use std::alloc::Global;

/// The most bytes that a frame takes in a buffer, with its length and its number.
const MOST_PACKED: usize = 70_000;

/// How many parts are in a buffer, and how many bytes all parts would take.
#[derive(Drop)]
pub(crate) struct Packing {
    pub(crate) count: usize,
    pub(crate) needed: usize,
}

/// The bytes of a short frame.
pub(crate) fn spelled(frame: &FrameRef) -> Piece
    requires { is_letter (plain_ref frame.now) ≡ false }
    ensures { result ≡ spelling (plain_ref frame.now) }
{
    let mut piece = Piece::new();
    add_frame(&mut piece, frame);
    piece
}

// The number of a frame.
fn number_of(frame: &FrameRef) -> u64
    ensures { result ≡ number_of (plain_ref frame.now) }
{
    match frame {
        FrameRef::Data(data) => data.number,
        FrameRef::Ack(ack) => ack.number,
    }
}

// The bytes of a short frame after their number and the frame's.
#[tactic(auto, using(crate::proofs::Short::frame_short))]
fn packed(frame: &FrameRef) -> Piece
    requires { is_letter (plain_ref frame.now) ≡ false }
    ensures { result ≡ packed (plain_ref frame.now) }
{
    let bytes = spelled(frame);
    let len = bytes.as_slice().len();
    let mut piece = Piece::new();
    piece.append(&(len as u32).to_be_bytes());
    piece.append(&number_of(frame).to_be_bytes());
    piece.append(bytes.as_slice());
    piece
}

// The same for a frame of any length. It fails with `Memory`.
#[inline(never)]
#[tactic(auto, using(crate::proofs::Short::frame_within))]
fn packed_long(alloc: Global, frame: &FrameRef) -> Result<Vec<u8>, Refusal>
    ensures packed { IfOk result (λ v. v.items ≡ packed (plain_ref frame.now)) }
    ensures within { IfOk result (λ v. length v.items ≤ MOST_PACKED) }
    ensures refused { IfErr result (λ e. e ≡ Memory) }
{
    let bytes = encode(alloc, frame)?;
    let mut part = Vec::from_slice(alloc, &(bytes.len() as u32).to_be_bytes())?;
    part.extend_from_slice(&number_of(frame).to_be_bytes())?;
    part.extend_from_slice(&bytes)?;
    Ok(part)
}

impl Packing {
    // Puts one more part into the buffer, if it fits.
    fn add(&mut self, part: &[u8], buffer: &mut [u8])
        requires room { self.old.needed + length part.now < 2 ^ 63 }
        requires few { self.old.count < 2 ^ 32 }
        ensures added { (whole : List ℕ) (p : Packed) → Holds whole p self.old buffer.old
            → Holds whole (pack (length whole) p part.now) self.new buffer.new }
        ensures needed { self.new.needed ≡ self.old.needed + length part.now }
        ensures count { self.new.count ≤ self.old.count + 1 }
    {
        let start = self.needed;
        let end = start + part.len();
        self.needed = end;
        if end <= buffer.len() {
            buffer[start..end].copy_from_slice(part);
            self.count += 1;
        }
    }

    // Puts a frame into the buffer after its length and its number, if it fits. It fails with
    // `Memory`, and only for a letter with references and bytes.
    fn add_frame(
        &mut self,
        alloc: Global,
        frame: &FrameRef,
        buffer: &mut [u8],
    ) -> Result<(), Refusal>
        requires room { self.old.needed < 2 ^ 32 }
        requires few { self.old.count < 2 ^ 32 }
        ensures added { OnOk result
            ((whole : List ℕ) (p : Packed) → Holds whole p self.old buffer.old
            → Holds whole (pack (length whole) p (packed (plain_ref frame.now))) self.new
            buffer.new) }
        ensures needed { self.new.needed ≤ self.old.needed + MOST_PACKED }
        ensures count { self.new.count ≤ self.old.count + 1 }
        ensures refused { IfErr result
            (λ e. (e ≡ Memory) × (is_letter (plain_ref frame.now) ≡ true)) }
    {
        if is_short(frame) {
            self.add(packed(frame).as_slice(), buffer);
            return Ok(());
        }
        let part = packed_long(alloc, frame)?;
        self.add(&part, buffer);
        Ok(())
    }

    /// Puts a frame into the buffer after its length and its number, if its number is above this
    /// one and it fits. It fails with `Memory`, and only for a letter with references and bytes.
    pub(crate) fn add_above(
        &mut self,
        alloc: Global,
        after: u64,
        frame: Option<FrameRef>,
        buffer: &mut [u8],
    ) -> Result<(), Refusal>
        requires room { self.old.needed < 2 ^ 32 }
        requires few { self.old.count < 2 ^ 32 }
        ensures added { OnOk result
            ((whole : List ℕ) (p : Packed) → Holds whole p self.old buffer.old
            → Holds whole (pack_above (length whole) after p (option_map plain_ref frame.entry))
            self.new buffer.new) }
        ensures needed { self.new.needed ≤ self.old.needed + MOST_PACKED }
        ensures count { self.new.count ≤ self.old.count + 1 }
        ensures refused { IfErr result
            (λ e. (e ≡ Memory) × IsLetter (option_map plain_ref frame.entry)) }
    {
        let Some(frame) = frame else {
            return Ok(());
        };
        if after < number_of(&frame) {
            return self.add_frame(alloc, &frame, buffer);
        }
        Ok(())
    }
}
