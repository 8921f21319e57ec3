//! The frames that a node's caller sends to other nodes. Only letters with references and bytes
//! take memory.
ghost use Rattle.c_values.specs.Bytes.{WroteIf};
ghost use Rattle.c_values.specs.declared.fault.Fault.TheVariants as fault;
ghost use Rattle.std.specs.Prelude.{◌≡◌, ◌⊎◌, ℕ, length, Ok, Err, IfErr, IfOk};
ghost use Rattle.ids.specs.declared.refusal.Refusal.TheVariants.{Memory};
ghost use Rattle.msg.specs.Frames.{plain_ref};
ghost use Rattle.frames.specs.Grammar.{spelling};
ghost use Rattle.node.specs.Frames.{released_frame};
ghost use Rattle.c_handles.specs.Frames.{Holds, IsLetter, Packs, WroteFrame, ack_bytes, window};

use super::LoneNode;
use super::reading::other_node;
use crate::packing::{Packing, spelled};
use c_values::{Fault, put};
use frames::encode;
use frames::writing::is_short;
use ids::{Refusal, WINDOW};
use msg::FrameRef;
use node::Node;
use std::alloc::Global;

impl LoneNode {
    /// Writes the frame in this place of the window to another node. Fails with `BadArgument` if
    /// the window has no such place, then with `NoNode`, with `Nothing` if no released message is
    /// there, with `Memory`, and with `ShortBuffer`.
    pub fn frame_at(
        &self,
        alloc: Global,
        to: u8,
        place: u8,
        buffer: &mut [u8],
        needed: &mut usize,
    ) -> Result<(), Fault>
        ensures { WroteFrame self.now.node.core to place result buffer.old buffer.new needed.old
            needed.new }
    {
        if place >= WINDOW {
            return Err(Fault::BadArgument);
        }
        other_node(self.logged.node.core(), to)?;
        let Some(frame) = self.logged.node.frame_at(to, place) else {
            return Err(Fault::Nothing);
        };
        if !is_short(&frame) {
            return put_long(alloc, &frame, buffer, needed);
        }
        put(spelled(&frame).as_slice(), buffer, needed)
    }

    /// Writes the acknowledgement to another node. Fails with `NoNode`, and with `ShortBuffer`.
    pub fn ack_for(&self, from: u8, buffer: &mut [u8], needed: &mut usize) -> Result<(), Fault>
        ensures { WroteIf (ack_bytes self.now.node.core from) result buffer.old buffer.new
            needed.old needed.new }
    {
        other_node(self.logged.node.core(), from)?;
        let Some(frame) = self.logged.node.ack_for(from) else {
            return Err(Fault::Nothing);
        };
        put(spelled(&frame).as_slice(), buffer, needed)
    }

    /// Writes the frames in the window to another node with numbers above this one, each after its
    /// length and its number, and returns how many fit. Fails with `NoNode`, with `Memory`, with
    /// `Nothing` if there is no such frame, and with `ShortBuffer` if not even the first fits.
    pub fn frames(
        &self,
        alloc: Global,
        to: u8,
        after: u64,
        buffer: &mut [u8],
        needed: &mut usize,
    ) -> Result<usize, Fault>
        ensures { Packs self.now.node.core to after result buffer.old buffer.new needed.old
            needed.new }
    {
        other_node(self.logged.node.core(), to)?;
        let packing = pack_window(alloc, &self.logged.node, to, after, buffer)?;
        if packing.needed == 0 {
            return Err(Fault::Nothing);
        }
        *needed = packing.needed;
        if packing.count == 0 {
            return Err(Fault::ShortBuffer);
        }
        Ok(packing.count)
    }
}

// Writes a frame of any length. It fails with `Memory`, and with `ShortBuffer`.
#[inline(never)]
fn put_long(
    alloc: Global,
    frame: &FrameRef,
    buffer: &mut [u8],
    needed: &mut usize,
) -> Result<(), Fault>
    ensures { WroteIf (Ok (spelling (plain_ref frame.now))) result buffer.old buffer.new needed.old
        needed.new
        ⊎ ((result ≡ Err (fault.Refused Memory)) × (buffer.new ≡ buffer.old)
        × (needed.new ≡ needed.old)) }
{
    let bytes = encode(alloc, frame)?;
    put(&bytes, buffer, needed)
}

// Puts the frames of a window into the buffer, as many as fit. It fails with `Memory`.
fn pack_window(
    alloc: Global,
    node: &Node,
    to: u8,
    after: u64,
    buffer: &mut [u8],
) -> Result<Packing, Refusal>
    ensures packed { IfOk result (λ packing.
        Holds buffer.old (window (length buffer.old) node.now.core to after) packing buffer.new) }
    ensures refused { IfErr result
        (λ e. (e ≡ Memory) × ((place : ℕ) × IsLetter (released_frame node.now.core to place))) }
{
    let mut packing = Packing {
        count: 0,
        needed: 0,
    };
    for place in 0..WINDOW {
        packing.add_above(alloc, after, node.frame_at(to, place), buffer)?;
    }
    Ok(packing)
}
