//! The frames of one node's messages to another: those that were released, followed by those that a
//! save is to release. The latter count only when nothing in the save can fail any more.
ghost use Rattle.std.specs.Prelude.{◌≡◌, ◌≢◌, ◌≤◌, ◌<◌, ◌++◌, [], ◌∷◌, ℕ, length, map, take, replicate, slice_index_or, IsTrue, IfOk, IfErr, OnOk, OnErr};
ghost use Rattle.std.specs.Option.{option_map};
ghost use Rattle.ids.specs.declared.refusal.Refusal.TheVariants.{Memory};
ghost use Rattle.msg.specs.Frames.{plain_ref};
ghost use Rattle.frames.specs.Grammar.{Fits, spelling};
ghost use Rattle.model.specs.View.{link_to, is_other};
ghost use Rattle.node.specs.Invariant.{IsNode};
ghost use Rattle.world.specs.Outboxes.{no_outbox, released_frames, all_released, numbered_bytes, IsStaged, Stages, HasFrames, AreStagedTo, Releases};

use crate::packed::Frames;
use codec::Piece;
use frames::encode;
use frames::writing::{add_frame, is_short};
use ids::Refusal;
use msg::FrameRef;
use node::Core;
use std::alloc::Global;
use std::marker::Model;

/// The frames of one node's messages to another: those that were released, followed by those that
/// the present save is to release.
#[derive(Drop)]
pub struct Outbox {
    frames: Frames,
    released: usize,
}

impl Model for Outbox {
    ghost use Rattle.world.specs.Outboxes.{OutboxView};

    ghost Value = { OutboxView };

    ghost use Rattle.world.specs.InsideOutbox.{view_of, IsWhole};

    ghost view = { view_of };

    ghost invariant = { IsWhole };
}

impl Outbox {
    /// Makes an outbox without frames.
    pub fn new(alloc: Global) -> Outbox
        ensures { result ≡ no_outbox }
    {
        Outbox {
            frames: Frames::new(alloc),
            released: 0,
        }
    }

    /// The bytes of the frame of this number, if it was released.
    pub fn frame(&self, number: u64) -> Option<&[u8]>
        ensures { option_map (λ b. b.now) result
            ≡ numbered_bytes (released_frames self.now) number }
    {
        let place = number.checked_sub(1)? as usize;
        if place < self.released {
            Some(self.frames.get(place))
        } else {
            None
        }
    }

    /// Makes the frames of all messages to the node `to` that follow the released ones, but
    /// releases none. Fails with `Memory` if allocation fails.
    #[inline(always)]
    pub fn stage(&mut self, node: &Core, to: u8) -> Result<(), Refusal>
        requires other { IsTrue (is_other node.now.local to) }
        requires kept { (link_to node.now to).base ≤ length (released_frames self.old) }
        ensures { Stages node.now to self.old self.new result }
    {
        // Most often there is no new message, nor a frame of a save that was refused.
        if self.released as u64 >= node.appended(to) && self.frames.len() == self.released {
            return Ok(());
        }
        self.stage_new(node, to)
    }

    #[inline(always)]
    fn stage_new(&mut self, node: &Core, to: u8) -> Result<(), Refusal>
        requires other { IsTrue (is_other node.now.local to) }
        requires kept { (link_to node.now to).base ≤ length (released_frames self.old) }
        ensures { Stages node.now to self.old self.new result }
    {
        self.frames.truncate(self.released);
        stage_frames(&mut self.frames, node, to)
    }

    /// Releases all frames that were made.
    pub fn release(&mut self)
        ensures { self.new ≡ all_released self.old }
    {
        self.released = self.frames.len();
    }
}

fn stage_frames(frames: &mut Frames, node: &Core, to: u8) -> Result<(), Refusal>
    requires other { IsTrue (is_other node.now.local to) }
    requires kept { (link_to node.now to).base ≤ length frames.old }
    ensures kept { take (length frames.old) frames.new ≡ frames.old }
    ensures staged { OnOk result (IsStaged node.now to frames.old frames.new) }
    ensures refused { IfErr result (λ e. e ≡ Memory) }
{
    let last = node.appended(to);
    for place in frames.len() as u64..last {
        let Some(frame) = node.numbered_frame(to, place + 1) else {
            unreachable!()
        };
        push_frame(frames, &frame)?;
    }
    Ok(())
}

/// Appends the bytes of a frame.
#[inline(always)]
fn push_frame(frames: &mut Frames, frame: &FrameRef) -> Result<(), Refusal>
    ensures spelled { OnOk result (Fits (plain_ref frame.now)) }
    ensures done { OnOk result (frames.new ≡ frames.old ++ spelling (plain_ref frame.now) ∷ []) }
    ensures unchanged { OnErr result (frames.new ≡ frames.old) }
    ensures refused { IfErr result (λ e. e ≡ Memory) }
{
    if !is_short(frame) {
        return push_long(frames, frame);
    }
    let mut piece = Piece::new();
    add_frame(&mut piece, frame);
    frames.push(piece.as_slice())
}

/// The same for a frame of any length.
#[inline(never)]
fn push_long(frames: &mut Frames, frame: &FrameRef) -> Result<(), Refusal>
    ensures spelled { OnOk result (Fits (plain_ref frame.now)) }
    ensures done { OnOk result (frames.new ≡ frames.old ++ spelling (plain_ref frame.now) ∷ []) }
    ensures unchanged { OnErr result (frames.new ≡ frames.old) }
    ensures refused { IfErr result (λ e. e ≡ Memory) }
{
    let bytes = encode(frames.allocator(), frame)?;
    frames.push(&bytes)
}

/// Makes an outbox to each of `count` nodes. Fails with `Memory` if allocation fails.
pub fn new_outboxes(alloc: Global, count: u8) -> Result<Vec<Outbox>, Refusal>
    ensures made { IfOk result (λ v. v.items ≡ replicate count no_outbox) }
    ensures refused { IfErr result (λ e. e ≡ Memory) }
{
    let mut row = Vec::new(alloc);
    for _node in 0..count {
        row.push(Outbox::new(alloc))?;
    }
    Ok(row)
}

/// Makes and releases the frames of all messages to other nodes that the node has appended since
/// the released ones. Fails with `Memory` if allocation fails; then none is released.
pub fn release_all(row: &mut [Outbox], node: &Core) -> Result<(), Refusal>
    requires row { length row.old ≡ node.now.local.shape.nodes }
    requires kept { HasFrames node.now (map released_frames row.old) }
    ensures done { OnOk result
        (Releases node.now (map released_frames row.old) (map released_frames row.new)) }
    ensures node { OnOk result (IsNode node.now) }
    ensures unchanged { OnErr result (map released_frames row.new ≡ map released_frames row.old) }
    ensures refused { IfErr result (λ e. e ≡ Memory) }
{
    stage_all(row, node)?;
    release_staged(row);
    Ok(())
}

/// Makes these frames, but releases none.
fn stage_all(row: &mut [Outbox], node: &Core) -> Result<(), Refusal>
    requires row { length row.old ≡ node.now.local.shape.nodes }
    requires kept { HasFrames node.now (map released_frames row.old) }
    ensures released { map released_frames row.new ≡ map released_frames row.old }
    ensures staged { OnOk result
        (AreStagedTo (length row.old) node.now (map released_frames row.old) row.new) }
    ensures node { OnOk result (IsNode node.now) }
    ensures refused { IfErr result (λ e. e ≡ Memory) }
{
    let summary = node.state();
    for to in 0..summary.shape.nodes() {
        if to != summary.own {
            let outbox = &mut row[usize::from(to)];
            outbox.stage(node, to)?;
        }
    }
    Ok(())
}

/// Releases all frames that were made.
fn release_staged(row: &mut [Outbox])
    ensures { row.new ≡ map all_released row.old }
{
    for outbox in row.iter_mut() {
        outbox.release();
    }
}
