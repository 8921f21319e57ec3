//! A node together with its early messages. These are kept apart from what is saved, and are in no
//! state. So each clause about the core is about the event that reaches the core.
ghost use Rattle.std.specs.Prelude.{◌≡◌, ◌≢◌, ℕ, ◌<◌, ◌≤◌, IsTrue, Ok, Err, Some, true, false, option_copied, IfOk, IfErr, OnOk, OnErr};
ghost use Rattle.std.specs.Option.{option_map};
ghost use Rattle.ids.specs.declared.refusal.Refusal.TheVariants.{Memory, NoNode};
ghost use Rattle.msg.specs.Frames.{plain_ref};
ghost use Rattle.msg.specs.Limits.{is_post};
ghost use Rattle.msg.specs.declared.frame.Data.{Data};
ghost use Rattle.model.specs.Collecting.{scanned_reference};
ghost use Rattle.model.specs.Heaps.{heap_bytes, heap_bytes_len};
ghost use Rattle.model.specs.State.{NodeState};
ghost use Rattle.model.specs.Steps.{act, is_memory_free, is_shading};
ghost use Rattle.model.specs.View.{Shows, Follows, Performs, Leaves, view_act};
ghost use Rattle.model.specs.declared.event.Answer.TheVariants as answer;
ghost use Rattle.model.specs.declared.event.Event.TheVariants as event;
ghost use Rattle.node.specs.Frames.{acknowledgement, released_frame};
ghost use Rattle.node.specs.Invariant.{IsNode};
ghost use Rattle.node.specs.Summaries.{summary_of};
ghost use Rattle.node.specs.Keeping.{
  AreKeptIn,
  Handled,
  after_data,
  alone,
  early_after,
  emptied_at,
  kept_whole,
  kept_whole_with,
  met,
  new_whole,
  placed_at,
  shifted_at,
  waiting,
};

use crate::node_core::Core;
use ids::{NodeId, Refusal, Shape};
use link::EarlyFrames;
use model::{Answer, Event, Summary};
use msg::{Data, FrameRef};
use std::alloc::Global;
use std::marker::Model;

/// One node: its core, which is the part that is saved, and for each other node a ring buffer of
/// [`WINDOW`](ids::WINDOW) places for early messages from there. What the ring buffers hold is in
/// no state and in no image, and a restart loses it.
pub struct Node {
    core: Core,
    // For each node of the space, including itself, in order of their numbers.
    early: Vec<EarlyFrames>,
}

// Written out, so that the crates above don't have to prove again how each field is dropped.
impl Drop for Node {
    fn drop(self) {
        let Node { core: _, early: _ } = self;
    }
}

impl Model for Node {
    ghost use Rattle.node.specs.Keeping.{WholeNode};

    ghost Value = { WholeNode };

    ghost use Rattle.node.specs.Whole.{whole_of, IsWhole};

    ghost view = { whole_of };

    ghost invariant = { IsWhole };
}

impl Node {
    /// Makes a new node of the shape: nothing allocated, nothing sent, nothing received. It fails
    /// with `NoNode` if the shape has no such node, and with `Memory` if an allocation fails.
    pub fn new(alloc: Global, shape: Shape, own: NodeId) -> Result<Node, Refusal>
        ensures made { IfOk result (λ n. n ≡ new_whole shape own.number) }
        ensures there { IfOk result (λ _. own.number < shape.nodes) }
        ensures refused { IfErr result
            (λ e. e ≢ Memory → (e ≡ NoNode) × (shape.nodes ≤ own.number)) }
        ensures last { IfErr result (λ e. e ≡ Memory → own.number < shape.nodes) }
    {
        let core = Core::new(alloc, shape, own)?;
        Node::of(alloc, core)
    }

    /// Makes the node of this core, which keeps no message. It fails with `Memory` if the ring
    /// buffers can't be allocated.
    pub fn of(alloc: Global, core: Core) -> Result<Node, Refusal>
        ensures made { IfOk result (λ n. n ≡ alone core) }
        ensures refused { IfErr result (λ e. e ≡ Memory) }
    {
        let width = core.state().shape.nodes();
        let early = EarlyFrames::for_nodes(alloc, width)?;
        Ok(Node { core, early })
    }

    /// Performs one event. Refusals come in the order in which docs/RULES.md lists them for each
    /// event, and `Memory` comes after all of them, if an allocation fails. `Load`, `Begin`, `Scan`
    /// and a message may also fail with `Memory` in place of `LinkSpent`. A refused event leaves
    /// the core as it was.
    ///
    /// These never fail with `Memory`: `Copy`, `Drop`, `Store`, `Clear`, `Word`, `SetWord`,
    /// `Patch`, `Accept`, `Resolve`, `Ack`, a `Sweep` that leaves slots or is node 0's, and a
    /// `Next` for which no message waits. Nor does a message that isn't the next one, unless it is
    /// early and a letter with references and bytes. `Word`, a repeated message and an early one
    /// also leave the core as it was.
    ///
    /// An early message is kept, unless its place is taken already. `Next` receives the message
    /// that waits, as if it arrived now, and fails with `NothingToDo` if none does. If that message
    /// is refused, it has left its place, unless memory ran out.
    #[inline(always)]
    #[tactic(auto, using(crate::proofs::Held::handled))]
    pub fn act(&mut self, event: &Event) -> Result<Answer, Refusal>
        ensures performs { Performs (is_shading (met self.old.early event.now)) result
            self.new.core (view_act self.old.core (met self.old.early event.now)) }
        ensures states { (s : NodeState) → Shows self.old.core s
            → Follows (met self.old.early event.now) result self.new.core
            (act s (met self.old.early event.now)) }
        ensures unchanged { OnErr result (self.new.core ≡ self.old.core) }
        ensures leaves { Leaves self.old.core self.new.core (met self.old.early event.now) }
        ensures memory_free { IsTrue (is_memory_free self.old.core.local
            (met self.old.early event.now)) → IfErr result (λ e. e ≢ Memory) }
        ensures early { self.new.early
            ≡ early_after self.old.core.local self.old.early event.now result }
        ensures turn { met self.old.early event.now ≢ event.now
            → IfOk result (λ a. a ≡ answer.Received) }
        ensures kept { AreKeptIn self.new }
    {
        // (Separate variables for what the two calls write, so that the answers of all other
        // events need not go through memory.)
        match *event {
            Event::Data(ref frame) => {
                let taken = self.receive(frame);
                taken
            }
            Event::Next { from } => {
                let taken = self.next(from);
                taken
            }
            _ => self.handle(event),
        }
    }

    /// Performs an event to which early messages mean nothing.
    #[inline(always)]
    fn handle(&mut self, other: &Event) -> Result<Answer, Refusal>
        requires waits { (from : ℕ) → other.now ≢ event.Next from }
        requires comes { (frame : Data) → other.now ≢ event.Data frame }
        ensures { Handled self.old self.new other.now result }
    {
        self.core.perform(other)
    }

    /// Receives a message. This is the event [`Event::Data`], as [`Node::act`] performs it; none is
    /// made, since that would copy the message.
    #[inline(always)]
    pub fn receive(&mut self, frame: &Data) -> Result<Answer, Refusal>
        ensures { Handled self.old self.new (event.Data frame.now) result }
    {
        let taken = self.core.taken_from(frame.from);
        let answer = self.core.take_in(frame)?;
        keep(&mut self.early, taken, frame, answer)?;
        Ok(answer)
    }

    #[inline(never)]
    fn next(&mut self, from: u8) -> Result<Answer, Refusal>
        ensures { Handled self.old self.new (event.Next from) result }
    {
        let Some(frame) = front(&self.early, from) else {
            return self.core.next(from);
        };
        match self.core.take_in(frame) {
            Ok(answer) => {
                shift(&mut self.early, from);
                Ok(answer)
            }
            Err(Refusal::Memory) => Err(Refusal::Memory),
            Err(refusal) => {
                drop_front(&mut self.early, from);
                Err(refusal)
            }
        }
    }

    /// Performs [`Event::Scan`] if the object that is scanned next has at most two places, which
    /// name objects of this node alone, marking hasn't ended, and no memory is needed. Returns
    /// whether that is so; otherwise nothing changes. It takes less time than [`Node::act`].
    #[inline(always)]
    pub fn scan_own(&mut self) -> bool
        ensures done { let p = self.old.core.local in IsTrue result
            → Handled self.old self.new event.Scan (Ok (answer.Scanned (scanned_reference p))) }
        ensures unchanged { result ≡ false → self.new ≡ self.old }
    {
        self.core.scan_own()
    }

    /// The frame from that node that waits for [`Event::Next`], if there is one.
    pub fn waiting(&self, from: u8) -> Option<&Data>
        ensures value { option_copied result ≡ waiting self.now.early from }
        ensures kept { AreKeptIn self.now }
    {
        front(&self.early, from)
    }

    /// Marks all messages as held by a saved state, which releases them. Call it after a save.
    pub fn mark_saved(&mut self)
        ensures { self.new ≡ kept_whole self.old }
    {
        self.core.mark_saved();
    }

    /// Marks as held by a saved state what was sent to the node `peer` and received from it, up to
    /// these numbers; see [`Core::mark_saved_to`].
    pub fn mark_saved_to(&mut self, peer: u8, sent: u64, received: u64)
        ensures { self.new ≡ kept_whole_with peer sent received self.old }
    {
        self.core.mark_saved_to(peer, sent, received);
    }

    /// The part of the node that is saved.
    pub fn core(&self) -> &Core
        ensures value { result.now ≡ self.now.core }
        ensures kept { AreKeptIn self.now }
    {
        &self.core
    }

    /// The bytes of the object that the register `object` names; see [`Core::bytes`].
    pub fn bytes(&self, object: u16, offset: u32, count: u32) -> Result<&[u8], Refusal>
        ensures value { let p = self.now.core.local in
            IfOk result (λ b. heap_bytes p.own p.heap object offset count ≡ Ok b.now) }
        ensures refused { let p = self.now.core.local in
            IfErr result (λ e. heap_bytes p.own p.heap object offset count ≡ Err e) }
    {
        self.core.bytes(object, offset, count)
    }

    /// How many bytes the object has that the register `object` names; see [`Core::bytes_len`].
    pub fn bytes_len(&self, object: u16) -> Result<u32, Refusal>
        ensures { let p = self.now.core.local in result ≡ heap_bytes_len p.own p.heap object }
    {
        self.core.bytes_len(object)
    }

    /// The node in numbers.
    pub fn state(&self) -> Summary
        ensures value { result ≡ summary_of self.now.core.local }
        ensures sound { IsNode self.now.core }
    {
        self.core.state()
    }

    /// The frame in this place of the window to another node; see [`Core::frame_at`].
    pub fn frame_at(&self, to: u8, place: u8) -> Option<FrameRef>
        ensures { option_map plain_ref result ≡ released_frame self.now.core to place }
    {
        self.core.frame_at(to, place)
    }

    /// The acknowledgement to another node; see [`Core::ack_for`].
    pub fn ack_for(&self, from: u8) -> Option<FrameRef>
        ensures { option_map plain_ref result ≡ acknowledgement self.now.core from }
    {
        self.core.ack_for(from)
    }
}

fn front(early: &[EarlyFrames], from: u8) -> Option<&Data>
    ensures { option_copied result ≡ waiting early.now from }
{
    early.get(usize::from(from))?.at(0)
}

#[inline(always)]
fn shift(early: &mut Vec<EarlyFrames>, from: u8)
    ensures { early.new.items ≡ shifted_at early.old.items from }
{
    if usize::from(from) < early.len() {
        early[usize::from(from)].shift();
    }
}

fn drop_front(early: &mut Vec<EarlyFrames>, from: u8)
    ensures { early.new.items ≡ emptied_at early.old.items from }
{
    if usize::from(from) < early.len() {
        early[usize::from(from)].drop_front();
    }
}

fn put(early: &mut Vec<EarlyFrames>, from: u8, place: usize, frame: Data)
    ensures { early.new.items ≡ placed_at early.old.items from place frame }
{
    if usize::from(from) < early.len() {
        early[usize::from(from)].put(place, frame);
    }
}

/// Updates the early messages after this message got this answer. Before it, `taken` messages of
/// its sender had been received. It fails with `Memory` if the message is early and can't be
/// copied, which only happens to a letter with references and bytes.
#[inline(always)]
fn keep(early: &mut Vec<EarlyFrames>, taken: u64, frame: &Data, told: Answer) -> Result<(), Refusal>
    ensures done { OnOk result
        (early.new.items ≡ after_data taken early.old.items frame.now (Ok told)) }
    ensures refused { IfErr result (λ e. (e ≡ Memory) × (told ≡ answer.Early)) }
    ensures letter { OnErr result (is_post frame.now.body ≡ true) }
    ensures unchanged { OnErr result (early.new.items ≡ early.old.items) }
{
    match told {
        Answer::Received => {
            shift(early, frame.from);
            Ok(())
        }
        Answer::Early => keep_early(early, taken, frame),
        _ => Ok(()),
    }
}

/// Keeps a copy of an early message.
#[inline(never)]
fn keep_early(early: &mut Vec<EarlyFrames>, taken: u64, frame: &Data) -> Result<(), Refusal>
    ensures done { OnOk result
        (early.new.items ≡ after_data taken early.old.items frame.now (Ok answer.Early)) }
    ensures refused { IfErr result (λ e. e ≡ Memory) }
    ensures letter { OnErr result (is_post frame.now.body ≡ true) }
    ensures unchanged { OnErr result (early.new.items ≡ early.old.items) }
{
    let place = frame.number.saturating_sub(taken).saturating_sub(1);
    put(early, frame.from, place as usize, frame.copy()?);
    Ok(())
}
