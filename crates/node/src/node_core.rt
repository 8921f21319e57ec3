//! The saved part of a node, and the dispatch of its events. Each event has its own small function,
//! grouped by subject in the files below, with the tests in the order of the rules.
ghost use Rattle.std.specs.Prelude.{◌≡◌, ◌≢◌, ◌<◌, ◌≤◌, IsTrue, IfOk, IfErr};
ghost use Rattle.ids.specs.declared.refusal.Refusal.TheVariants.{Memory, NoNode};
ghost use Rattle.model.specs.Steps.{is_addressed, is_memory_free, is_shading};
ghost use Rattle.model.specs.View.{is_other, Performed, view_act, new_view, kept_view, kept_with};

mod asking;
mod collecting;
mod errands;
mod frames;
mod joining;
mod lacking;
mod letters;
mod objects;
mod parts;
mod reading;
mod receiving;
mod sharing;
mod steps;
mod taking;

use cycles::{Phases, Ring};
use heap::Heap;
use ids::{NodeId, Ref, Refusal, Shape};
pub use lacking::LetterRef;
use link::Links;
use model::{Answer, Event, Summary};
pub use parts::NodeParts;
use remote_marks::RefSet;
use std::alloc::Global;
use std::marker::Model;

/// The part of a node that is saved: its heap, and its part in the collection cycles and in the
/// ring. For each other node it has the messages to there that aren't acknowledged, and how many it
/// received from there. It keeps no early messages.
pub struct Core {
    shape: Shape,
    own: u8,
    heap: Heap,
    // References of other nodes that were asked or vouched for in this cycle, in order.
    asked: RefSet,
    phases: Phases,
    ring: Ring,
    links: Links,
}

// Written out, so that the crates above don't have to prove again how each field is dropped.
impl Drop for Core {
    fn drop(self) {
        let Core {
            shape: _,
            own: _,
            heap: _,
            asked: _,
            phases: _,
            ring: _,
            links: _,
        } = self;
    }
}

impl Model for Core {
    ghost use Rattle.model.specs.View.{NodeView};

    ghost Value = { NodeView };

    ghost use Rattle.node.specs.Inside.{view_of, IsSound};

    ghost view = { view_of };

    ghost invariant = { IsSound };
}

impl Core {
    ghost use Rattle.node.specs.Summaries.{summary_of};
    ghost use Rattle.heap.specs.Heap.{IsSlotted};
    ghost use Rattle.node.specs.Invariant.{IsNode, IsStanding};

    /// Makes a new node of the shape: nothing allocated, nothing sent, nothing received. It fails
    /// with `NoNode` if the shape has no such node, and with `Memory` if an allocation fails.
    pub fn new(alloc: Global, shape: Shape, own: NodeId) -> Result<Core, Refusal>
        ensures made { IfOk result (λ n. n ≡ new_view shape own.number) }
        ensures there { IfOk result (λ _. own.number < shape.nodes) }
        ensures refused { IfErr result
            (λ e. e ≢ Memory → (e ≡ NoNode) × (shape.nodes ≤ own.number)) }
        ensures last { IfErr result (λ e. e ≡ Memory → own.number < shape.nodes) }
    {
        if own.number >= shape.nodes() {
            return Err(Refusal::NoNode);
        }
        Ok(Core {
            shape,
            own: own.number,
            heap: Heap::new(alloc, shape)?,
            asked: RefSet::new(alloc),
            phases: Phases::new(alloc, shape.nodes())?,
            ring: Ring::new(),
            links: Links::new(alloc, shape.nodes())?,
        })
    }

    /// Performs one event, which may shade (`is_shading`). A refused event changes nothing.
    #[inline(always)]
    pub(crate) fn perform(&mut self, event: &Event) -> Result<Answer, Refusal>
        ensures performed { Performed (is_shading event.now) result self.old self.new
            (view_act self.old event.now) }
        ensures memory_free { IsTrue (is_memory_free self.old.local event.now)
            → IfErr result (λ e. e ≢ Memory) }
    {
        match *event {
            Event::Alloc { register, places } => self.allocate(register, places),
            Event::Copy { register, source } => self.copy_register(register, source),
            Event::Drop { register } => self.drop_register(register),
            Event::Load {
                register,
                object,
                place,
            } => self.load(register, object, place),
            Event::Store {
                object,
                place,
                register,
            } => self.store(object, place, register),
            Event::Clear { object, place } => self.clear(object, place),
            Event::Word { object } => self.word(object),
            Event::SetWord { object, word } => self.set_word(object, word),
            Event::SetBytes { object, bytes } => self.set_bytes(object, bytes),
            Event::Patch {
                object,
                offset,
                bytes,
            } => self.patch(object, offset, bytes),
            Event::Give {
                to,
                label,
                register,
            } => self.give(to, label, register),
            Event::Post {
                to,
                label,
                first,
                count,
                bytes,
            } => self.post(to, label, first, count, bytes),
            Event::Accept { register } => self.accept(register),
            Event::Put {
                object,
                place,
                register,
            } => self.put(object, place, register),
            Event::Get {
                object,
                place,
                label,
            } => self.get(object, place, label),
            Event::Fetch {
                object,
                label,
                offset,
                count,
            } => self.fetch(object, label, offset, count),
            Event::Resolve {
                register,
                reference,
            } => self.resolve(register, reference),
            Event::Reclaim { scope } => self.reclaim(scope),
            Event::Begin => self.begin(),
            Event::Scan => self.scan(),
            Event::Pass => self.pass(),
            Event::Sweep { count } => self.sweep(count),
            Event::Next { from } => self.next(from),
            Event::Data(ref frame) => self.take_in(frame),
            Event::Ack(ack) => self.acknowledge(ack),
        }
    }

    /// Marks all messages as held by a saved state, which releases them. Call it after a save.
    pub fn mark_saved(&mut self)
        ensures { self.new ≡ kept_view self.old }
    {
        self.links.mark_saved();
    }

    /// Marks as held by a saved state what was sent to the node `peer` up to the number `sent`, and
    /// what was received from it up to the number `received`. Call it for each peer after the save
    /// of an earlier state, with that state's numbers ([`Core::links`]). A number above the last
    /// one counts as that one, and one that counts as saved already changes nothing. Nothing
    /// changes either if `peer` is no other node of the space. It allocates nothing.
    pub fn mark_saved_to(&mut self, peer: u8, sent: u64, received: u64)
        ensures { self.new ≡ kept_with peer sent received self.old }
    {
        if self.is_other(peer) {
            self.links.mark_saved_to(peer, sent, received);
        }
    }

    /// The node in numbers. The contract also states what holds of every node and of its slots, and
    /// that a node can be made from the parts of this one ([`Core::from_parts`]).
    pub fn state(&self) -> Summary
        ensures value { result ≡ summary_of self.now.local }
        ensures sound { IsNode self.now }
        ensures slots { IsSlotted self.now.local.heap self.now.local.shape.slots }
        ensures saved { IsStanding (kept_view self.now) }
    {
        Summary {
            shape: self.shape,
            own: self.own,
            cycle: self.phases.cycle(),
            ended: self.phases.ended(),
            swept: self.phases.swept(),
            colour: self.ring.colour(),
            earlier: self.ring.earlier(),
            recent: self.ring.recent(),
            grey: self.heap.grey(),
            live: self.heap.live(),
            has_token: self.ring.token().is_some(),
            letters: self.heap.letters(),
        }
    }

    fn is_other(&self, node: u8) -> bool
        ensures { result ≡ is_other self.now.local node }
    {
        node < self.shape.nodes() && node != self.own
    }

    fn is_addressed(&self, from: u8, to: u8) -> bool
        ensures { result ≡ is_addressed self.now.local from to }
    {
        to == self.own && from < self.shape.nodes() && from != self.own
    }
}
