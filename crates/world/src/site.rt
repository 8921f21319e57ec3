//! One node of a space, the image of the one saved last, and the frames that were released. A
//! restart reads the image and a delivery reads the frame, so what is proved of them holds of
//! bytes.
ghost use Rattle.std.specs.Prelude.{◌≡◌, ◌≢◌, ◌<◌, length, true, Err, IsTrue, IfOk, IfErr, OnOk, OnErr, slice_index_or, ◌↔◌};
ghost use Rattle.std.specs.Option.{option_map};
ghost use Rattle.ids.specs.declared.refusal.Refusal.TheVariants.{Memory, ImageTooLarge};
ghost use Rattle.image.specs.Images.{IsTooLarge};
ghost use Rattle.model.specs.View.{is_other};
ghost use Rattle.node.specs.Invariant.{IsNode};
ghost use Rattle.msg.specs.declared.frame.Data.{Data};
ghost use Rattle.model.specs.declared.event.Event.TheVariants as event;
ghost use Rattle.world.specs.Outboxes.{numbered_bytes};
ghost use Rattle.world.specs.Sites.{
  ActedKeeping,
  IsLetterOf,
  Saves,
  frames_to,
  new_keeping,
  restarted,
  whole_at,
};

use crate::outbox::{Outbox, new_outboxes, release_all};
use crate::saved::SavedNode;
use frames::reading::read_letter_head;
use ids::{GREATEST_PLACES, NodeId, Refusal, Shape};
use image::{to_bytes, to_bytes_over};
use model::{Answer, Event};
use msg::{Ack, Data, FrameRef};
use node::{Core, LetterRef, Node};
use std::alloc::Global;
use std::marker::Model;

// How many references a letter may have.
const MOST: usize = GREATEST_PLACES as usize;

/// One node of a space: the current node, the image of the one saved last, and for each node the
/// frames of all messages to it that were ever released.
pub struct Site {
    current: Node,
    saved: SavedNode,
    outboxes: Vec<Outbox>,
}

// Written out, so that the crates above need not prove again how each field is dropped.
impl Drop for Site {
    fn drop(self) {
        let Site {
            current: _,
            saved: _,
            outboxes: _,
        } = self;
    }
}

impl Model for Site {
    ghost use Rattle.world.specs.Sites.{KeepingSite};

    ghost Value = { KeepingSite };

    ghost use Rattle.world.specs.InsideSite.{view_of, IsSound};

    ghost view = { view_of };

    ghost invariant = { IsSound };
}

impl Site {
    /// Makes the site of a new node, which counts as saved. Fails with `Memory` if allocation
    /// fails.
    pub fn new(alloc: Global, shape: Shape, own: NodeId) -> Result<Site, Refusal>
        requires { own.number < shape.nodes }
        ensures made { IfOk result (λ s. s ≡ new_keeping shape own.number) }
        ensures refused { IfErr result (λ e. e ≡ Memory) }
    {
        let outboxes = new_outboxes(alloc, shape.nodes())?;
        let current = Node::new(alloc, shape, own)?;
        let saved = SavedNode::new(to_bytes(alloc, &current)?, current.core());
        Ok(Site {
            current,
            saved,
            outboxes,
        })
    }

    /// The current node.
    pub fn node(&self) -> &Node
        ensures { result.now ≡ whole_at self.now }
    {
        &self.current
    }

    /// Makes the saved node from its image. Fails with `Memory` if allocation fails.
    pub fn saved(&self, alloc: Global) -> Result<Core, Refusal>
        ensures same { IfOk result (λ n. n ≡ self.now.site.saved) }
        ensures refused { IfErr result (λ e. e ≡ Memory) }
    {
        self.saved.read(alloc)
    }

    /// Gives the current node an event, and fails with whatever the node refuses. If it fails, the
    /// site is as before, except that an early message may have left its place.
    #[inline(always)]
    pub fn act(&mut self, event: &Event) -> Result<Answer, Refusal>
        ensures { ActedKeeping result self.old self.new event.now }
    {
        self.current.act(event)
    }

    /// Gives the current node a message, as [`Site::act`] does with its event.
    #[inline(always)]
    pub fn receive(&mut self, message: &Data) -> Result<Answer, Refusal>
        ensures { ActedKeeping result self.old self.new (event.Data message.now) }
    {
        self.current.receive(message)
    }

    /// The current node's answer to a letter for whose references and bytes memory ran out; see
    /// [`Core::lack`]. The bytes spell the letter. Nothing changes.
    #[inline(never)]
    pub fn lack(&self, bytes: &[u8]) -> Result<Answer, Refusal>
        ensures { (d : Data) → IsLetterOf bytes.now d
            → ActedKeeping result self.now self.now (event.Data d) }
    {
        let mut row = [None; MOST];
        let head = read_letter_head(bytes, &mut row);
        let letter = LetterRef {
            from: head.from,
            to: head.to,
            number: head.number,
            stamp: head.stamp,
            references: &row[..head.references],
            bytes: head.bytes,
        };
        self.current.core().lack(&letter)
    }

    /// Saves the current node as its image, and releases the frames of all its messages. Fails with
    /// `ImageTooLarge` if the image is too large, which it never is in a wide space, and otherwise
    /// with `Memory` if allocation fails. If it fails, nothing changes.
    pub fn save(&mut self, alloc: Global) -> Result<(), Refusal>
        ensures done { OnOk result (Saves self.old.site self.new.site) }
        ensures early { self.new.early ≡ self.old.early }
        ensures node { OnOk result (IsNode self.old.site.current) }
        ensures unchanged { OnErr result (self.new ≡ self.old) }
        ensures refused { IfErr result (λ e. e ≢ Memory → e ≡ ImageTooLarge) }
        ensures too_large { result ≡ Err ImageTooLarge ↔ IsTooLarge self.old.site.current }
        ensures wide { self.old.site.current.local.shape.wide ≡ true
            → IfErr result (λ e. e ≢ ImageTooLarge) }
    {
        let spare = self.saved.take_spare(alloc);
        let image = to_bytes_over(spare, &self.current)?;
        release_all(&mut self.outboxes, self.current.core())?;
        self.current.mark_saved();
        self.saved.renew(image, self.current.core());
        Ok(())
    }

    /// Makes the saved node, from its image, the current one. Early messages that were kept are
    /// lost. Fails with `Memory` if allocation fails; then nothing changes.
    pub fn restart(&mut self, alloc: Global) -> Result<(), Refusal>
        ensures done { OnOk result (self.new ≡ restarted self.old) }
        ensures unchanged { OnErr result (self.new ≡ self.old) }
        ensures refused { IfErr result (λ e. e ≡ Memory) }
    {
        let core = self.saved.read(alloc)?;
        self.current = Node::of(alloc, core)?;
        Ok(())
    }

    /// The bytes of the frame of this number to another node, if it was released.
    pub fn frame(&self, to: u8, number: u64) -> Option<&[u8]>
        ensures { option_map (λ b. b.now) result
            ≡ numbered_bytes (frames_to self.now.site to) number }
    {
        self.outboxes.get(usize::from(to))?.frame(number)
    }

    /// What the saved node acknowledges to another node of its space. The current node knows it.
    pub fn acknowledgement(&self, from: u8) -> Ack
        requires { IsTrue (is_other self.now.site.current.local from) }
        ensures by { result.by ≡ self.now.site.current.local.own }
        ensures of { result.of ≡ from }
        ensures number { result.number ≡ slice_index_or self.now.site.saved.acks from 0 }
    {
        match self.current.ack_for(from) {
            Some(FrameRef::Ack(ack)) => ack,
            _ => unreachable!(),
        }
    }
}
