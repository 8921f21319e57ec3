//! A node as C holds it: a pointer to a [`LoneNode`], or null.
ghost use Rattle.std.specs.Prelude.{◌≡◌, ◌&&◌, false, None, Some, Ok, Option, IfSome};
ghost use Rattle.std.specs.Coded.{coded_option};
ghost use Rattle.c_handles.specs.Holds.{unboxed};
ghost use Rattle.c_handles.specs.declared.lone.LoneNode.{LoneNode};
ghost use Rattle.c_handles.specs.contracts.lone.LoneNode.{the_row as LoneRow};
ghost use Rattle.model.specs.declared.event.Event.TheVariants as events;
ghost use Rattle.node.specs.Summaries.{summary_of};
ghost use Rattle.node_store.specs.Logs.{is_turn};
ghost use Rattle.c_values.specs.Faults.{Filled, Freed, Through, empty, read};
ghost use Rattle.c_values.specs.Bytes.{WroteIf};
ghost use Rattle.c_values.specs.Fields.{described};
ghost use Rattle.model.specs.Steps.{frees};
ghost use Rattle.c_handles.specs.Frames.{HandleFrame, HandlePacks, ack_bytes};
ghost use Rattle.c_handles.specs.Batches.{HandleBatched, Reopened, batch_of, size_of};
ghost use Rattle.c_handles.specs.Images.{HandleImaged, Kept, Logs, Released, SizedSame};
ghost use Rattle.c_handles.specs.Logs.{logs_in};
ghost use Rattle.c_handles.specs.Lone.{Made, NodeActs, Read, TookIn};
ghost use Rattle.c_handles.specs.Reads.{link_of, object_bytes, object_len, register_of, waiting_number};
ghost use Rattle.c_handles.specs.Work.{NodeWorks, WorksIf};

mod freed;
mod letters;
mod objects;

use crate::Marked;
use crate::held::Held;
use crate::lone::LoneNode;
use c_values::{CLink, CShape, CWork, Fault};
use ids::Ref;
use model::{Answer, Event};
use node::Summary;
use std::alloc::Global;
use std::marker::{Model, Send};

/// What C holds of a node. Null is an empty handle. Only C copies its bytes, so it can't be dropped
/// here.
#[repr(C)]
pub struct NodeHandle {
    at: *mut u8,
    pub ghost held: { Option LoneNode } by { coded_option LoneRow.coded },
}

impl Model for NodeHandle {
    ghost use Rattle.c_handles.specs.Holds.{holds};
    ghost use Rattle.c_handles.specs.contracts.lone.LoneNode.{the_row as LoneRow};

    ghost also_owns = { λ h. holds LoneRow h.at h.held };
}

unsafe impl Send for NodeHandle {}

impl NodeHandle {
    // Exchanges what the handle holds.
    fn swap(&mut self, held: Held<LoneNode>) -> Held<LoneNode>
        ensures { (self.new.held ≡ held.value) × (result.value ≡ self.old.held) }
    {
        let Held { at } = held;
        let old = self.at;
        self.at = at as *mut u8;
        Held {
            at: old as *mut LoneNode,
        }
    }

    // Takes out what the handle holds.
    #[inline(always)]
    fn take(&mut self, alloc: Global) -> Option<Box<LoneNode>>
        ensures taken { unboxed result ≡ self.old.held }
        ensures empty { self.new.held ≡ None }
    {
        self.swap(Held::none()).into_box(alloc)
    }

    // Puts a node into the handle; what it held is dropped.
    #[inline(always)]
    fn put(&mut self, alloc: Global, node: Box<LoneNode>)
        ensures { self.new.held ≡ Some node.value }
    {
        let _none = self.swap(Held::of(node)).into_box(alloc);
    }

    // Fails with `InUse` unless the handle is empty.
    fn test_empty(&mut self, alloc: Global) -> Result<(), Fault>
        ensures same { self.new.held ≡ self.old.held }
        ensures empty { result ≡ empty self.old.held }
    {
        match self.take(alloc) {
            Some(node) => {
                self.put(alloc, node);
                Err(Fault::InUse)
            }
            None => Ok(()),
        }
    }

    /// Fills an empty handle with a new node; see [`LoneNode::new`]. Fails with `InUse` before
    /// that.
    pub fn fill_new(
        &mut self,
        alloc: Global,
        sizes: &CShape,
        own: u8,
        limit: u64,
    ) -> Result<(), Fault>
        ensures { Filled (Made (described sizes.now) own limit) self.old.held self.new.held result }
    {
        self.test_empty(alloc)?;
        let node = LoneNode::new(alloc, sizes, own, limit)?;
        let full = Box::new(alloc, node)?;
        self.put(alloc, full);
        Ok(())
    }

    /// Fills an empty handle with the node of an image; see [`LoneNode::read`]. Fails with `InUse`
    /// before that.
    pub fn fill_read(&mut self, alloc: Global, bytes: &[u8], limit: u64) -> Result<(), Fault>
        ensures { Filled (Read bytes.now limit) self.old.held self.new.held result }
    {
        self.test_empty(alloc)?;
        let node = LoneNode::read(alloc, bytes, limit)?;
        let full = Box::new(alloc, node)?;
        self.put(alloc, full);
        Ok(())
    }

    /// Fills an empty handle with the node of an image and of the batches that follow it; see
    /// [`LoneNode::reopen`]. Fails with `InUse` before that.
    pub fn fill_reopened(
        &mut self,
        alloc: Global,
        image: &[u8],
        batches: &[u8],
        limit: u64,
    ) -> Result<(), Fault>
        ensures { Filled (Reopened image.now batches.now limit) self.old.held self.new.held
            result }
    {
        self.test_empty(alloc)?;
        let node = LoneNode::reopen(alloc, image, batches, limit)?;
        let full = Box::new(alloc, node)?;
        self.put(alloc, full);
        Ok(())
    }

    /// Frees the node. Fails with `NoHandle` if the handle is empty.
    pub fn free(&mut self, alloc: Global) -> Result<(), Fault>
        ensures { Freed self.old.held self.new.held result }
    {
        match self.take(alloc) {
            Some(_node) => Ok(()),
            None => Err(Fault::NoHandle),
        }
    }

    /// The node that `Next` names, if the event is that and the handle has a node that keeps a log.
    #[inline(always)]
    pub fn noted_turn(&mut self, alloc: Global, event: &Event) -> Option<u8>
        ensures same { self.new.held ≡ self.old.held }
        ensures turn { IfSome result (λ from. event.now ≡ events.Next from) }
        ensures other { result ≡ None → (is_turn event.now && logs_in self.old.held) ≡ false }
    {
        let Event::Next { from } = *event else {
            return None;
        };
        let node = self.take(alloc)?;
        let logs = node.logs();
        self.put(alloc, node);
        if logs { Some(from) } else { None }
    }

    /// Gives the node an event of its own; see [`LoneNode::act_plain`].
    #[inline(always)]
    pub fn act_plain(&mut self, alloc: Global, event: Event) -> Result<Answer, Fault>
        requires noted { (is_turn event && logs_in self.old.held) ≡ false }
        requires frees { frees event ≡ false }
        ensures { Through (NodeActs event.entry) self.old.held self.new.held result }
    {
        let mut node = self.take(alloc).ok_or(Fault::NoHandle)?;
        let answered = node.act_plain(event);
        self.put(alloc, node);
        answered
    }

    /// Gives the node an event of its own; see [`LoneNode::act`].
    #[inline(always)]
    pub fn act(&mut self, alloc: Global, event: Event) -> Result<Answer, Fault>
        ensures { Through (NodeActs event.entry) self.old.held self.new.held result }
    {
        let mut node = self.take(alloc).ok_or(Fault::NoHandle)?;
        let answered = node.act(event);
        self.put(alloc, node);
        answered
    }

    /// Does the collector's share of a turn; see [`LoneNode::work`].
    pub fn work(
        &mut self,
        alloc: Global,
        scans: u32,
        slots: u32,
        work: &mut CWork,
    ) -> Result<(), Fault>
        ensures { WorksIf (NodeWorks scans slots) self.old.held self.new.held work.old work.new
            result }
    {
        let mut node = self.take(alloc).ok_or(Fault::NoHandle)?;
        let worked = node.work(scans, slots, work);
        self.put(alloc, node);
        worked
    }

    /// Gives the node the frame that the bytes spell; see [`LoneNode::take`].
    pub fn take_frame(&mut self, alloc: Global, bytes: &[u8]) -> Result<Answer, Fault>
        ensures { Through (TookIn bytes.now) self.old.held self.new.held result }
    {
        let mut node = self.take(alloc).ok_or(Fault::NoHandle)?;
        let answered = node.take(alloc, bytes);
        self.put(alloc, node);
        answered
    }

    /// The node in numbers.
    pub fn state(&mut self, alloc: Global) -> Result<Summary, Fault>
        ensures same { self.new.held ≡ self.old.held }
        ensures value { result ≡ read (λ n. Ok (summary_of n.node.core.local)) self.old.held }
    {
        let node = self.take(alloc).ok_or(Fault::NoHandle)?;
        let state = node.state();
        self.put(alloc, node);
        Ok(state)
    }

    /// Whether an event changed the node since the image that was kept last.
    pub fn is_unsaved(&mut self, alloc: Global) -> Result<bool, Fault>
        ensures same { self.new.held ≡ self.old.held }
        ensures value { result ≡ read (λ n. Ok n.is_unsaved) self.old.held }
    {
        let node = self.take(alloc).ok_or(Fault::NoHandle)?;
        let is_unsaved = node.is_unsaved();
        self.put(alloc, node);
        Ok(is_unsaved)
    }

    /// The reference in a register; see [`LoneNode::register`].
    pub fn register(&mut self, alloc: Global, register: u16) -> Result<Ref, Fault>
        ensures same { self.new.held ≡ self.old.held }
        ensures value { result
            ≡ read (λ n. register_of n.node.core.local register) self.old.held }
    {
        let node = self.take(alloc).ok_or(Fault::NoHandle)?;
        let found = node.register(register);
        self.put(alloc, node);
        found
    }

    /// Writes bytes of an object; see [`LoneNode::bytes`].
    pub fn bytes(
        &mut self,
        alloc: Global,
        object: u16,
        offset: u32,
        count: u32,
        buffer: &mut [u8],
        needed: &mut usize,
    ) -> Result<(), Fault>
        ensures same { self.new.held ≡ self.old.held }
        ensures wrote { WroteIf
            (read (λ n. object_bytes n.node.core.local object offset count) self.old.held) result
            buffer.old buffer.new needed.old needed.new }
    {
        let node = self.take(alloc).ok_or(Fault::NoHandle)?;
        let wrote = node.bytes(object, offset, count, buffer, needed);
        self.put(alloc, node);
        wrote
    }

    /// How many bytes an object has; see [`LoneNode::bytes_len`].
    pub fn bytes_len(&mut self, alloc: Global, object: u16) -> Result<u32, Fault>
        ensures same { self.new.held ≡ self.old.held }
        ensures value { result ≡ read (λ n. object_len n.node.core.local object) self.old.held }
    {
        let node = self.take(alloc).ok_or(Fault::NoHandle)?;
        let len = node.bytes_len(object);
        self.put(alloc, node);
        len
    }

    /// The links between the node and another one; see [`LoneNode::link`].
    pub fn link(&mut self, alloc: Global, peer: u8) -> Result<CLink, Fault>
        ensures same { self.new.held ≡ self.old.held }
        ensures value { result ≡ read (λ n. link_of n.node.core peer) self.old.held }
    {
        let node = self.take(alloc).ok_or(Fault::NoHandle)?;
        let found = node.link(peer);
        self.put(alloc, node);
        found
    }

    /// The number of the message that waits from another node; see [`LoneNode::waiting`].
    pub fn waiting(&mut self, alloc: Global, from: u8) -> Result<u64, Fault>
        ensures same { self.new.held ≡ self.old.held }
        ensures value { result ≡ read (λ n. waiting_number n.node from) self.old.held }
    {
        let node = self.take(alloc).ok_or(Fault::NoHandle)?;
        let found = node.waiting(from);
        self.put(alloc, node);
        found
    }

    /// Writes a frame of a window; see [`LoneNode::frame_at`].
    pub fn frame_at(
        &mut self,
        alloc: Global,
        to: u8,
        place: u8,
        buffer: &mut [u8],
        needed: &mut usize,
    ) -> Result<(), Fault>
        ensures same { self.new.held ≡ self.old.held }
        ensures wrote { HandleFrame self.old.held to place result buffer.old buffer.new needed.old
            needed.new }
    {
        let node = self.take(alloc).ok_or(Fault::NoHandle)?;
        let wrote = node.frame_at(alloc, to, place, buffer, needed);
        self.put(alloc, node);
        wrote
    }

    /// Writes an acknowledgement; see [`LoneNode::ack_for`].
    pub fn ack_for(
        &mut self,
        alloc: Global,
        from: u8,
        buffer: &mut [u8],
        needed: &mut usize,
    ) -> Result<(), Fault>
        ensures same { self.new.held ≡ self.old.held }
        ensures wrote { WroteIf (read (λ n. ack_bytes n.node.core from) self.old.held) result
            buffer.old buffer.new needed.old needed.new }
    {
        let node = self.take(alloc).ok_or(Fault::NoHandle)?;
        let wrote = node.ack_for(from, buffer, needed);
        self.put(alloc, node);
        wrote
    }

    /// Writes the frames of a window; see [`LoneNode::frames`].
    pub fn frames(
        &mut self,
        alloc: Global,
        to: u8,
        after: u64,
        buffer: &mut [u8],
        needed: &mut usize,
    ) -> Result<usize, Fault>
        ensures same { self.new.held ≡ self.old.held }
        ensures packs { HandlePacks self.old.held to after result buffer.old buffer.new needed.old
            needed.new }
    {
        let node = self.take(alloc).ok_or(Fault::NoHandle)?;
        let packed = node.frames(alloc, to, after, buffer, needed);
        self.put(alloc, node);
        packed
    }

    /// The number of bytes of the node's image; see [`LoneNode::image_size`].
    pub fn image_size(&mut self, alloc: Global) -> Result<usize, Fault>
        ensures { Through SizedSame self.old.held self.new.held result }
    {
        let node = self.take(alloc).ok_or(Fault::NoHandle)?;
        let size = node.image_size(alloc);
        self.put(alloc, node);
        size
    }

    /// Writes the node's image; see [`LoneNode::image`].
    pub fn image(&mut self, alloc: Global, buffer: &mut [u8], needed: &mut usize) -> Marked
        ensures { HandleImaged self.old.held self.new.held result buffer.old buffer.new needed.old
            needed.new }
    {
        let mut node = self.take(alloc).ok_or(Fault::NoHandle)?;
        let mark = node.image(alloc, buffer, needed);
        self.put(alloc, node);
        mark
    }

    /// Keeps a log of the node's events from the next image on, or no more; see [`LoneNode::log`].
    pub fn log(&mut self, alloc: Global, on: bool) -> Result<(), Fault>
        ensures { Through (Logs on) self.old.held self.new.held result }
    {
        let mut node = self.take(alloc).ok_or(Fault::NoHandle)?;
        node.log(on);
        self.put(alloc, node);
        Ok(())
    }

    /// The number of bytes of the next batch; see [`LoneNode::batch_size`].
    pub fn batch_size(&mut self, alloc: Global) -> Result<usize, Fault>
        ensures same { self.new.held ≡ self.old.held }
        ensures value { result ≡ read (λ n. size_of (batch_of n)) self.old.held }
    {
        let node = self.take(alloc).ok_or(Fault::NoHandle)?;
        let size = node.batch_size();
        self.put(alloc, node);
        size
    }

    /// Writes the events since the last image or batch; see [`LoneNode::batch`].
    pub fn batch(&mut self, alloc: Global, buffer: &mut [u8], needed: &mut usize) -> Marked
        ensures { HandleBatched self.old.held self.new.held result buffer.old buffer.new needed.old
            needed.new }
    {
        let mut node = self.take(alloc).ok_or(Fault::NoHandle)?;
        let mark = node.batch(alloc, buffer, needed);
        self.put(alloc, node);
        mark
    }

    /// Counts as saved what the image or batch with this mark holds; see [`LoneNode::kept`].
    pub fn kept(&mut self, alloc: Global, mark: u64) -> Result<(), Fault>
        ensures { Through (Kept mark) self.old.held self.new.held result }
    {
        let mut node = self.take(alloc).ok_or(Fault::NoHandle)?;
        let kept = node.kept(mark);
        self.put(alloc, node);
        kept
    }

    /// Counts everything as saved, without an image; see [`LoneNode::release`].
    pub fn release(&mut self, alloc: Global) -> Result<(), Fault>
        ensures { Through Released self.old.held self.new.held result }
    {
        let mut node = self.take(alloc).ok_or(Fault::NoHandle)?;
        node.release();
        self.put(alloc, node);
        Ok(())
    }
}
