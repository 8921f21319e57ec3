//! A node whose caller moves its frames and stores its images.
ghost use Rattle.std.specs.Prelude.{◌≡◌, ◌||◌, ◌&&◌, false, None, Ok};
ghost use Rattle.c_values.specs.Fields.{described};
ghost use Rattle.msg.specs.Frames.{plain};
ghost use Rattle.node_store.specs.Logs.{is_turn};
ghost use Rattle.model.specs.Steps.{frees};
ghost use Rattle.c_handles.specs.Lone.{Acknowledged, Given, Made, Read, TookIn, is_congested};
ghost use Rattle.c_handles.specs.Lone.{lone, marked_by, receiver_of, unacknowledged};

mod batches;
mod freed;
mod images;
mod letters;
mod objects;
pub(crate) mod reading;
pub(crate) mod reopening;
mod sending;
mod working;

use crate::gone::GoneList;
use c_values::{CShape, Fault};
use frames::decode;
use ids::{NodeId, Ref, Refusal};
use image::from_bytes;
pub(crate) use images::Counts;
use model::{Answer, Event};
use msg::{Ack, Data, Frame};
use node::Node;
use node_store::{Log, LoggedNode, is_turn};
use std::alloc::Global;
use std::marker::Model;

/// A node whose caller moves its frames and stores its images.
#[derive(Drop)]
pub struct LoneNode {
    // The node, and the events since the last image or batch.
    logged: LoggedNode,
    // How many of the messages to another node may be unacknowledged for the program to send it
    // another one; 0 if any number.
    limit: u64,
    // The mark of the last image or batch, which is the number of both, and what that holds of the
    // links; none if there was neither.
    mark: u64,
    counts: Option<Vec<Counts>>,
    // Whether an event changed the node since the last image or batch, and since the last one that
    // was kept; in both cases, since the last release if that came later.
    is_changed: bool,
    is_unsaved: bool,
    // Whether what the last image or batch holds counts as saved.
    is_kept: bool,
    // The objects that are gone, if a list of them is kept.
    gone: GoneList,
}

impl Model for LoneNode {
    ghost use Rattle.c_handles.specs.LoneViews.{LoneView};

    ghost Value = { LoneView };

    ghost view = { λ n. record {
      node = n.logged.node;
      limit = n.limit;
      mark = n.mark;
      counts = n.counts;
      is_changed = n.is_changed;
      is_unsaved = n.is_unsaved;
      logs = n.logged.logs;
      log = n.logged.log;
      is_kept = n.is_kept;
      gone = n.gone;
    } };
}

impl LoneNode {
    // A node of which no image was taken, with nothing unsaved, that keeps neither a log nor a list
    // of what is gone.
    fn of(alloc: Global, node: Node, limit: u64) -> LoneNode
        ensures { result ≡ lone node limit }
    {
        LoneNode {
            logged: LoggedNode {
                node,
                logs: false,
                log: Log::new(alloc),
            },
            limit,
            mark: 0,
            counts: None,
            is_changed: false,
            is_unsaved: false,
            is_kept: false,
            gone: GoneList::new(alloc),
        }
    }

    /// A new node. Fails with `BadArgument` if these are no sizes of a space, then with `NoNode` if
    /// the space has no such node, and with `Memory`.
    pub fn new(alloc: Global, sizes: &CShape, own: u8, limit: u64) -> Result<LoneNode, Fault>
        ensures { Made (described sizes.now) own limit result }
    {
        let shape = sizes.shape().ok_or(Fault::BadArgument)?;
        let own = NodeId::new(own).ok_or(Fault::Refused(Refusal::NoNode))?;
        let node = Node::new(alloc, shape, own)?;
        Ok(LoneNode::of(alloc, node, limit))
    }

    /// The node of an image. Fails with `BadImage` if the bytes are no image, or one of a node that
    /// kept a log, and with `Memory`.
    pub fn read(alloc: Global, bytes: &[u8], limit: u64) -> Result<LoneNode, Fault>
        ensures { Read bytes.now limit result }
    {
        let node = from_bytes(alloc, bytes)?;
        Ok(LoneNode::of(alloc, node, limit))
    }

    // The number of unacknowledged messages to a node.
    fn unacknowledged(&self, to: u8) -> u64
        ensures { result ≡ unacknowledged self.now.node.core to }
    {
        let links = self.logged.node.core().links();
        if to < links.width() {
            links.used(to) - links.base(to)
        } else {
            0
        }
    }

    // The node that the program's message would go to.
    fn receiver(&self, event: &Event) -> Option<u8>
        ensures { result ≡ receiver_of self.now.node.core.local event.now }
    {
        match event {
            Event::Give { to, .. } | Event::Post { to, .. } => Some(*to),
            Event::Put { object, .. } | Event::Get { object, .. } | Event::Fetch { object, .. } => {
                let register = usize::from(*object);
                let held = self.logged.node.core().heap().registers().get(register)?;
                let reference: Ref = (*held)?;
                Some(reference.node)
            }
            _ => None,
        }
    }

    // Whether as many messages on the link as the limit allows aren't acknowledged.
    #[inline(always)]
    fn is_congested(&self, event: &Event) -> bool
        ensures { result ≡ is_congested self.now event.now }
    {
        if self.limit == 0 {
            return false;
        }
        match self.receiver(event) {
            Some(to) => self.limit <= self.unacknowledged(to),
            None => false,
        }
    }

    /// Gives the node an event of its own. Fails with `Congested` before any other test if the
    /// event sends a message and as many on that link as the limit allows aren't acknowledged; else
    /// as the node refuses the event.
    #[inline(always)]
    pub fn act(&mut self, event: Event) -> Result<Answer, Fault>
        ensures { Given (is_congested self.old event.entry) self.old self.new event.entry result }
    {
        if self.is_congested(&event) {
            return Err(Fault::Congested);
        }
        self.perform(event)
    }

    /// The same for calls that are inlined, except for `Next` of a node that keeps a log, and for
    /// events that free objects.
    #[inline(always)]
    pub fn act_plain(&mut self, event: Event) -> Result<Answer, Fault>
        requires noted { (is_turn event && self.old.logs) ≡ false }
        requires frees { frees event ≡ false }
        ensures { Given (is_congested self.old event.entry) self.old self.new event.entry result }
    {
        if self.is_congested(&event) {
            return Err(Fault::Congested);
        }
        self.perform_plain(event)
    }

    // Gives the node an event.
    #[inline(always)]
    fn perform(&mut self, event: Event) -> Result<Answer, Fault>
        ensures { Given false self.old self.new event.entry result }
    {
        if self.lists(&event) {
            return self.perform_listing(&event);
        }
        if is_turn(&event) && self.logged.logs {
            self.perform_noting(&event)
        } else {
            self.perform_plain(event)
        }
    }

    // Gives the node an event that frees nothing that is to be listed, and that isn't `Next` if the
    // node keeps a log.
    #[inline(always)]
    fn perform_plain(&mut self, event: Event) -> Result<Answer, Fault>
        requires noted { (is_turn event && self.old.logs) ≡ false }
        requires unlisted { (frees event && self.old.gone.tracks) ≡ false }
        ensures { Given false self.old self.new event.entry result }
    {
        let answer = self.logged.act_plain(event)?;
        self.mark_changed(answer.is_change());
        Ok(answer)
    }

    // Gives the node an event that frees nothing that is to be listed.
    #[inline(never)]
    fn perform_noting(&mut self, event: &Event) -> Result<Answer, Fault>
        requires { (frees event.now && self.old.gone.tracks) ≡ false }
        ensures { Given false self.old self.new event.now result }
    {
        let answer = self.logged.act(event)?;
        self.mark_changed(answer.is_change());
        Ok(answer)
    }

    // Records a change of the node, if there was one.
    #[inline(always)]
    fn mark_changed(&mut self, has_changed: bool)
        ensures { self.new ≡ marked_by has_changed self.old }
    {
        if has_changed {
            self.is_changed = true;
            self.is_unsaved = true;
        }
    }

    // Gives the node an acknowledgement, which changes no state.
    fn acknowledge(&mut self, ack: Ack) -> Result<Answer, Fault>
        ensures { Acknowledged self.old self.new ack result }
    {
        if self.logged.logs {
            let answer = self.logged.act(&Event::Ack(ack))?;
            return Ok(answer);
        }
        let answer = self.logged.act_plain(Event::Ack(ack))?;
        Ok(answer)
    }

    /// Gives the node the frame that the bytes spell. Fails with `BadFrame` if they spell none,
    /// with `Memory` if they spell a letter with references and bytes and an allocation fails, else
    /// as the node refuses the frame.
    pub fn take(&mut self, alloc: Global, bytes: &[u8]) -> Result<Answer, Fault>
        ensures { TookIn bytes.now self.old self.new result }
    {
        match decode(alloc, bytes)? {
            Frame::Data(data) => self.perform_plain(Event::Data(data)),
            Frame::Ack(ack) => self.acknowledge(ack),
        }
    }
}
