//! The frames that a node sends. Only messages that a saved state holds are shown in a window, and
//! only what a saved state has received is acknowledged. So no restart takes back what another node
//! has been given.
ghost use Rattle.std.specs.Prelude.{◌≡◌, ◌≤◌, IsTrue, Some};
ghost use Rattle.std.specs.Option.{option_map};
ghost use Rattle.ids.specs.declared.limits.TheConstants.{GREATEST_NUMBER};
ghost use Rattle.msg.specs.Frames.{plain_ref};
ghost use Rattle.model.specs.References.{IsSendable};
ghost use Rattle.model.specs.View.{is_other, link_to, used};
ghost use Rattle.node.specs.Frames.{acknowledgement, frame_of, numbered_frame, released_frame};

use super::Core;
use msg::{Ack, DataRef, FrameRef, Message};

impl Core {
    /// The frame in this place of the window to another node, if a saved state holds its message.
    /// The first place has the message after the last acknowledged one. `None` if `to` is no other
    /// node of the space, or if that place, of [`WINDOW`](ids::WINDOW), holds no released message.
    pub fn frame_at(&self, to: u8, place: u8) -> Option<FrameRef>
        ensures { option_map plain_ref result ≡ released_frame self.now to place }
    {
        if !self.is_other(to) {
            return None;
        }
        let message = self.links.window(to, place)?;
        self.frame(to, self.links.base(to) + 1 + u64::from(place), message)
    }

    /// The acknowledgement to another node of all its messages that a saved state has received.
    /// `None` if `from` is no other node of the space.
    pub fn ack_for(&self, from: u8) -> Option<FrameRef>
        ensures { option_map plain_ref result ≡ acknowledgement self.now from }
    {
        if !self.is_other(from) {
            return None;
        }
        let ack = Ack::new(self.own, from, self.links.ack_number(from))?;
        Some(FrameRef::Ack(ack))
    }

    /// The frame of the message with this number to another node, released or not, while the node
    /// keeps it. `None` if `to` is no other node of the space, or if the node keeps no such
    /// message.
    pub fn numbered_frame(&self, to: u8, number: u64) -> Option<FrameRef>
        ensures { option_map plain_ref result ≡ numbered_frame self.now to number }
    {
        if !self.is_other(to) {
            return None;
        }
        let message = self.links.message(to, number)?;
        self.frame(to, number, message)
    }

    fn frame<'a>(&self, to: u8, number: u64, message: &'a Message) -> Option<FrameRef<'a>>
        requires other { IsTrue (is_other self.now.local to) }
        requires number { 1 ≤ number }
        requires last { number ≤ GREATEST_NUMBER }
        requires sendable { IsSendable self.now.local.shape message.now }
        ensures { option_map plain_ref result
            ≡ Some (frame_of self.now.local.own to number message.now) }
    {
        Some(FrameRef::Data(DataRef {
            from: self.own,
            to,
            number,
            stamp: message.stamp,
            body: &message.body,
        }))
    }

    /// The number of messages ever appended for the node `to`, which is the number of the last one.
    /// 0 if there is no such node.
    pub fn appended(&self, to: u8) -> u64
        ensures { result ≡ used (link_to self.now to) }
    {
        if to < self.shape.nodes() {
            self.links.used(to)
        } else {
            0
        }
    }
}
