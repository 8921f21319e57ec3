//! Frames between a node and its mailboxes. The window and the saved state determine what is due,
//! so nothing leaves that a restart could take back.
ghost use Rattle.std.specs.Prelude.{◌≡◌, ◌≢◌, ◌<◌, true, IfErr, IfOk, IsTrue, MatchOption};
ghost use Rattle.ids.specs.declared.refusal.Refusal.TheVariants.{Memory};
ghost use Rattle.frames.specs.Grammar.{is_letter};
ghost use Rattle.msg.specs.Frames.{Plain, plain, plain_ref};
ghost use Rattle.model.specs.View.{is_other};
ghost use Rattle.wire.specs.Plays.{Releases};
ghost use Rattle.wire.specs.Readers.{inbox, known, outbox, seat_node, width, IsSame, IsSeatOf};
ghost use Rattle.wire.specs.Rule.{receiver, Spells};
ghost use Rattle.wire.specs.Sending.{frame_due, next_place, IsSent, TookOut};
ghost use Rattle.wire.specs.Views.{FindsOther};

use crate::seats::{NodeSeat, Wire};
use frames::decode;
use ids::Refusal;
use msg::{Frame, FrameRef};
use node::Node;
use std::alloc::Global;

/// The frame that a node sends next to another one, and the place in the window that comes after
/// it. It is the released message in the given place, or else the acknowledgement of what a saved
/// state has received.
pub fn due(node: &Node, to: u8, place: u8) -> (FrameRef, u8)
    requires { IsTrue (is_other node.now.core.local to) }
    ensures frame { plain_ref result.0 ≡ frame_due node.now.core to place }
    ensures next { result.1 ≡ next_place node.now.core to place }
{
    if let Some(frame) = node.frame_at(to, place) {
        return (frame, place + 1);
    }
    match node.ack_for(to) {
        Some(frame) => (frame, 0),
        None => unreachable!(),
    }
}

impl Wire {
    /// Puts the bytes of the frame that is due into the seat's mailbox to another node, if that is
    /// empty, and returns whether it was; see [`claim`](Wire::claim) and [`post`](Wire::post). Only
    /// proofs read the node and the place.
    pub fn send(
        &self,
        seat: &mut NodeSeat,
        _node: &Node,
        to: u8,
        _place: u8,
        bytes: Vec<u8>,
    ) -> bool
        requires wire { IsSeatOf self.now seat.old }
        requires to { (to < width self.now) × (to ≢ seat_node seat.old) }
        requires spelled { Spells (frame_due _node.now.core to _place) bytes.items }
        requires released { Releases (known seat.old).me (known seat.old).pair.saved
            (frame_due _node.now.core to _place) }
        requires receiver { receiver (frame_due _node.now.core to _place) ≡ to }
        ensures same { IsSame seat.old seat.new }
        ensures sent { IsSent (outbox seat.old to) (frame_due _node.now.core to _place) result
            (known seat.old) (known seat.new) }
    {
        let Some(claim) = self.claim(seat, to) else {
            return false;
        };
        self.post(seat, claim, bytes);
        true
    }

    /// Takes the frame in the seat's mailbox from another node, and empties the mailbox; see
    /// [`take`](Wire::take) and [`clear`](Wire::clear). `None` if the mailbox wasn't full.
    ///
    /// It fails only with `Memory`: if the frame is a letter with references and bytes, and an
    /// allocation for them fails. The frame is then lost, and arrives again only if it is sent
    /// again.
    pub fn receive(
        &self,
        alloc: Global,
        seat: &mut NodeSeat,
        from: u8,
    ) -> Result<Option<Frame>, Refusal>
        requires wire { IsSeatOf self.now seat.old }
        requires from { (from < width self.now) × (from ≢ seat_node seat.old) }
        ensures same { IsSame seat.old seat.new }
        ensures taken { IfOk result (λ o. MatchOption o
            (FindsOther (inbox seat.old from) 1 (known seat.old) (known seat.new))
            (λ f. TookOut (inbox seat.old from) from (plain f) (known seat.old)
            (known seat.new))) }
        ensures lost { IfErr result (λ e. (e ≡ Memory) × ((f : Plain) × (is_letter f ≡ true)
            × TookOut (inbox seat.old from) from f (known seat.old) (known seat.new))) }
    {
        let Some(taken) = self.take(seat, from) else {
            return Ok(None);
        };
        let bytes = self.clear(seat, taken);
        match decode(alloc, &bytes) {
            Ok(frame) => Ok(Some(frame)),
            Err(refusal) => Err(refusal),
        }
    }
}
