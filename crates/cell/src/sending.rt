//! Frames between the node at a desk and other nodes. The window and the saved state determine what
//! is due, so nothing leaves that a restart could take back.
ghost use Rattle.std.specs.Prelude.{
  ◌≡◌,
  ◌≢◌,
  ◌<◌,
  true,
  IsTrue,
  IfErr,
  IfOk,
  MatchOption,
  slice_get,
  slice_index_or,
  ℕ,
  Some,
};
ghost use Rattle.ids.specs.declared.refusal.Refusal.TheVariants.{Memory};
ghost use Rattle.frames.specs.Grammar.{is_letter};
ghost use Rattle.msg.specs.Frames.{Plain, plain};
ghost use Rattle.model.specs.Steps.{is_memory_free};
ghost use Rattle.model.specs.View.{is_other};
ghost use Rattle.wire.specs.Rule.{receiver, sender, Spells};
ghost use Rattle.wire.specs.Plays.{Releases};
ghost use Rattle.wire.specs.Views.{FindsOther, raises};
ghost use Rattle.wire.specs.Readers.{
  known,
  inbox,
  outbox,
  raised_cycle,
  raised_opening,
  IsRaisedOf,
  seat_node,
  width,
  IsSeatOf,
  IsSame,
};
ghost use Rattle.cell.specs.Desks.{GoesOnAt};
ghost use Rattle.wire.specs.Sending.{frame_due, places_after, IsSent, TookOut};
ghost use Rattle.cell.specs.Events.{event_of, Handled, IsMarked};

use crate::desk::Desk;
use frames::encode;
use ids::Refusal;
use model::{Answer, Event};
use msg::Frame;
use std::alloc::Global;
use wire::{Raised, Wire, due};

impl Desk {
    // Sends the next frame to another node, and returns whether the mailbox was empty.
    pub(crate) fn send(&mut self, wire: &Wire, alloc: Global, to: u8) -> Result<bool, Refusal>
        requires wire { IsSeatOf wire.now self.old.seat }
        requires other { IsTrue (is_other self.old.node.core.local to) }
        ensures same { IsSame self.old.seat self.new.seat }
        ensures sent { IfOk result (λ sent. IsSent (outbox self.old.seat to)
            (frame_due self.old.node.core to (slice_index_or self.old.places to 0)) sent
            (known self.old.seat) (known self.new.seat)) }
        ensures places { IfOk result (λ sent. self.new.places
            ≡ places_after sent self.old.node.core to self.old.places) }
        ensures refused { IfErr result (λ e. (e ≡ Memory) × (self.new ≡ self.old)) }
        ensures stays { self.new
            ≡ record self.old { seat = self.new.seat; places = self.new.places } }
    {
        let place = self.places[usize::from(to)];
        let (frame, next) = due(&self.logged.node, to, place);
        let bytes = encode(alloc, &frame)?;
        let is_sent = wire.send(&mut self.seat, &self.logged.node, to, place, bytes);
        if is_sent {
            self.places[usize::from(to)] = next;
        }
        Ok(is_sent)
    }

    // Takes the frame in the mailbox from another node, and empties the mailbox. None if it wasn't
    // full. It fails only with `Memory`, and the frame is lost then.
    pub(crate) fn take(
        &mut self,
        wire: &Wire,
        alloc: Global,
        from: u8,
    ) -> Result<Option<Frame>, Refusal>
        requires wire { IsSeatOf wire.now self.old.seat }
        requires other { IsTrue (is_other self.old.node.core.local from) }
        ensures same { IsSame self.old.seat self.new.seat }
        ensures inside { from < (known self.old.seat).nodes }
        ensures taken { IfOk result (λ o. MatchOption o
            (FindsOther (inbox self.old.seat from) 1 (known self.old.seat) (known self.new.seat))
            (λ f. TookOut (inbox self.old.seat from) from (plain f) (known self.old.seat)
            (known self.new.seat))) }
        ensures lost { IfErr result (λ e. (e ≡ Memory) × ((f : Plain) × (is_letter f ≡ true)
            × TookOut (inbox self.old.seat from) from f (known self.old.seat)
            (known self.new.seat))) }
        ensures stays { self.new ≡ record self.old { seat = self.new.seat } }
    {
        wire.receive(alloc, &mut self.seat, from)
    }

    // Shows on the board the cycle that the saved state knows to have ended.
    pub(crate) fn raise(&mut self, wire: &Wire) -> Raised
        requires wire { IsSeatOf wire.now self.old.seat }
        requires first { seat_node self.old.seat ≡ 0 }
        ensures same { IsSame self.old.seat self.new.seat }
        ensures cycle { raised_cycle result
            ≡ (known self.old.seat).pair.saved.local.phases.ended }
        ensures of { IsRaisedOf wire.now result }
        ensures opening { raised_opening result ≡ (known self.old.seat).opening }
        ensures known { known self.new.seat
            ≡ raises (known self.old.seat).pair.saved.local.phases.ended (known self.old.seat) }
        ensures stays { self.new ≡ record self.old { seat = self.new.seat } }
    {
        wire.raise(&mut self.seat, self.ended)
    }

    // Whether this is another node of the space.
    pub(crate) fn is_other(&self, node: u8) -> bool
        ensures { result ≡ is_other self.now.node.core.local node }
    {
        node < self.nodes && node != self.own
    }

    // Gives the node a frame that was taken from another one.
    pub(crate) fn handle(&mut self, wire: &Wire, frame: Frame) -> Result<Answer, Refusal>
        requires wire { IsSeatOf wire.now self.old.seat }
        requires taken { ∥ ((k : ℕ)
            × (slice_get (known self.old.seat).taken k ≡ Some (plain frame))) ∥₁ }
        requires sender { sender (plain frame) < (known self.old.seat).nodes }
        requires receiver { receiver (plain frame) ≡ (known self.old.seat).me }
        ensures handled { Handled frame result self.old.node self.new.node
            (known self.old.seat) (known self.new.seat) }
        ensures memory_free { IsTrue (is_memory_free self.old.node.core.local (event_of frame))
            → IfErr result (λ e. e ≢ Memory) }
        ensures unsaved { IsMarked (known self.old.seat) (known self.new.seat)
            self.old.unsaved self.new.unsaved }
        ensures same { IsSame self.old.seat self.new.seat }
        ensures stays { GoesOnAt self.old self.new }
    {
        match frame {
            Frame::Data(data) => self.perform(wire, &Event::Data(data)),
            Frame::Ack(ack) => self.acknowledge(ack),
        }
    }
}
