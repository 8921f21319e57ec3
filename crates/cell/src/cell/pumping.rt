//! Moves frames between a cell and other nodes. A waiting message comes before the mailbox. Each
//! message in the window is sent again until it is acknowledged.
ghost use Rattle.std.specs.Prelude.{
  ◌≡◌,
  ◌↔◌,
  ◌⊎◌,
  false,
  is_some,
  IfErr,
  IfOk,
  IsErrOf,
  IsTrue,
  MatchOption,
  None,
  OnErr,
  slice_index_or,
};
ghost use Rattle.model.specs.View.{is_other};
ghost use Rattle.node.specs.Keeping.{waiting};
ghost use Rattle.wire.specs.Readers.{known, outbox, IsSame, IsSeatOf};
ghost use Rattle.cell.specs.Cells.{GoesOn};
ghost use Rattle.cell.specs.Events.{event_of};
ghost use Rattle.cell.specs.Lines.{call_of};
ghost use Rattle.cell.specs.Pumping.{is_out, FoundEmpty, PumpedIn, TookOrLost};
ghost use Rattle.wire.specs.Sending.{frame_due, places_after, IsSent};

use super::Cell;
use crate::Call;
use crate::tracing::outcome;
use disk::Disk;
use ids::Refusal;
use model::{Answer, Event};
use msg::Frame;
use wire::{Inbound, Outbound, Wire};

// The call for the event that a frame is.
fn call_for(frame: &Frame) -> Call
    ensures { result ≡ call_of (event_of frame.now) }
{
    match frame {
        Frame::Data(_) => Call::Data,
        Frame::Ack(_) => Call::Ack,
    }
}

// Whether the frame left.
#[inline(always)]
fn outbound(is_sent: bool) -> Outbound
    ensures { is_out result ≡ is_sent }
{
    if is_sent {
        Outbound::Sent
    } else {
        Outbound::Full
    }
}

impl<D: Disk> Cell<D> {
    /// Receives the waiting message from another node, if there is one. Otherwise takes the frame
    /// in the mailbox from that node, empties the mailbox, and gives the frame to the node; `Empty`
    /// if the mailbox wasn't full.
    ///
    /// A message that is received enters the history. An early message is kept if its place is
    /// empty. A refused frame is lost, and arrives again only if it is sent again; but a waiting
    /// message that is refused with `Memory` stays.
    ///
    /// Fails with `Closed` exactly if the cell is closed; then with `NoNode` if `from` isn't
    /// another node of the space. It fails with `Memory` if an allocation fails for a letter with
    /// references and bytes that was in the mailbox. Otherwise it fails as the node refuses the
    /// message or frame. A line is added to the trace if the node was given one.
    pub fn pump_in(&mut self, wire: &Wire, from: u8) -> Result<Inbound, Refusal>
        requires wire { IsSeatOf wire.now self.old.seat }
        ensures pumped { IsTrue self.old.is_open
            → IsTrue (is_other self.old.node.core.local from)
            → PumpedIn from result self.old self.new }
        ensures closed { IsErrOf result Refusal.Closed ↔ (self.old.is_open ≡ false) }
        ensures shut { self.old.is_open ≡ false → self.new ≡ self.old }
        ensures no_node { IsTrue self.old.is_open
            → is_other self.old.node.core.local from ≡ false
            → IsErrOf result Refusal.NoNode × (self.new ≡ self.old) }
        ensures goes_on { GoesOn self.old self.new }
    {
        if !self.store.is_ready() {
            return Err(Refusal::Closed);
        }
        if !self.desk.is_other(from) {
            return Err(Refusal::NoNode);
        }
        if self.desk.node().waiting(from).is_some() {
            return self.next(wire, from);
        }
        self.receive(wire, from)
    }

    // Receives the waiting message.
    fn next(&mut self, wire: &Wire, from: u8) -> Result<Inbound, Refusal>
        requires wire { IsSeatOf wire.now self.old.seat }
        requires ready { IsTrue self.old.is_open }
        requires waits { IsTrue (is_some (waiting self.old.node.early from)) }
        ensures pumped { PumpedIn from result self.old self.new }
        ensures goes_on { GoesOn self.old self.new }
    {
        let answer = self.act(wire, &Event::Next { from })?;
        Ok(Inbound::Event(answer))
    }

    // Receives the frame in the mailbox; no message waits.
    fn receive(&mut self, wire: &Wire, from: u8) -> Result<Inbound, Refusal>
        requires wire { IsSeatOf wire.now self.old.seat }
        requires ready { IsTrue self.old.is_open }
        requires other { IsTrue (is_other self.old.node.core.local from) }
        requires none { waiting self.old.node.early from ≡ None }
        ensures pumped { PumpedIn from result self.old self.new }
        ensures goes_on { GoesOn self.old self.new }
    {
        let Some(answered) = self.take_in(wire, from) else {
            return Ok(Inbound::Empty);
        };
        let answer = answered?;
        Ok(Inbound::Event(answer))
    }

    // Takes the frame in the mailbox, and gives it to the node. None if the mailbox wasn't full. If
    // there is no memory for the frame, it is lost.
    fn take_in(&mut self, wire: &Wire, from: u8) -> Option<Result<Answer, Refusal>>
        requires wire { IsSeatOf wire.now self.old.seat }
        requires ready { IsTrue self.old.is_open }
        requires other { IsTrue (is_other self.old.node.core.local from) }
        ensures took { MatchOption result (FoundEmpty from self.old self.new)
            (λ r. TookOrLost from r self.old self.new) }
        ensures goes_on { GoesOn self.old self.new }
    {
        let taken = match self.desk.take(wire, self.alloc, from) {
            Ok(taken) => taken,
            Err(refusal) => return Some(Err(refusal)),
        };
        let Some(frame) = taken else {
            return None;
        };
        let call = call_for(&frame);
        let answered = self.desk.handle(wire, frame);
        self.trace.push(call, outcome(&answered));
        Some(answered)
    }

    /// Sends a frame to another node: the released message in the next place of the window, if
    /// there is one, else the acknowledgement of what a saved state has received. After an
    /// acknowledgement, the window is sent from its start again. `Full` if the mailbox wasn't
    /// empty.
    ///
    /// Fails with `Closed` exactly if the cell is closed; then with `NoNode` if `to` isn't another
    /// node of the space; with `Memory` if an allocation fails. A failed call changes nothing.
    pub fn pump_out(&mut self, wire: &Wire, to: u8) -> Result<Outbound, Refusal>
        requires wire { IsSeatOf wire.now self.old.seat }
        ensures sent { IfOk result (λ o. IsSent (outbox self.old.seat to)
            (frame_due self.old.node.core to (slice_index_or self.old.places to 0))
            (is_out o) (known self.old.seat) (known self.new.seat)) }
        ensures places { IfOk result (λ o. self.new.places
            ≡ places_after (is_out o) self.old.node.core to self.old.places) }
        ensures refused { OnErr result (self.new ≡ self.old) }
        ensures closed { IsErrOf result Refusal.Closed ↔ (self.old.is_open ≡ false) }
        ensures no_node { IsTrue self.old.is_open
            → (IsErrOf result Refusal.NoNode
            ↔ (is_other self.old.node.core.local to ≡ false)) }
        ensures others { IfErr result (λ e. (e ≡ Refusal.Closed)
            ⊎ ((e ≡ Refusal.NoNode) ⊎ (e ≡ Refusal.Memory))) }
        ensures same { IsSame self.old.seat self.new.seat }
        ensures stays { self.new
            ≡ record self.old { seat = self.new.seat; places = self.new.places } }
    {
        if !self.store.is_ready() {
            return Err(Refusal::Closed);
        }
        if !self.desk.is_other(to) {
            return Err(Refusal::NoNode);
        }
        let is_sent = self.desk.send(wire, self.alloc, to)?;
        Ok(outbound(is_sent))
    }
}
