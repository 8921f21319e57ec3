//! Makes a cell, and gives its node events. A closed cell does nothing, because its disk may hold a
//! different node.
ghost use Rattle.std.specs.Prelude.{
  ◌≡◌,
  ◌≢◌,
  ◌↔◌,
  ◌++◌,
  ◌∷◌,
  [],
  true,
  false,
  IfErr,
  IfOk,
  IsErrOf,
  IsTrue,
  OnErr,
  map,
  string_bytes,
};
ghost use Rattle.circular_buffer.specs.Buffer.{keep_last};
ghost use Rattle.ids.specs.declared.limits.TheConstants.{TRACE_EVENTS};
ghost use Rattle.ids.specs.declared.refusal.Refusal.TheVariants.{Memory};
ghost use Rattle.cell.specs.Lines.{call_of, line_text};
ghost use Rattle.model.specs.Steps.{is_memory_free, is_own};
ghost use Rattle.node.specs.Keeping.{met, own_step};
ghost use Rattle.wire.specs.Views.{raises};
ghost use Rattle.wire.specs.Readers.{
  known,
  raised_cycle,
  raised_opening,
  seat_node,
  IsRaisedOf,
  IsSame,
  IsSeatOf,
};
ghost use Rattle.cell.specs.Cells.{desk_of, new_cell, GoesOn, IsSound};
ghost use Rattle.cell.specs.Desks.{IsAtSeat, IsUnsaved};
ghost use Rattle.cell.specs.Disks.{OpensToNode};
ghost use Rattle.cell.specs.Events.{outcome_of, Given};
ghost use Rattle.node_store.specs.Stores.{disk_of, is_ready_in, logs_in};

use super::Cell;
use crate::desk::Desk;
use crate::tracing::outcome;
use crate::{Call, CallOutcome, Trace};
use disk::Disk;
use ids::Refusal;
use model::{Answer, Event};
use node::Node;
use node_store::Store;
use std::alloc::Global;
use std::snapshot::Snapshot;
use wire::{NodeSeat, Raised, Wire};

impl<D: Disk> Cell<D> {
    /// Makes a cell of a node that was created in the store or opened from it, and of the node's
    /// own seat, which has seen no event since. Fails with `Memory` if an allocation fails; node,
    /// store and seat are then dropped.
    pub fn new(
        alloc: Global,
        node: Node,
        store: Store<D>,
        seat: NodeSeat,
    ) -> Result<Cell<D>, Refusal>
    where
        D: Drop,
        requires seat { IsAtSeat node.core seat }
        requires ready { is_ready_in store ≡ true }
        requires disk { OpensToNode node (D.seen (disk_of store)) }
        ensures made { IfOk result
            (λ c. c ≡ new_cell node seat (disk_of store) (logs_in store)) }
        ensures refused { IfErr result (λ e. e ≡ Memory) }
    {
        let trace = Trace::new(alloc)?;
        // Called for its contract.
        let _ready = store.is_ready();
        let origin = Snapshot::of(node.core());
        Ok(Cell {
            alloc,
            desk: Desk::new(alloc, node, seat, store.logs()),
            store,
            trace,
            origin,
        })
    }

    /// Gives the node an event of its own and returns the node's answer. An answered event enters
    /// the history, except that `Word` enters nothing, and `Next` of a waiting message enters as
    /// its delivery.
    ///
    /// Fails as the node does, whose state then stays the same; with `Closed` exactly if the cell
    /// is closed. An event that takes no memory never fails with `Memory`. Either way a line is
    /// added to the trace.
    #[inline(always)]
    pub fn act(&mut self, wire: &Wire, event: &Event) -> Result<Answer, Refusal>
        requires wire { IsSeatOf wire.now self.old.seat }
        requires own { is_own event.now ≡ true }
        ensures given { IsTrue self.old.is_open
            → Given event.now (met self.old.node.early event.now)
            (own_step self.old.node.early (known self.old.seat).me event.now) result
            self.old.node self.new.node (known self.old.seat) (known self.new.seat) }
        ensures memory_free { IsTrue (is_memory_free self.old.node.core.local
            (met self.old.node.early event.now))
            → IfErr result (λ e. e ≢ Memory) }
        ensures closed { IsErrOf result Refusal.Closed ↔ (self.old.is_open ≡ false) }
        ensures shut { self.old.is_open ≡ false
            → self.new ≡ record self.old { trace = self.new.trace } }
        ensures goes_on { GoesOn self.old self.new }
        ensures traced { self.new.trace ≡ keep_last TRACE_EVENTS (self.old.trace
            ++ record { call = call_of event.now; outcome = outcome_of result } ∷ []) }
    {
        if !self.store.is_ready() {
            let closed = CallOutcome::Refused(Refusal::Closed);
            self.trace.push(Call::of(event), closed);
            return Err(Refusal::Closed);
        }
        let answered = self.desk.act(wire, event);
        self.trace.push(Call::of(event), outcome(&answered));
        answered
    }

    /// Shows on the wire's board the last cycle that the saved node counts as ended. Fails with
    /// `Closed` exactly if the cell is closed, and with `NotDirector` exactly if the cell is open
    /// and its node isn't node 0.
    pub fn raise(&mut self, wire: &Wire) -> Result<Raised, Refusal>
        requires wire { IsSeatOf wire.now self.old.seat }
        ensures raised { IfOk result (λ r. (raised_cycle r
            ≡ (known self.old.seat).pair.saved.local.phases.ended)
            × IsRaisedOf wire.now r
            × (known self.new.seat
            ≡ raises (known self.old.seat).pair.saved.local.phases.ended
            (known self.old.seat))) }
        ensures opening { IfOk result (λ r. raised_opening r ≡ (known self.old.seat).opening) }
        ensures closed { IsErrOf result Refusal.Closed ↔ (self.old.is_open ≡ false) }
        ensures director { IfErr result (λ e. e ≢ Refusal.Closed
            → (e ≡ Refusal.NotDirector) × (seat_node self.old.seat ≢ 0)) }
        ensures refused { OnErr result (self.new ≡ self.old) }
        ensures same { IsSame self.old.seat self.new.seat }
        ensures stays { self.new ≡ record self.old { seat = self.new.seat } }
    {
        if !self.store.is_ready() {
            return Err(Refusal::Closed);
        }
        if self.desk.own() != 0 {
            return Err(Refusal::NotDirector);
        }
        Ok(self.desk.raise(wire))
    }

    /// Whether an event happened since the last save or reopening. If false, the node's current
    /// state is the saved one.
    pub fn unsaved(&self) -> bool
        ensures value { result ≡ self.now.unsaved }
        ensures saved { IsUnsaved result (known self.now.seat).pair }
    {
        self.desk.is_unsaved()
    }

    /// The current node. It shows the state that the seat's events lead to, and each message that
    /// it keeps is one that the seat took. The contract states everything that a cell guarantees
    /// between two calls.
    pub fn node(&self) -> &Node
        ensures value { result.now ≡ self.now.node }
        ensures sound { IsSound D.may_leave self.now }
    {
        // Called for its contract.
        let _logs = self.store.logs();
        self.desk.node()
    }

    // The node at its seat, for proofs alone.
    pub(crate) fn first(&self) -> Snapshot<Desk>
        ensures { result.value ≡ desk_of self.now }
    {
        Snapshot::of(&self.desk)
    }

    /// The cell's last calls as text, oldest first. Fails with `Memory` if an allocation fails.
    pub fn trace_lines(&self) -> Result<Vec<String>, Refusal>
        ensures texts { IfOk result (λ v. map string_bytes v.items ≡ map line_text self.now.trace) }
        ensures refused { IfErr result (λ e. e ≡ Memory) }
    {
        self.trace.lines(self.alloc)
    }
}
