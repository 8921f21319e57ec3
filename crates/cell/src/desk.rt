//! A node at its seat, without its disk. Each call that performs an event of the node also enters
//! it in the history, so the node always shows what its seat's events lead to.
ghost use Rattle.std.specs.Prelude.{◌≡◌};
ghost use Rattle.wire.specs.Readers.{known, seat_node};
ghost use Rattle.cell.specs.Desks.{
  AreTaken,
  IsSoundAt,
  IsSavedNode,
  IsSeatAt,
  IsUnsaved,
  StandsAt,
};
ghost use Rattle.node_store.specs.Acting.{log_of};
ghost use Rattle.node_store.specs.Noted.{IsLogged};

use ids::{Cycle, GREATEST_NODES};
use node::{Core, Node};
use node_store::LoggedNode;
use std::marker::Model;
use std::snapshot::Snapshot;
use wire::NodeSeat;

// The current node with the messages that it keeps until their turn and the events since the last
// save or reopening, the last saved node, and the seat.
#[derive(Drop)]
pub(crate) struct Desk {
    pub(crate) own: u8,
    pub(crate) nodes: u8,
    pub(crate) logged: LoggedNode,
    pub(crate) saved: Snapshot<Core>,
    // The last cycle that the saved state knows to have ended.
    pub(crate) ended: Cycle,
    pub(crate) seat: NodeSeat,
    // For each node: the place, in the window to it, of the frame that is sent next.
    pub(crate) places: [u8; GREATEST_NODES as usize],
    // Whether an event happened since the last save or reopening.
    pub(crate) is_unsaved: bool,
    ghost at: { IsSeatAt own nodes seat },
    ghost stands: { StandsAt own nodes (known seat).pair logged.node.core },
    ghost was: { IsSavedNode own nodes (known seat).pair.saved saved.value },
    ghost ended_is: { ended.number ≡ (known seat).pair.saved.local.phases.ended },
    ghost unsaved: { IsUnsaved is_unsaved (known seat).pair },
    ghost taken: { AreTaken (known seat).taken logged.node.early },
    ghost led: { ∥ IsLogged (log_of logged) saved.value logged.node.core ∥₁ },
}

impl Model for Desk {
    ghost use Rattle.cell.specs.Desks.{DeskView};

    ghost Value = { DeskView };

    ghost view = { λ d. record {
      node = d.logged.node;
      saved = d.saved.value;
      seat = d.seat;
      places = d.places;
      unsaved = d.is_unsaved;
    } };
}

impl Desk {
    // The current node. The contract states everything that a desk guarantees between two calls.
    #[inline(always)]
    pub(crate) fn node(&self) -> &Node
        ensures value { result.now ≡ self.now.node }
        ensures sound { IsSoundAt self.now }
    {
        &self.logged.node
    }

    // The current node with its log, which leads from the saved node to it.
    #[inline(always)]
    pub(crate) fn logged(&self) -> &LoggedNode
        ensures value { result.now.node ≡ self.now.node }
        ensures led { ∥ IsLogged (log_of result.now) self.now.saved self.now.node.core ∥₁ }
    {
        &self.logged
    }

    // The number of the node.
    #[inline(always)]
    pub(crate) fn own(&self) -> u8
        ensures { result ≡ seat_node self.now.seat }
    {
        self.own
    }

    // Whether an event happened since the last save or reopening.
    #[inline(always)]
    pub(crate) fn is_unsaved(&self) -> bool
        ensures value { result ≡ self.now.unsaved }
        ensures saved { IsUnsaved result (known self.now.seat).pair }
    {
        self.is_unsaved
    }
}
