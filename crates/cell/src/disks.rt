//! What a disk does for the node at a desk: it returns the saved node. That enters the history as a
//! restart, or as the save in which the disk failed.
ghost use Rattle.std.specs.Prelude.{◌≡◌, false};
ghost use Rattle.model.specs.View.{kept_view};
ghost use Rattle.node.specs.Keeping.{alone, kept_whole};
ghost use Rattle.wire.specs.Readers.{known, IsSeatOf, IsSame};
ghost use Rattle.cell.specs.Desks.{new_desk, IsAtSeat};
ghost use Rattle.cell.specs.Disks.{is_same_node};
ghost use Rattle.cell.specs.Events.{found_step, reopened_by, saved_by};
ghost use Rattle.wire.specs.Entering.{Entered};
ghost use Rattle.model.specs.declared.step.Step.TheVariants as step;

use crate::desk::Desk;
use crate::entering::{enter_found, enter_save};
use ids::{Cycle, GREATEST_NODES};
use node::Node;
use node_store::{Log, LoggedNode};
use std::alloc::Global;
use std::snapshot::Snapshot;
use wire::{NodeSeat, Wire};

// The last cycle that a node knows to have ended.
fn ended_by(node: &Node) -> Cycle
    ensures { result.number ≡ node.now.core.local.phases.ended }
{
    Cycle {
        number: node.state().ended,
    }
}

impl Desk {
    // A desk for a node that was found on its disk, at its seat.
    pub(crate) fn new(alloc: Global, node: Node, seat: NodeSeat, logs: bool) -> Desk
        requires seat { IsAtSeat node.core seat }
        requires kept { kept_view node.core ≡ node.core }
        requires alone { node ≡ alone node.core }
        ensures { result ≡ new_desk node seat }
    {
        let state = node.state();
        Desk {
            own: state.own,
            nodes: state.shape.nodes(),
            saved: Snapshot::of(node.core()),
            ended: ended_by(&node),
            logged: LoggedNode {
                node,
                logs,
                log: Log::new(alloc),
            },
            seat,
            places: [0; GREATEST_NODES as usize],
            is_unsaved: false,
        }
    }

    // Records that the node was saved.
    pub(crate) fn save(&mut self, wire: &Wire)
        requires wire { IsSeatOf wire.now self.old.seat }
        ensures same { IsSame self.old.seat self.new.seat }
        ensures known { known self.new.seat ≡ saved_by (known self.old.seat) }
        ensures entered { Entered (step.Save (known self.old.seat).me)
            (known self.old.seat) (known self.new.seat) }
        ensures done { self.new ≡ record self.old {
          node = kept_whole self.old.node;
          saved = kept_view self.old.node.core;
          seat = self.new.seat;
          unsaved = false;
        } }
    {
        self.logged.node.mark_saved();
        self.saved = Snapshot::of(self.logged.node.core());
        self.ended = ended_by(&self.logged.node);
        enter_save(wire, &mut self.seat);
        self.is_unsaved = false;
        self.logged.log.clear();
    }

    // Takes the node that was found on the disk: the last saved one, or the current one as saved.
    pub(crate) fn reopen(&mut self, wire: &Wire, found: Node)
        requires wire { IsSeatOf wire.now self.old.seat }
        requires kept { kept_view found.core ≡ found.core }
        requires alone { found ≡ alone found.core }
        requires which { is_same_node found.core self.old.saved ≡ false
            → found.core ≡ kept_view self.old.node.core }
        ensures same { IsSame self.old.seat self.new.seat }
        ensures known { known self.new.seat
            ≡ reopened_by (is_same_node found.core self.old.saved) (known self.old.seat) }
        ensures entered { Entered
            (found_step (is_same_node found.core self.old.saved) (known self.old.seat).me)
            (known self.old.seat) (known self.new.seat) }
        ensures done { self.new ≡ new_desk found self.new.seat }
    {
        enter_found(wire, &mut self.seat, found.core(), &self.saved);
        self.saved = Snapshot::of(found.core());
        self.ended = ended_by(&found);
        self.logged.node = found;
        self.places = [0; GREATEST_NODES as usize];
        self.is_unsaved = false;
        self.logged.log.clear();
    }
}
