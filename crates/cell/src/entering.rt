//! How a save and a reopening enter the history of the space. Only proofs know which of its events
//! they are; these functions pass them from the node to the wire.
ghost use Rattle.std.specs.Prelude.{◌≡◌};
ghost use Rattle.model.specs.declared.step.Step.{Step as StepOf};
ghost use Rattle.model.specs.declared.step.Step.TheVariants as step;
ghost use Rattle.wire.specs.Views.{Pair, ticks};
ghost use Rattle.wire.specs.Plays.{Happens};
ghost use Rattle.wire.specs.Readers.{known, IsSeatOf, IsSame};
ghost use Rattle.cell.specs.Events.{saved_by};
ghost use Rattle.wire.specs.Entering.{Entered};

use node::Core;
use std::snapshot::Snapshot;
use wire::{NodeSeat, Wire};

// Enters a save of the seat's node.
pub(crate) fn enter_save(wire: &Wire, seat: &mut NodeSeat)
    requires wire { IsSeatOf wire.now seat.old }
    ensures same { IsSame seat.old seat.new }
    ensures ticked { known seat.new ≡ saved_by (known seat.old) }
    ensures entered { Entered (step.Save (known seat.old).me) (known seat.old) (known seat.new) }
{
    wire.tick(seat);
}

// Enters what led to the node that was found on the disk: a restart of the seat's node, or its
// save. Only proofs read the two nodes.
pub(crate) fn enter_found(wire: &Wire, seat: &mut NodeSeat, _found: &Core, _saved: &Snapshot<Core>)
    ghost happened: { StepOf × Pair }
    requires wire { IsSeatOf wire.now seat.old }
    requires event { Happens (known seat.old) happened.0 happened.1 }
    ensures same { IsSame seat.old seat.new }
    ensures ticked { known seat.new ≡ ticks happened.0 happened.1 (known seat.old) }
    ensures entered { Entered happened.0 (known seat.old) (known seat.new) }
{
    wire.tick(seat);
}
