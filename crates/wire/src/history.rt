//! The history of a space: one word that counts the events of all nodes. The order of these steps
//! is the order in which the events of all threads form a run.
ghost use Rattle.std.specs.Prelude.{◌≡◌, ℕ};
ghost use Rattle.model.specs.declared.step.Step.{Step};
ghost use Rattle.wire.specs.Views.{Pair, ticks};
ghost use Rattle.wire.specs.Plays.{Happens, Enters, ticked};
ghost use Rattle.wire.specs.Readers.{known, IsSeatOf, IsSame};

use crate::plays::{Happening, Ticks};
use crate::seats::{NodeSeat, Wire};
use std::marker::Brand;

impl Wire {
    /// Enters one event of the seat's node into the history of the space; one addition to the
    /// count, modulo 2^64. Only proofs know which event it is and which states the node has after
    /// it. A delivery is of a message that the seat took from the wire.
    pub fn tick(&self, seat: &mut NodeSeat)
        ghost happened: { Step × Pair }
        requires wire { IsSeatOf self.now seat.old }
        requires event { Happens (known seat.old) happened.0 happened.1 }
        ensures same { IsSame seat.old seat.new }
        ensures ticked { known seat.new ≡ ticks happened.0 happened.1 (known seat.old) }
        ensures entered { (count : ℕ)
            × Enters happened.0 (known seat.old) count (known seat.new) }
    {
        self.tick_as::<Brand>(seat);
    }

    fn tick_as<H: Happening>(&self, seat: &mut NodeSeat)
        requires wire { IsSeatOf self.now seat.old }
        requires event { Happens (known seat.old) H.event H.pair }
        ensures same { IsSame seat.old seat.new }
        ensures ticked { known seat.new ≡ ticks H.event H.pair (known seat.old) }
        ensures entered { (count : ℕ) × Enters H.event (known seat.old) count (known seat.new) }
    {
        let count = self.nodes * self.nodes;
        self.table
            .shared
            .fetch_add::<Ticks<H>>(&mut seat.seat, count, 1);
    }
}
