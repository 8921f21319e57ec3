//! How an event that a node has answered enters the history of the space. What changes nothing,
//! such as a repeat or the reading of a word, doesn't enter it.
ghost use Rattle.std.specs.Prelude.{◌≡◌, true, Ok};
ghost use Rattle.model.specs.Effects.{is_change};
ghost use Rattle.model.specs.declared.event.Event.{Event};
ghost use Rattle.model.specs.declared.step.Step.{Step};
ghost use Rattle.wire.specs.Entering.{known_after, pair_by, Entered};
ghost use Rattle.wire.specs.Views.{Pair, ticks};
ghost use Rattle.wire.specs.Plays.{Happens};
ghost use Rattle.wire.specs.Readers.{known, IsSeatOf, IsSame};

use crate::seats::{NodeSeat, Wire};
use model::Answer;

// Enters the step of the seat's node that an event was.
fn enter_step(wire: &Wire, seat: &mut NodeSeat)
    ghost happened: { Step × Pair }
    requires wire { IsSeatOf wire.now seat.old }
    requires event { Happens (known seat.old) happened.0 happened.1 }
    ensures same { IsSame seat.old seat.new }
    ensures ticked { known seat.new ≡ ticks happened.0 happened.1 (known seat.old) }
    ensures entered { Entered happened.0 (known seat.old) (known seat.new) }
{
    wire.tick(seat);
}

impl Wire {
    /// Enters an event that the seat's node has answered into the history of the space, if it
    /// changed the node, and returns whether it did; see [`tick`](Wire::tick). Which step of the
    /// space and which event of the node it was, only proofs say.
    pub fn enter(&self, seat: &mut NodeSeat, answer: &Answer) -> bool
        ghost was: { Step × Event }
        requires wire { IsSeatOf self.now seat.old }
        requires event { is_change answer.now ≡ true
            → Happens (known seat.old) was.0 (pair_by was.1 (known seat.old).pair) }
        ensures same { IsSame seat.old seat.new }
        ensures known { known seat.new
            ≡ known_after was.1 was.0 (Ok answer.now) (known seat.old) }
        ensures entered { is_change answer.now ≡ true
            → Entered was.0 (known seat.old) (known seat.new) }
        ensures changed { result ≡ is_change answer.now }
    {
        if answer.is_change() {
            enter_step(self, seat);
            true
        } else {
            false
        }
    }
}
