//! The board, on which node 0 shows the last ended cycle. It shows only what node 0's saved state
//! counts as ended, so no restart takes back what a watch saw.
ghost use Rattle.std.specs.Prelude.{◌≡◌, ◌≤◌, ◌++◌, ◌∷◌, [], max};
ghost use Rattle.wire.specs.Views.{raises};
ghost use Rattle.wire.specs.Plays.{HasEnded, WasEnded};
ghost use Rattle.wire.specs.Readers.{
  known,
  seat_node,
  IsSeatOf,
  IsSame,
  raised_cycle,
  raised_opening,
  IsRaisedOf,
  IsWatchOf,
  IsSameWatch,
  loaded,
  loads_of,
  heard,
  watch_opening,
  IsHeardOf,
};

use crate::plays::{Looks, Raises};
use crate::seats::{NodeSeat, Raised, Watch, Wire};
use ids::Cycle;
use std::snapshot::Snapshot;

impl Wire {
    /// Raises the board to a cycle, unless it already shows the same or a later one; one atomic
    /// maximum. The seat is node 0's, and its saved state counts the cycle as ended.
    pub fn raise(&self, seat: &mut NodeSeat, cycle: Cycle) -> Raised
        requires wire { IsSeatOf self.now seat.old }
        requires first { seat_node seat.old ≡ 0 }
        requires ended { cycle.number ≤ (known seat.old).pair.saved.local.phases.ended }
        ensures same { IsSame seat.old seat.new }
        ensures raised { known seat.new ≡ raises cycle.number (known seat.old) }
        ensures cycle { (raised_cycle result ≡ cycle.number) × IsRaisedOf self.now result }
        ensures opening { raised_opening result ≡ (known seat.old).opening }
        ensures was_ended { WasEnded (known seat.old).opening cycle.number }
    {
        let board = self.nodes * self.nodes + 1;
        self.table
            .shared
            .fetch_max::<Raises>(&mut seat.seat, board, cycle.number);
        Raised {
            cycle,
            of: Snapshot::of(&seat.seat),
        }
    }

    /// The last cycle that the watch knows node 0 to have ended: the one on the board, or a later
    /// one that the watch has heard of; one load. The watch's view records what this call loaded.
    /// The result is never earlier than what the watch saw before. Node 0's saved state had counted
    /// it as ended.
    pub fn look(&self, watch: &mut Watch) -> Cycle
        requires wire { IsWatchOf self.now watch.old }
        ensures same { IsSameWatch watch.old watch.new }
        ensures number { result.number ≡ max (loaded watch.new) (heard watch.old) }
        ensures found { loads_of watch.new ≡ loads_of watch.old ++ loaded watch.new ∷ [] }
        ensures heard { heard watch.new ≡ heard watch.old }
        ensures later { loaded watch.old ≤ loaded watch.new }
        ensures ended { HasEnded (watch_opening watch.old) (loaded watch.new) }
        ensures was_ended { WasEnded (watch_opening watch.old) result.number }
    {
        let board = self.nodes * self.nodes + 1;
        let number = self.table.shared.load::<Looks>(&mut watch.seat, board);
        if number < watch.heard.number {
            watch.heard
        } else {
            Cycle { number }
        }
    }
}

impl Raised {
    /// The cycle that was raised.
    pub fn cycle(&self) -> Cycle
        ensures { result.number ≡ raised_cycle self.now }
    {
        self.cycle
    }
}

impl Watch {
    /// Informs the watch of a cycle that was raised on its wire. The watch keeps the latest cycle
    /// that it has heard of.
    pub fn hear(&mut self, raised: &Raised)
        requires wire { IsHeardOf self.old raised.now }
        ensures same { IsSameWatch self.old self.new }
        ensures loaded { loaded self.new ≡ loaded self.old }
        ensures loads { loads_of self.new ≡ loads_of self.old }
        ensures heard { heard self.new ≡ max (heard self.old) (raised_cycle raised.now) }
    {
        self.heard = self.heard.max(raised.cycle);
    }
}
