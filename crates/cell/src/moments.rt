//! What cells know, taken together at one moment.
ghost use Rattle.wire.specs.Readers.{opened_with, IsSeatOf};
ghost use Rattle.cell.specs.Moments.{AreAtOnce, EachCell, HaveLearned};

use crate::cell::Cell;
use disk::Disk;
use wire::Wire;

/// Brings cells of one wire, all or some, to know of one moment; see [`wire::survey`]. So the
/// theorems on the world at the end of a list of events apply to these cells together
/// ([`laws_at_once`](crate::laws_at_once)). Nothing else changes, open or closed.
pub fn survey<D: Disk>(wire: &Wire, cells: &mut [Cell<D>])
    requires { EachCell (λ k c. IsSeatOf wire.now c.seat) cells.old }
    ensures at_once { AreAtOnce (opened_with wire.now) cells.new }
    ensures learned { HaveLearned cells.old cells.new }
{
    wire::survey(wire, cells);
}
