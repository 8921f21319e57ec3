//! What a cell's seat learns of the history, whether the cell is open or closed. Nothing else of
//! the cell changes.
ghost use Rattle.cell.specs.Moments.{seating};

use super::Cell;
use disk::Disk;
use wire::{Learner, Note, Wire};

impl<D: Disk> Learner for Cell<D> {
    ghost seating = { seating };

    fn note(&mut self, wire: &Wire) -> Note {
        self.desk.note(wire)
    }

    fn learn(&mut self, wire: &Wire, note: Note) {
        self.desk.learn(wire, note);
    }
}
