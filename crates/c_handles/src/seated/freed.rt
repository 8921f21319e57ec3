//! What an event of a cell freed.
ghost use Rattle.std.specs.Prelude.{◌≡◌, ◌&&◌, true, IsTrue};
ghost use Rattle.model.specs.Steps.{is_own};
ghost use Rattle.c_handles.specs.Cells.{CellActs, CellHandsOut};
ghost use Rattle.model.specs.Steps.{frees};
ghost use Rattle.c_handles.specs.Gone.{tracking};

use super::SeatedCell;
use crate::gone::frees;
use c_values::{CFreed, Fault};
use model::{Answer, Event};

impl SeatedCell {
    /// Keeps a list of the objects that go from now on, or none. If one is kept already, nothing
    /// changes. Memory is allocated only as objects go.
    pub fn track(&mut self, on: bool)
        ensures { self.new ≡ record self.old { gone = tracking on self.old.gone } }
    {
        self.gone.track(on);
    }

    /// Hands out the objects that are gone and that the saved node doesn't have either, in the
    /// order in which they went, as many as the buffer has room for, and returns how many these
    /// are. They leave the list.
    pub fn freed(&mut self, buffer: &mut [CFreed]) -> usize
        ensures { CellHandsOut self.old self.new result buffer.old buffer.new }
    {
        self.gone.hand_out(buffer)
    }

    // Whether what the event frees is to be listed. A closed cell refuses it.
    #[inline(always)]
    pub(super) fn lists(&self, event: &Event) -> bool
        ensures { result ≡ (frees event.now && (self.now.gone.tracks && self.now.cell.is_open)) }
    {
        frees(event) && self.gone.tracks() && self.cell.is_open()
    }

    // Gives the node an event that frees objects, and lists these.
    #[inline(never)]
    pub(super) fn act_listing(&mut self, event: &Event) -> Result<Answer, Fault>
        requires own { is_own event.now ≡ true }
        requires frees { frees event.now ≡ true }
        requires tracks { self.old.gone.tracks ≡ true }
        requires ready { IsTrue self.old.cell.is_open }
        ensures { CellActs event.now self.old self.new result }
    {
        let before = self.gone.expect(self.cell.node().core(), event)?;
        match self.cell.act(&self.wire, event) {
            Ok(answer) => {
                self.gone.confirm(self.cell.node().core(), event, before);
                self.is_fresh = false;
                Ok(answer)
            }
            Err(refusal) => {
                self.gone.withdraw(before);
                Err(Fault::Refused(refusal))
            }
        }
    }
}
