//! What an event freed.
ghost use Rattle.std.specs.Prelude.{◌≡◌, ◌&&◌, false, true};
ghost use Rattle.model.specs.Steps.{frees};
ghost use Rattle.c_handles.specs.Gone.{tracking};
ghost use Rattle.c_handles.specs.Lone.{Given, HandedOut};

use super::LoneNode;
use crate::gone::frees;
use c_values::{CFreed, Fault};
use model::{Answer, Event};

impl LoneNode {
    /// Keeps a list of the objects that go from now on, or none. If one is kept already, nothing
    /// changes. Memory is allocated only as objects go.
    pub fn track(&mut self, on: bool)
        ensures { self.new ≡ record self.old { gone = tracking on self.old.gone } }
    {
        self.gone.track(on);
    }

    /// Hands out the objects that are gone and that the kept node doesn't have either, in the order
    /// in which they went, as many as the buffer has room for, and returns how many these are. They
    /// leave the list.
    pub fn freed(&mut self, buffer: &mut [CFreed]) -> usize
        ensures { HandedOut self.old self.new result buffer.old buffer.new }
    {
        self.gone.hand_out(buffer)
    }

    // Whether what the event frees is to be listed.
    #[inline(always)]
    pub(super) fn lists(&self, event: &Event) -> bool
        ensures { result ≡ (frees event.now && self.now.gone.tracks) }
    {
        self.gone.tracks() && frees(event)
    }

    // Gives the node an event that frees objects, and lists these.
    #[inline(never)]
    pub(super) fn perform_listing(&mut self, event: &Event) -> Result<Answer, Fault>
        requires frees { frees event.now ≡ true }
        requires tracks { self.old.gone.tracks ≡ true }
        ensures { Given false self.old self.new event.now result }
    {
        let answer = self.gone.act(&mut self.logged, event)?;
        self.mark_changed(answer.is_change());
        Ok(answer)
    }
}
