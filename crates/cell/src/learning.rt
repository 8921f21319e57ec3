//! What a desk's seat learns of the history. Nothing else of the desk changes.
ghost use Rattle.std.specs.Prelude.{◌≡◌};
ghost use Rattle.wire.specs.Plays.{Learns};
ghost use Rattle.wire.specs.Readers.{known, note_seen, IsNoteOf, IsSame, IsSeatOf};

use crate::desk::Desk;
use wire::{Note, Wire};

impl Desk {
    // Notes the list of events that the seat learned last.
    pub(crate) fn note(&mut self, wire: &Wire) -> Note
        requires wire { IsSeatOf wire.now self.old.seat }
        ensures of { IsNoteOf wire.now result }
        ensures seen { note_seen result ≡ (known self.old.seat).seen }
        ensures same { IsSame self.old.seat self.new.seat }
        ensures known { known self.new.seat ≡ known self.old.seat }
        ensures stays { self.new ≡ record self.old { seat = self.new.seat } }
    {
        wire.note(&mut self.seat)
    }

    // Learns a list of events that begins with the one in the note.
    pub(crate) fn learn(&mut self, wire: &Wire, note: Note)
        requires wire { IsSeatOf wire.now self.old.seat }
        requires note { IsNoteOf wire.now note }
        ensures same { IsSame self.old.seat self.new.seat }
        ensures learned { Learns (note_seen note) (known self.old.seat) (known self.new.seat) }
        ensures stays { self.new ≡ record self.old { seat = self.new.seat } }
    {
        wire.learn(&mut self.seat, note);
    }
}
