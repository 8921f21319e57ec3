//! What a seat learns of the history: a list of events that leads to what it knows, and that begins
//! with a list which another seat learned before. Only proofs know the list. So what several seats
//! know, one after another, is known of one moment (docs/WIRE.md, "One moment").
ghost use Rattle.std.specs.Prelude.{◌≡◌};
ghost use Rattle.wire.specs.Views.{learns};
ghost use Rattle.wire.specs.Plays.{Learns as HasLearned};
ghost use Rattle.wire.specs.Readers.{known, note_seen, IsNoteOf, IsSame, IsSeatOf};

use crate::plays::{Heeds, Learns, Notes, Noting};
use crate::seats::{NodeSeat, Note, Wire};
use std::marker::Brand;

impl Wire {
    /// Notes the list of events that the seat learned last, for another seat of the wire; one load.
    pub fn note(&self, seat: &mut NodeSeat) -> Note
        requires wire { IsSeatOf self.now seat.old }
        ensures same { IsSame seat.old seat.new }
        ensures known { known seat.new ≡ known seat.old }
        ensures of { IsNoteOf self.now result }
        ensures seen { note_seen result ≡ (known seat.old).seen }
    {
        let seat = self.table.shared.split_seat::<Notes>(&mut seat.seat);
        Note { seat }
    }

    /// Learns a list of events that leads to what the seat knows of its node, and that begins with
    /// the one in the note; two loads. The note is used up.
    pub fn learn(&self, seat: &mut NodeSeat, note: Note)
        requires wire { IsSeatOf self.now seat.old }
        requires note { IsNoteOf self.now note }
        ensures same { IsSame seat.old seat.new }
        ensures learned { HasLearned (note_seen note) (known seat.old) (known seat.new) }
    {
        self.heed::<Brand>(seat, note);
        let count = self.nodes * self.nodes;
        self.table.shared.load::<Learns>(&mut seat.seat, count);
    }

    // Makes the list in the note the one that the seat learned last.
    fn heed<N: Noting>(&self, seat: &mut NodeSeat, note: Note)
        requires wire { IsSeatOf self.now seat.old }
        requires note { IsNoteOf self.now note }
        requires view { note.seat.me.0 ≡ N.view }
        ensures same { IsSame seat.old seat.new }
        ensures known { known seat.new ≡ learns (note_seen note) (known seat.old) }
    {
        let Note { seat: other } = note;
        self.table
            .shared
            .join_seat::<Heeds<N>>(&mut seat.seat, other);
    }
}
