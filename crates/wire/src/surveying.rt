//! What seats know, taken together at one moment. Each seat learns a list of events in one round,
//! and each again in a second one. So the list that the last seat learned in the first round lies
//! between the two lists of every seat, and no event of a seat's node is between those.
ghost use Rattle.std.specs.Prelude.{◌≡◌, ◌<◌, length};
ghost use Rattle.wire.specs.Moments.{AreAtOnce, EachAt, HasLearned, HaveLearned, LearnedFrom, Seating};
ghost use Rattle.wire.specs.Plays.{Learns};
ghost use Rattle.wire.specs.Readers.{known, note_seen, opened_with, IsNoteOf, IsSeatOf};

use crate::seats::{Note, Wire};

/// What has a seat on a wire. When the seat learns something of the history, nothing else of it
/// changes.
pub trait Learner {
    /// How it has its seat.
    ghost seating: { Seating Self };

    /// Notes the list of events that the seat learned last; see [`Wire::note`].
    fn note(&mut self, wire: &Wire) -> Note
        requires wire { IsSeatOf wire.now (seating.seat self.old) }
        ensures of { IsNoteOf wire.now result }
        ensures seen { note_seen result ≡ (known (seating.seat self.old)).seen }
        ensures known { known (seating.seat self.new) ≡ known (seating.seat self.old) }
        ensures learned { HasLearned seating self.old self.new };

    /// Learns a list of events that begins with the one in the note; see [`Wire::learn`].
    fn learn(&mut self, wire: &Wire, note: Note)
        requires wire { IsSeatOf wire.now (seating.seat self.old) }
        requires note { IsNoteOf wire.now note }
        ensures leads { Learns (note_seen note) (known (seating.seat self.old))
            (known (seating.seat self.new)) }
        ensures learned { HasLearned seating self.old self.new };
}

// The learner in the place `to` learns from the one in the place `from`.
fn learn_from<T: Learner>(wire: &Wire, learners: &mut [T], to: usize, from: usize)
    requires wire { EachAt (λ k x. IsSeatOf wire.now (T.seating.seat x)) learners.old }
    requires to { to < length learners.old }
    requires from { from < length learners.old }
    ensures { LearnedFrom T.seating to from learners.old learners.new }
{
    let note = learners[from].note(wire);
    learners[to].learn(wire, note);
}

/// Brings what has seats of one wire, all of them or some, to know of one moment: one list of
/// events leads to what all of them know, whatever other threads do meanwhile. Nothing else
/// changes.
///
/// For each it takes six loads of words of the wire. It allocates nothing.
pub fn survey<T: Learner>(wire: &Wire, learners: &mut [T])
    requires { EachAt (λ k x. IsSeatOf wire.now (T.seating.seat x)) learners.old }
    ensures at_once { AreAtOnce T.seating (opened_with wire.now) learners.new }
    ensures learned { HaveLearned T.seating learners.old learners.new }
{
    let mut last = 0;
    for to in 0..learners.len() {
        learn_from(wire, learners, to, last);
        last = to;
    }
    for place in 0..learners.len() {
        learn_from(wire, learners, place, last);
    }
}
