//! Collection never gets stuck. From every space that a run reaches, the collector alone ends the
//! cycle, by moves that the space determines (`specs/Strategy`), and within a bound
//! (`specs/Bounds`). `specs/Progress` says this in four statements. A fifth one says that a Reclaim
//! between any two moves passes no bound. Four say that the collector gets there in any order of
//! its steps, if these come in fair rounds (`specs/Fairness`). `proofs/progress` proves all of them
//! over the definitions of crate `model` and the invariant of this crate (`Invariant`).
ghost use Rattle.laws.specs.Statements.{OfSpaces};
ghost use Rattle.laws.specs.Progress.{MarkingCanEnd, CycleCanEnd, GarbageCanGo, EndIsFoundSoon, ReclaimsAddNoWork};
ghost use Rattle.laws.specs.Fairness.{RoundsEndMarking, RoundsEndCycle, RoundsLetBegin, RoundsFreeGarbage};

/// The theorems. They hold for every list of steps of every space, and for the moves that the
/// strategy plays after it. Each step of these is answered, if no link runs out of numbers. Nothing
/// is said about memory and the size of images, which the definitions don't know, nor about who
/// plays the moves.
///
/// This function does nothing: its contract is the theorems.
pub fn laws()
    // Node 0 counts the cycle's marking as ended.
    ensures marking { OfSpaces MarkingCanEnd }
    // Each node has swept the cycle, and node 0 knows it.
    ensures cycle { OfSpaces CycleCanEnd }
    // Each node has swept the next cycle too. Once each is saved, none of them has an object that
    // was garbage at the start, saved or not, rings of objects across nodes included.
    ensures garbage { OfSpaces GarbageCanGo }
    // Once marking has terminated, three rounds of the token are enough, and the moves for what
    // else is in flight.
    ensures soon { OfSpaces EndIsFoundSoon }
    // A Reclaim, of all or of the young, adds no work.
    ensures reclaims { OfSpaces ReclaimsAddNoWork }
    // After enough rounds, in each of which every node has its turn and messages come in on every
    // link, node 0 counts the cycle's marking as ended, whatever the order of the steps.
    ensures rounds_end_marking { OfSpaces RoundsEndMarking }
    // After more rounds each node has swept the cycle, and node 0 knows it.
    ensures rounds_end_cycle { OfSpaces RoundsEndCycle }
    // Then node 0 may begin the next cycle.
    ensures rounds_let_begin { OfSpaces RoundsLetBegin }
    // The same again in that cycle, and garbage is gone.
    ensures rounds_free_garbage { OfSpaces RoundsFreeGarbage }
{}
