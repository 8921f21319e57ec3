//! The theorems on what may happen to a program, as the contract of one function that does nothing.
//! The statements are in `specs/Laws`, over the definitions of `specs/Runs`.
ghost use Rattle.programs.specs.Laws.{AnswersLeave, AnswersStay, AreInOrder, DoneIsDoneOnce};
ghost use Rattle.programs.specs.Laws.{LateOpeningsFail, NewIsOpened, NextIsDone, OpeningsStay};
ghost use Rattle.programs.specs.Laws.{RefusedChangeNothing};
ghost use Rattle.programs.specs.Runs.{OfEveryRun};

/// The theorems. They hold after any list of steps: openings and requests of any process with any
/// numbers, in any order and any number of times; saves that are stored, fail or never end; crashes
/// at any moment; the operator.
///
/// The function does nothing; its contract states the theorems.
pub fn laws()
    // The requests that were performed are those from 1 up to the program's number, in order, each
    // once, for the process that spoke for the program then. So it is now, in what a save holds,
    // and in what is stored.
    ensures in_order { OfEveryRun AreInOrder }
    // What an answer shows that has left is stored, and no crash takes it back.
    ensures answers_stay { OfEveryRun AnswersStay }
    // A request that was answered as done was performed, and is never performed again.
    ensures done_once { OfEveryRun DoneIsDoneOnce }
    // An opening that was answered stays known, and is never taken again.
    ensures openings_stay { OfEveryRun OpeningsStay }
    // A late opening of an earlier process is refused.
    ensures late_openings { OfEveryRun LateOpeningsFail }
    // What is refused changes nothing.
    ensures refused { OfEveryRun RefusedChangeNothing }
    // The next request of the process that speaks for the program is performed, and is answered
    // once it is stored.
    ensures next { OfEveryRun NextIsDone }
    // The next opening is taken, of whatever process.
    ensures new { OfEveryRun NewIsOpened }
    // Each answer may leave once the next save is stored.
    ensures leave { OfEveryRun AnswersLeave }
{}
