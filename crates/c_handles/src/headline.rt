//! The theorems about programs that hold the nodes of a space by handles, as the contract of one
//! function that does nothing.
ghost use Rattle.laws.specs.Fairness.{RoundsEndCycle, RoundsEndMarking, RoundsFreeGarbage, RoundsLetBegin};
ghost use Rattle.laws.specs.Privacy.{PrivateIsUnknown};
ghost use Rattle.laws.specs.Progress.{CycleCanEnd, EndIsFoundSoon, GarbageCanGo, MarkingCanEnd};
ghost use Rattle.laws.specs.Statements.{AcknowledgedIsTakenIn, BalancesAddUp, CutsExtend, GarbageGoes, NetGrows, NodesAgree, NoneBeyond, OldGarbageGoes, ReachIsLive, ReachResolves, TargetsAreLive};
ghost use Rattle.c_handles.specs.Fairness.{CallsEndCycle, CallsEndMarking, CallsFreeGarbage, TurnsAreRounds};
ghost use Rattle.c_handles.specs.Lists.{ListsAreExact};
ghost use Rattle.c_handles.specs.Laws.{
  CallsGoOn,
  HandlesAgree,
  HandlesAreToldSo,
  HandlesAreUnseen,
  HandlesDropOldGarbage,
  NoneIsRefusedInTurn,
  OfEveryShown,
  OfShownSpaces,
  ProgramsAreShown,
  ProgramsGoOn,
  ReclaimsFreeNone,
  SweepsFreeNone,
  TurnsAreCalls,
};

/// The theorems about programs over C that hold all nodes of a space, each by a handle, carry the
/// frames and store the images and batches. They hold after every list of calls of
/// [`NodeHandle`](crate::NodeHandle), of storing, and of ends of handles at any moment, if the
/// caller does what `include/markring.h` says that it owes. What that is, `Owes` has one clause for
/// each line.
///
/// At any time, each node may be opened next with what is stored now, or with an image or a batch
/// that was taken since then. Whatever that is for each node, together the handles show a space
/// that a run reaches, from whose saved states the nodes would go on (`shown`). It goes on as the
/// calls do (`goes_on`). All theorems on runs hold of it. So no sweep and no reclaim frees what is
/// reachable, whichever of their states the other nodes go on from, and the rest follows.
///
/// The calls are those of markring.h on nodes that change a node, store it or give out frames.
/// Reads change nothing, and a call on an empty handle does nothing. Calls on two handles at the
/// same time count as one after the other, in either order: a call reads and writes only what is in
/// its handle.
///
/// No clause says that anyone carries frames or stores images, nor that a node takes every
/// acknowledgement. But if callers go on in rounds, so that every node works and messages come in,
/// the cycle ends and garbage goes (`calls_end_marking` and what follows). They do if each node has
/// its turns (`turns_are_rounds`).
///
/// The function does nothing; its contract states the theorems.
pub fn laws()
    // Whatever is stored of each node when it is opened next, a run reaches a space that the
    // handles show, whose saved states are what is stored, and in which all frames that were given
    // out are released.
    ensures shown { ProgramsAreShown }
    // For each choice of what is stored after some calls, there is one before them. The space that
    // the handles showed with that one goes on, by a list of steps, to one that they show.
    ensures goes_on { ProgramsGoOn }
    // The same of one call. In these steps programs are told what the call returns to its program,
    // and nothing else.
    ensures each_call { CallsGoOn }
    // `work` does what calls do that give the node its events one by one.
    ensures turns { TurnsAreCalls }
    // No sweep of a handle's node frees anything that is reachable, and no reclaim does.
    ensures frees_none_reachable { SweepsFreeNone }
    ensures reclaims_free_none_reachable { ReclaimsFreeNone }
    // If the node in a handle counts a cycle's marking as ended, it has ended.
    ensures agreement { HandlesAgree }
    // Once the node in a handle has swept a cycle, it no longer has anything saved that was garbage
    // before that cycle began.
    ensures old_garbage { HandlesDropOldGarbage }
    // A message that was given out isn't refused by the node that it is for, except if it comes too
    // early, if numbers run out, or if memory does.
    ensures in_turn { NoneIsRefusedInTurn }
    // What programs were told and received is a run of a space without a collector, in each choice
    // of current and saved states, and that space looks like the choice.
    ensures transparent { HandlesAreUnseen }
    // Whatever a program is told about an event, a program of that space may be told.
    ensures told { HandlesAreToldSo }
    // What a node's list handed out since it was begun, with what is still to come, are just the
    // objects that some state of this handle had and its current one hasn't, each once.
    ensures lists { ListsAreExact }
    // The theorems on runs hold of each space that the handles show.
    ensures net { OfEveryShown NetGrows }
    ensures within { OfEveryShown NoneBeyond }
    ensures taken_in { OfEveryShown AcknowledgedIsTakenIn }
    ensures live { OfEveryShown ReachIsLive }
    ensures cuts_extend { OfEveryShown CutsExtend }
    ensures nodes_agree { OfEveryShown NodesAgree }
    ensures balances { OfEveryShown BalancesAddUp }
    ensures old_garbage_goes { OfEveryShown OldGarbageGoes }
    ensures garbage_goes { OfEveryShown GarbageGoes }
    ensures resolves { OfEveryShown ReachResolves }
    ensures private { OfEveryShown PrivateIsUnknown }
    ensures targets { OfEveryShown TargetsAreLive }
    // From each space that the handles show, the collector's moves end the cycle and free what was
    // garbage, within their bounds. No clause says that callers play them.
    ensures marking { OfShownSpaces MarkingCanEnd }
    ensures cycle { OfShownSpaces CycleCanEnd }
    ensures garbage { OfShownSpaces GarbageCanGo }
    ensures soon { OfShownSpaces EndIsFoundSoon }
    // The same in any order of the collector's steps, if these come in fair rounds.
    ensures rounds_end_marking { OfShownSpaces RoundsEndMarking }
    ensures rounds_end_cycle { OfShownSpaces RoundsEndCycle }
    ensures rounds_let_begin { OfShownSpaces RoundsLetBegin }
    ensures rounds_free_garbage { OfShownSpaces RoundsFreeGarbage }
    // Callers come to that who do nothing but work, save and carry frames, in whatever order. After
    // enough rounds of calls, in each of which every node works and messages come in on every link,
    // node 0 counts the cycle's marking as ended.
    ensures calls_end_marking { CallsEndMarking }
    // After more rounds each node has swept the cycle.
    ensures calls_end_cycle { CallsEndCycle }
    // Node 0 begins another cycle, and after enough rounds again garbage is in no handle.
    ensures calls_free_garbage { CallsFreeGarbage }
    // It is such a round if each node has a turn twice, in any order: it works, an image or a batch
    // is stored, and then each frame that it has for another node is given to that node.
    ensures turns_are_rounds { TurnsAreRounds }
{}
