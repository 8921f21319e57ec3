//! The theorems over all runs, as the contract of one function that does nothing. The statements
//! are in `laws/specs`, and docs/PROOF.md explains their terms.
ghost use Rattle.laws.specs.Copies.{CopiesGoTogether};
ghost use Rattle.laws.specs.Freeing.{GoneForGood, OthersLoseNothing};
ghost use Rattle.laws.specs.Sights.{CollectorIsUnseen};
ghost use Rattle.laws.specs.Statements.{OfEveryRun, OfSpaces, OnlyEventsChange, CutsExtend, ReachIsLive, SweepsFreeNoneReachable, NodesAgree, BalancesAddUp, GarbageGoes, OldGarbageGoes, ReachResolves, TargetsAreLive, NetGrows, NoneRefusedInTurn, NoneBeyond, AcknowledgementsGoThrough, HandsGoThrough, AcknowledgedIsTakenIn};
ghost use Rattle.laws.specs.Privacy.{PrivateGarbageGoes, PrivateIsUnknown, ReclaimsFreeNoneReachable, YoungGarbageGoes};
ghost use Rattle.laws.specs.Progress.{MarkingCanEnd, CycleCanEnd, GarbageCanGo, EndIsFoundSoon, ReclaimsAddNoWork, ResolvesAddNoWork};
ghost use Rattle.world.specs.Answered.{AnswersAreUnseen};
ghost use Rattle.world.specs.Played.{PlayedIsAnswered};

/// The headline. It holds for every list of steps of every space: events of programs and of the
/// collector, deliveries, losses, repeats, reorderings, acknowledgements, saves and restarts.
///
/// The collector can't be seen by programs. Everything that they are told and receive could also be
/// told and received in a space in which no object is ever freed (`transparent`; for the answers of
/// the code, `answers`). The remaining clauses support this one.
///
/// No node frees an object that is reachable from a register, a letter or a message in flight
/// (`frees_none_reachable`). This holds whichever of their states, current or saved, the other
/// nodes go on from: everything that is reachable in such a choice of states is live (`live`).
///
/// No node counts the marking of a cycle as ended before it has ended, nor before node 0 does. A
/// node that hasn't been told yet may count it later. Marking has ended when every node has joined
/// the cycle, no node in it has a grey object, and no message that the cycle counts is in flight
/// (`agreement`). The nodes' balances add up to the number of these messages (`balances`). Anything
/// saved that was already garbage before a cycle began has been freed once that cycle has been
/// swept, rings of objects across nodes included (`old_garbage`). So has anything that no save
/// held, unless its node restarted meanwhile (`garbage_goes`).
///
/// No other node knows a private object (`private`). So its node frees it without the others as
/// soon as nothing needs it (`private_garbage`). It may look only at objects that it made since it
/// last did that (`young_garbage`). Neither frees anything reachable
/// (`reclaims_free_none_reachable`).
///
/// For a program this means: a reference that it holds, or is sent, names an existing object. A
/// request about another node's object finds the object (`targets`). A frame that a node released
/// is never refused as one that doesn't fit. This holds however late or often it comes, and
/// whatever was saved and restarted meanwhile (`net`, `in_turn`; for acknowledgements `within`,
/// `acknowledgements`, `hands`, `taken_in`). Restarts need no further care, since any cut after one
/// could also have come about without it (`cuts_extend`). Nor does it matter from which saves of
/// one run the nodes go on, if none has received more than was sent (`copies`). A step that isn't
/// an event changes nothing (`events`).
///
/// Collection never gets stuck. From every space that a run reaches, the collector alone ends the
/// cycle's marking (`marking`), has each node sweep the cycle (`cycle`), and frees what was garbage
/// at the start (`garbage`). It does so by moves that the space determines, within a bound on their
/// number. Once marking has terminated, three rounds of the token are enough to find that (`soon`).
/// The code answers each step of these moves, unless it has no memory, or an image is too large
/// (`played`). [`Sim::collect`](crate::Sim::collect) plays them. No clause says that anyone calls
/// it, or that messages arrive.
///
/// This function does nothing: its contract is the theorems. The contract of
/// [`Sim::step`](crate::Sim::step) is about the same spaces.
pub fn laws()
    // In each choice of current and saved states, take all that programs were told and received in
    // the run, except what restarts have undone. It is a run of a space without a collector, in
    // which no object is ever freed. That run ends with the same registers, letters, messages of
    // programs and reachable objects.
    ensures transparent { CollectorIsUnseen }
    // The same for the code. The answers to any calls of `Sim::step` after `Sim::new`, as programs
    // see them, are a run of that space, in each choice of current and saved states.
    ensures answers { AnswersAreUnseen }
    // A step that isn't an event changes nothing: for example reading a word, a repeat, or a
    // refused step.
    ensures events { OnlyEventsChange }
    // A cut is a choice of a state of each node, the current or the saved one. Each cut of any
    // later moment of a run is a cut of this moment, followed by steps without saves and restarts.
    ensures cuts_extend { OfEveryRun CutsExtend }
    // Take for each node a state that was its saved one at some moment of one run. If none has
    // received more messages of another than that one has sent to it, a run reaches the space whose
    // current and saved states these are.
    ensures copies { CopiesGoTogether }
    // In each cut, every reference that is reachable from a register, a letter or a message in
    // flight names an object that its owner still has.
    ensures live { OfEveryRun ReachIsLive }
    // In each cut with the current state of a sweeping node, that node's reachable objects are
    // there before the sweep, and the same after it.
    ensures frees_none_reachable { OfEveryRun SweepsFreeNoneReachable }
    // In each cut, if a node counts a cycle's marking as ended, so does node 0, and so does every
    // node in a later cycle. All nodes have joined the cycle, no node in it has a grey object, and
    // no message that it counts is in flight.
    ensures agreement { OfEveryRun NodesAgree }
    // In each cut, the balances add up to the number of messages in flight that node 0's cycle
    // counts.
    ensures balances { OfEveryRun BalancesAddUp }
    // Take an object that a node had saved before a cycle began, and that was reachable in no cut
    // then. In any later cut in which the node has swept that cycle, it no longer has the object,
    // unless a program resolved a reference that led to it.
    ensures old_garbage { OfEveryRun OldGarbageGoes }
    // The same of an object that the node's current state had, saved or not, as long as the node
    // doesn't restart.
    ensures garbage_goes { OfEveryRun GarbageGoes }
    // A node that resolves a reachable object of its own gets it, or is told to try again, which
    // may be only while it marks.
    ensures resolves { OfEveryRun ReachResolves }
    // Only a Sweep and a Reclaim free objects, and only a restart loses others. No other step does.
    ensures loses { OfEveryRun OthersLoseNothing }
    // What was freed doesn't come back, and its reference is given to no other object, as long as
    // its node doesn't restart.
    ensures gone_for_good { OfEveryRun GoneForGood }
    // In each cut, no other node has a reference to a private object, and no message mentions one,
    // neither in flight, nor received, nor released.
    ensures private { OfEveryRun PrivateIsUnknown }
    // After a Reclaim of all, a node has exactly the objects that it needed: those that are shared,
    // those that its registers and letters name, and those that the places of these lead to. So
    // rings of private objects go too. This holds of every node in any state.
    ensures private_garbage { PrivateGarbageGoes }
    // After a Reclaim of the young, it has its old objects, and of the others exactly those that it
    // needed: also those that old ones may name, and not what is in places of old ones.
    ensures young_garbage { YoungGarbageGoes }
    // In each cut with the current state of a node that reclaims, that node's reachable objects are
    // there before, and after it, when they are old and otherwise the same.
    ensures reclaims_free_none_reachable { OfEveryRun ReclaimsFreeNoneReachable }
    // A Mark, Put or Get that is received finds the object that it is about: it is the receiver's,
    // and live.
    ensures targets { OfEveryRun TargetsAreLive }
    // A frame that was released, a message or an acknowledgement, may be delivered at any later
    // time.
    ensures net { OfEveryRun NetGrows }
    // No released message is refused as one for another node or space. It is refused only if it is
    // so early that the receiver has no place for it, or if a message that it makes the receiver
    // send would need a number above the greatest.
    ensures in_turn { OfEveryRun NoneRefusedInTurn }
    // No acknowledgement covers more than was released, and its receiver accepts it at any time. So
    // the acknowledgement that is handed over is never refused.
    ensures within { OfEveryRun NoneBeyond }
    ensures acknowledgements { OfEveryRun AcknowledgementsGoThrough }
    ensures hands { OfEveryRun HandsGoThrough }
    // Whatever a node has acknowledged, its current state has received.
    ensures taken_in { OfEveryRun AcknowledgedIsTakenIn }
    // Take the moves that the strategy plays after any run. Within a bound that the current states
    // determine, node 0 counts the cycle's marking as ended. No step of the moves is refused, if no
    // link runs out of numbers.
    ensures marking { OfSpaces MarkingCanEnd }
    // Within another bound, each node has swept the cycle, and node 0 was told so.
    ensures cycle { OfSpaces CycleCanEnd }
    // Within a third one, each node has swept the next cycle too. Once each is saved after that,
    // none has an object that was garbage at the start, saved or not, rings of objects across nodes
    // included.
    ensures garbage { OfSpaces GarbageCanGo }
    // If marking has terminated, node 0 finds that within three rounds of the token and the moves
    // that messages in flight need.
    ensures soon { OfSpaces EndIsFoundSoon }
    // A Reclaim between any two of these moves adds nothing to the bounds on what remains.
    ensures reclaims { OfSpaces ReclaimsAddNoWork }
    // The same of a node that resolves a reference.
    ensures resolves_quietly { OfSpaces ResolvesAddNoWork }
    // The calls of `Sim::step` for these moves all succeed, unless one fails with `Memory` or
    // `ImageTooLarge`. The space then shows what the moves lead to.
    ensures played { PlayedIsAnswered }
{}
