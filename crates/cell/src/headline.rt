//! The theorems about node threads: what the contracts of cells add up to if a run reaches the
//! world in which their wire was made.
ghost use Rattle.ids.specs.Limits.{IsShape, Shaped};
ghost use Rattle.model.specs.World.{new_world, World};
ghost use Rattle.laws.specs.Statements.{BalancesAddUp, GarbageGoes, NodesAgree, OldGarbageGoes, ReachIsLive, ReachResolves};
ghost use Rattle.cell.specs.Closing.{CellsAgree, CellsHaveNamed, ClosedIsLeft, ClosedIsReached};
ghost use Rattle.cell.specs.Closing.{KilledIsLeft};
ghost use Rattle.cell.specs.Copies.{CopiesAreReached};
ghost use Rattle.cell.specs.Garbage.{CellsFreeGarbage};
ghost use Rattle.cell.specs.Laws.{
  restarted,
  BlankIsNew,
  CellsFreeNoneReachable,
  CellsReclaimGarbage,
  CellsReclaimYoung,
  CellsReclaimNoneReachable,
  CellsRefuseNoAck,
  CellsRefuseNoneInTurn,
  LeftIsOpened,
  NextIsTakenIn,
  PrivateIsHidden,
};
ghost use Rattle.cell.specs.Reached.{AlikeGoOn, AlikeReach, IsReached, WorldOfIsReached};
ghost use Rattle.cell.specs.Theorems.{
  BeginOfOneAge,
  FreshIsReached,
  LeftIsOfOneAge,
  OfEveryReached,
  ReopenedIsReached,
  StaysReached,
};
ghost use Rattle.cell.specs.Unseen.{
  CellsAreToldSo,
  CellsReadSo,
  NewIsUnseen,
  ReachedIsUnseen,
  SightsAreKept,
  SightsGoOn,
};

use disk::Disk;

/// The theorems about runs, stated for cells. Their premises are what [`act`](crate::Cell::act) and
/// [`pump_in`](crate::Cell::pump_in) ensure, whatever other threads do in the meantime. They apply
/// if the wire was made for nodes as a run leaves them, new or saved.
///
/// No disk keeps messages that were acknowledged. So a run reaches a world here if it reaches one
/// that differs from it at most in such messages. Nothing else depends on them (`alike`,
/// `alike_reach`).
///
/// Of a cell of [`open`](crate::open), its wire begins in the world of the nodes that were found. A
/// run reaches that world if all disks were new (`fresh`), or if a space left them (`reopened`), be
/// it at different moments of one run (`copies`). What its events lead to is then reached too
/// (`onward`).
///
/// The function does nothing; its contract states the theorems.
pub fn laws()
    // A run reaches the world of new nodes.
    ensures new { (shape : Shaped) → IsShape shape → IsReached (new_world shape) }
    // Cells that are opened on blank disks begin in that world.
    ensures blank { BlankIsNew }
    // If a run reaches a world, a run also reaches the one in which all its nodes restart from
    // their saved states.
    ensures restarted { (w : World) → IsReached w → IsReached (restarted w) }
    // Nodes that are read from what cells left on their disks are in the states of that world.
    ensures left { LeftIsOpened }
    // A sweep frees nothing reachable: each reachable object of the node is the same before and
    // after.
    ensures frees_none_reachable { CellsFreeNoneReachable }
    // A reclaim frees nothing reachable either. What it leaves is old, and otherwise the same.
    ensures reclaims_free_none_reachable { CellsReclaimNoneReachable }
    // After one of all, the node has exactly the objects that it needed: those that are shared,
    // those that its registers and letters name, and those that the places of these lead to.
    ensures private_garbage { CellsReclaimGarbage }
    // After one of the young, it has its old objects, and of the others exactly those that it
    // needed: also those that old ones may name, and not what is in places of old ones.
    ensures young_garbage { CellsReclaimYoung }
    // In each cut of a reached world, no other node has a reference to a private object, and
    // nothing in flight mentions one.
    ensures private { OfEveryReached PrivateIsHidden }
    // No message that came over the wire fails with `WrongNode`. It is refused only if it is so
    // early that the node has no place for it, if a message that it makes the node send would need
    // a number above the greatest, or if memory runs out.
    ensures in_turn { CellsRefuseNoneInTurn }
    // No message that was kept until its turn is refused, unless a message that it makes the node
    // send would need a number above the greatest, or memory runs out.
    ensures next { NextIsTakenIn }
    // No acknowledgement that came over the wire is refused, whatever it acknowledges.
    ensures acknowledgements { CellsRefuseNoAck }
    // On disks that are blank, or on which a first opening that was cut off has left new nodes,
    // cells begin in a world that a run reaches.
    ensures fresh { FreshIsReached }
    // If a run reaches a world, it reaches each world that any steps lead to from there.
    ensures onward { StaysReached }
    // If a run reaches a world whose states the nodes have, with everything saved, then a run
    // reaches the world of these nodes. Each of them still has what isn't acknowledged.
    ensures opened { WorldOfIsReached }
    // Two worlds that differ at most in acknowledged messages have the same events, and differ no
    // more after them.
    ensures alike { AlikeGoOn }
    // The same is reachable in every cut of both.
    ensures alike_reach { AlikeReach }
    // What is reachable in a cut of a reached world is live in it.
    ensures live { OfEveryReached ReachIsLive }
    // In such a cut, the balances add up to the number of messages in flight that node 0's cycle
    // counts.
    ensures balances { OfEveryReached BalancesAddUp }
    // In such a cut, if a node counts a cycle's marking as ended, it has ended, and node 0 and each
    // node in a later cycle count it so too.
    ensures agreement { OfEveryReached NodesAgree }
    // What was saved and reachable in no cut before a cycle began is gone once its node has swept
    // that cycle, unless a program resolved a reference that led to it.
    ensures old_garbage { OfEveryReached OldGarbageGoes }
    // So is what was only in the node's current state, as long as the node doesn't restart.
    ensures garbage_goes { OfEveryReached GarbageGoes }
    // A node that resolves a reachable object of its own gets it, or is told to try again, which
    // may be only while it marks.
    ensures resolves { OfEveryReached ReachResolves }
    // Nodes in which a reached world begins are of one age. So no opening of new disks is refused
    // because of ages.
    ensures one_age { BeginOfOneAge }
    // Nor is one of the disks that a space left, even by a crash, if each node still has what
    // isn't acknowledged.
    ensures left_of_one_age { LeftIsOfOneAge }
    // If an opening of disks that a space left isn't refused because of ages, a run reaches the
    // world in which it begins.
    ensures reopened { ReopenedIsReached }
    // The same if the disks are copies that were made at different moments of one run.
    ensures copies { CopiesAreReached }
    // Programs can't see the collector: in each choice of current and saved states, what they were
    // told and received up to a reached world and after it is a run of a space without a collector.
    // That run ends with the same registers, letters, messages and reachable objects.
    ensures transparent { ReachedIsUnseen }
    // So it is with each answer of a cell, also a word that was read and a refusal: it is one that
    // a program may get in that space, after the sights that led to what the cell's seat knew.
    ensures told { CellsAreToldSo }
    // The bytes of an object that are read at a cell are those of that space too.
    ensures read { CellsReadSo }
    // In a new space nothing was seen; what happens then adds to that.
    ensures unseen { NewIsUnseen }
    ensures seen_on { SightsGoOn }
    // A space that is opened again begins with what belongs to the saved states that were left.
    ensures seen_again { SightsAreKept }
{}

/// The theorems about cells at one moment, as [`survey`](crate::survey) leaves them. They apply if
/// a run reaches the world in which their wire was made.
///
/// The function does nothing; its contract states the theorems.
pub fn laws_at_once<D: Disk>()
    // If the node of one of the cells counts the marking of a cycle as ended, it has ended at the
    // nodes of all of them.
    ensures agreement { CellsAgree D.may_leave }
    // If a register of the node of one of the cells refers to an object of another one's node, that
    // node has the object.
    ensures live { CellsHaveNamed D.may_leave }
    // What was garbage at an earlier moment, when node 0 hadn't begun a cycle, is gone from a cell
    // whose node has swept that cycle; from its disk too, once everything is saved.
    ensures gone { CellsFreeGarbage D.may_leave }
    // The nodes that are read from the disks of all cells of a space, which were open, are those
    // that the space left in the world of that moment.
    ensures left { ClosedIsLeft D.may_leave }
    // A run reaches the world in which these nodes begin, and each of them still has what isn't
    // acknowledged, if that held of the nodes with which the cells were made.
    ensures closed { ClosedIsReached D.may_leave }
    // A kill at any moment, also within saves, leaves the nodes of that moment, after the saves
    // that the disks hold already. Each of them still has what isn't acknowledged, if that held of
    // the nodes with which the cells were made. So an opening continues from there.
    ensures killed { KilledIsLeft D.may_leave }
{}
